// The rules of a tree of elements, over a table with a column of Levels: the Levels, the parent of
// each element, and that what another table names is a leaf. Fields are given by number, so that any
// table with such a column can be judged.
#![tactic(auto, using(rule_outline::proofs::Laws::outlining, rule_cells::proofs::Laws::searching), unfolding(crate::specs::Tree::with_parent, crate::specs::Tree::tree_parent_rule, crate::specs::Tree::leaf_breaks, crate::specs::Tree::leaf_rule, rule_cells::specs::Cells::first_that))]

ghost use Rattle.std.specs.Prelude.{◌≡◌, ◌<◌};
ghost use Rattle.rule_cells.specs.Seen.{seen, cells_seen};
ghost use Rattle.rule_outline.specs.Outline.{level_of, held_in, some_of};
ghost use Rattle.rule_tree.specs.Tree.{next_breaks, tree_level_rule, tree_parent_breaks, tree_parent_rule, has_child, names_a_parent, leaf_breaks, leaf_rule};

use rule_cells::Table;
use rule_outline::{LEVEL_ONE, Outline, level_of, parent_in};

// Whether a Level breaks the tree behind the Level before it: it is above 1, and no more than one
// more.
#[tactic(auto, unfolding(crate::specs::Tree::next_breaks))]
fn next_breaks(before: u64, at: u64) -> bool
    ensures { result ≡ next_breaks before at }
{
    at <= LEVEL_ONE || before < at - 1
}

// The Levels of a tree: the first breaking record. Only the first record is of Level 1.
pub fn tree_level_rule(table: &Table, level: usize) -> usize
    ensures { result ≡ tree_level_rule (seen table.now) level }
{
    if table.records == 0 {
        return 0;
    }
    let mut above = level_of(table, 0, level);
    if above != LEVEL_ONE {
        return 1;
    }
    for r in 1..table.records {
        let at = level_of(table, r, level);
        if next_breaks(above, at) {
            return r + 1;
        }
        above = at;
    }
    0
}

// Whether record r breaks the rule on parents, where `parents` has the parent of each record.
#[tactic(auto, unfolding(crate::specs::Tree::tree_parent_breaks, rule_cells::specs::Cells::same_text, rule_cells::specs::Cells::text_of))]
fn tree_parent_breaks(table: &Table, id: usize, parent: usize, parents: &[u32], r: usize) -> bool
    ensures { result ≡ tree_parent_breaks (seen table.now) id parent (held_in parents.now) r }
{
    if r == 0 {
        return table.is_given(r, parent);
    }
    let p = parent_in(parents, r);
    let itself = *table;
    p == 0 || !(table.is_given(r, parent) && table.same_in(r, parent, &itself, p - 1, id))
}

// The parents of a tree as given: the first breaking record and its parent.
pub fn tree_parent_rule(table: &Table, id: usize, parent: usize, parents: &[u32]) -> Outline
    ensures { result ≡ tree_parent_rule (seen table.now) id parent (held_in parents.now) }
{
    for r in 0..table.records {
        if tree_parent_breaks(table, id, parent, parents, r) {
            return Outline {
                record: r + 1,
                parent: parent_in(parents, r),
            };
        }
    }
    Outline {
        record: 0,
        parent: 0,
    }
}

// Whether element q has a child: it has one exactly if the next element is of higher Level.
#[tactic(auto, using(crate::proofs::Children::having), unfolding(rule_outline::specs::Outline::level_of, rule_cells::specs::Cells::integer_in))]
pub fn has_child(elements: &Table, level: usize, q: usize) -> bool
    ensures { result ≡ has_child (level_of (cells_seen elements.now) level) elements.now.records q }
{
    if elements.records <= q || elements.records == q + 1 {
        return false;
    }
    level_of(elements, q, level) < level_of(elements, q + 1, level)
}

// Whether element q has the ID in field k of record r, and a child.
#[tactic(auto, unfolding(crate::specs::Tree::names_a_parent, rule_outline::specs::Outline::level_of, rule_cells::specs::Cells::integer_in, rule_cells::specs::Cells::same_text, rule_cells::specs::Cells::text_of))]
fn names_parent(
    table: &Table,
    r: usize,
    k: usize,
    elements: &Table,
    id: usize,
    level: usize,
    q: usize,
) -> bool
    ensures { result ≡ names_a_parent (seen table.now) r k (seen elements.now) id level q }
{
    table.same_in(r, k, elements, q, id) && has_child(elements, level, q)
}

// Whether some element has the ID in field k of record r, and a child.
fn some_parent(table: &Table, r: usize, k: usize, elements: &Table, id: usize, level: usize) -> bool
    ensures { result ≡ some_of (names_a_parent (seen table.now) r k (seen elements.now) id level) elements.now.records }
{
    for q in 0..elements.records {
        if names_parent(table, r, k, elements, id, level, q) {
            return true;
        }
    }
    false
}

// Whether record r names an element that is no leaf.
fn leaf_breaks(table: &Table, r: usize, k: usize, elements: &Table, id: usize, level: usize) -> bool
    ensures { result ≡ leaf_breaks (seen table.now) k (seen elements.now) id level r }
{
    table.is_given(r, k) && some_parent(table, r, k, elements, id, level)
}

// The first record whose field k names an element that is no leaf, counted from 1; 0 where there is
// none.
pub fn leaf_rule(table: &Table, k: usize, elements: &Table, id: usize, level: usize) -> usize
    ensures { result ≡ leaf_rule (seen table.now) k (seen elements.now) id level }
{
    for r in 0..table.records {
        if leaf_breaks(table, r, k, elements, id, level) {
            return r + 1;
        }
    }
    0
}
