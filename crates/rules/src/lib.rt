// A rule judged: the first record that breaks it, and the mark that this gives.
#![tactic(auto, unfolding(crate::specs::Judge::is_judged, crate::specs::Judge::mark_of))]

ghost use Rattle.std.specs.Prelude.{◌≡◌};
ghost use Rattle.rule_cells.specs.Cells.{table};
ghost use Rattle.rule_cells.specs.Seen.{seen};
ghost use Rattle.rule_key.specs.Key.{key_rule};
ghost use Rattle.rule_outline.specs.Outline.{parent_rule, parent_type_rule, parent_of, held_in};
ghost use Rattle.rule_shape.specs.Rule.{rule_from};
ghost use Rattle.rule_target.specs.Target.{target_rule};
ghost use Rattle.rule_tree.specs.Tree.{tree_parent_rule, leaf_rule};
ghost use Rattle.rules.specs.Judge.{alone, of_key, of_outline, parent_break, rule_break, is_judged, mark_of};

use mark_numbers::Mark;
use ordered_key::{is_ascending, is_grouped, key_rule_in};
use ordered_leaf::leaf_rule_in;
use ordered_outline::parent_type_rule_in;
use ordered_target::target_rule_by_order;
use parts::part;
use rule_cells::Table;
use rule_dates::in_order;
use rule_hours::{all_given, none_below, none_given, some_above, together};
use rule_key::{Key, KeyBreak, key_rule};
use rule_outline::{Outline, fill_parents, level_rule, parent_rule, parent_type_rule};
use rule_shape::{Rule, rule_at};
use rule_target::Target;
use rule_tree::{tree_level_rule, tree_parent_rule};
use rule_value::{FieldRule, field_rule};
use rule_when::When;
use table_rows::{value_end, value_start};

// The first breaking record, counted from 1, and the record that goes with it: the earliest with
// the same key, or the parent; 0 for none.
#[derive(Clone, Copy)]
pub struct Break {
    pub record: usize,
    pub other: usize,
}

fn alone(record: usize) -> Break
    ensures { result ≡ alone «record» }
{
    Break { record, other: 0 }
}

fn of_key(found: KeyBreak) -> Break
    ensures { result ≡ of_key found }
{
    Break {
        record: found.record,
        other: found.same,
    }
}

// The rule of marks 20–35, through an order of the records. No table has over 4,096.
fn unordered_break(judged: &Table, key: Key) -> Break
    ensures { result ≡ of_key (key_rule (seen judged.now) key) }
{
    let mut sums = [0u32; 4096];
    let mut order = [0u32; 4096];
    let mut scratch = [0u32; 4096];
    let records = judged.records;
    if 4096 < records {
        return of_key(key_rule(judged, key));
    }
    of_key(key_rule_in(
        judged,
        key,
        &mut sums[..records],
        &mut order[..records],
        &mut scratch[..records],
    ))
}

// The rule of marks 20–35. Keys that ascend do not repeat, nor do those that differ within each group of one
// second ID, and many tables come so: then no list of 4,096 is made and cleared.
fn key_break(judged: &Table, key: Key) -> Break
    ensures { result ≡ of_key (key_rule (seen judged.now) key) }
{
    if is_ascending(judged, key) {
        return Break {
            record: 0,
            other: 0,
        };
    }
    if is_grouped(judged, key) {
        return Break {
            record: 0,
            other: 0,
        };
    }
    unordered_break(judged, key)
}

fn of_outline(found: Outline) -> Break
    ensures { result ≡ of_outline found }
{
    Break {
        record: found.record,
        other: found.parent,
    }
}

// Mark 79's rule. The parents are found once for all records and kept while the rule looks at them.
fn parent_break(judged: &Table, level: usize, id: usize, parent: usize) -> Break
    ensures { result ≡ parent_break (seen judged.now) (parent_rule (seen judged.now) level id parent (parent_of (seen judged.now) level)) }
{
    let mut parents = [0u32; 4096];
    if fill_parents(judged, level, &mut parents) {
        return of_outline(parent_rule(judged, level, id, parent, &parents));
    }
    alone(0)
}

// The rule on the parents of a tree, with the parents kept in the same way.
fn tree_parent_break(judged: &Table, level: usize, id: usize, parent: usize) -> Break
    ensures { result ≡ parent_break (seen judged.now) (tree_parent_rule (seen judged.now) id parent (parent_of (seen judged.now) level)) }
{
    let mut parents = [0u32; 4096];
    if fill_parents(judged, level, &mut parents) {
        return of_outline(tree_parent_rule(judged, id, parent, &parents));
    }
    alone(0)
}

// The rule on leaves, through an order of those elements that have a child: a record that names one of them.
fn leaf_break(judged: &Table, field: usize, elements: &Table, id: usize, level: usize) -> Break
    ensures { result ≡ alone (leaf_rule (seen judged.now) field (seen elements.now) id level) }
{
    alone(leaf_rule_in(judged, field, elements, id, level))
}

// Mark 80's rule over parents that were found, through an order of the tasks.
fn typed_parents(
    outline: &Table,
    level: usize,
    id: usize,
    parents: &[u32],
    tasks: &Table,
    task_id: usize,
    task_type: usize,
    word: &[u8],
) -> Outline
    ensures { result ≡ parent_type_rule (seen outline.now) level id (held_in parents.now) (seen tasks.now) task_id task_type word.now }
{
    let mut sums = [0u32; 4096];
    let mut order = [0u32; 4096];
    let mut scratch = [0u32; 4096];
    let records = tasks.records;
    if 4096 < records {
        return parent_type_rule(outline, level, id, parents, tasks, task_id, task_type, word);
    }
    parent_type_rule_in(
        outline,
        level,
        id,
        parents,
        tasks,
        task_id,
        task_type,
        word,
        &mut sums[..records],
        &mut order[..records],
        &mut scratch[..records],
    )
}

// Mark 80's rule, with the parents kept in the same way.
fn parent_type_break(
    outline: &Table,
    level: usize,
    id: usize,
    tasks: &Table,
    task_id: usize,
    task_type: usize,
    word: &[u8],
) -> Break
    ensures { result ≡ parent_break (seen outline.now) (parent_type_rule (seen outline.now) level id (parent_of (seen outline.now) level) (seen tasks.now) task_id task_type word.now) }
{
    let mut parents = [0u32; 4096];
    if fill_parents(outline, level, &mut parents) {
        return of_outline(typed_parents(
            outline, level, id, &parents, tasks, task_id, task_type, word,
        ));
    }
    alone(0)
}

// The rule of marks 48–64, and of 67, 73 and 74: a value, in a record that meets the condition, that no
// record of the targets has as its `id`.
fn target_break(
    judged: &Table,
    field: usize,
    when: When,
    targets: &Table,
    id: usize,
    places: &[u32],
    texts: &[u8],
) -> Break
    ensures { result ≡ alone (target_rule (seen judged.now) field when (seen targets.now) id places.now texts.now) }
{
    let asked = Target {
        k: field,
        when,
        m: id,
    };
    alone(target_rule_by_order(judged, asked, targets, places, texts))
}

// Rule i of the rows over the table that it judges and the table `u` that it looks into.
pub fn rule_break(
    rows: &[u32],
    i: usize,
    s: &[u8],
    cells: &[u32],
    width: usize,
    records: usize,
    u: &[u8],
    u_cells: &[u32],
    u_width: usize,
    u_records: usize,
    places: &[u32],
    texts: &[u8],
) -> Break
    ensures { result ≡ rule_break places.now texts.now (rule_from rows.now i) (table s.now cells.now width records) (table u.now u_cells.now u_width u_records) }
{
    let table = Table {
        text: s,
        cells,
        width,
        records,
    };
    let others = Table {
        text: u,
        cells: u_cells,
        width: u_width,
        records: u_records,
    };
    let rule = rule_at(rows, i);
    match rule {
        Rule::KeyOf { key, .. } => key_break(&table, key),
        Rule::OneOf {
            field,
            first,
            count,
            ..
        } => {
            let asked = FieldRule::OneOf { first, count };
            alone(field_rule(&table, field, asked, places, texts))
        }
        Rule::NullUnless { field, when, .. } => {
            let asked = FieldRule::NullUnless { when };
            alone(field_rule(&table, field, asked, places, texts))
        }
        Rule::GivenIf { field, when, .. } => {
            let asked = FieldRule::GivenIf { when, wanted: true };
            alone(field_rule(&table, field, asked, places, texts))
        }
        Rule::GivenUnless { field, when, .. } => {
            let asked = FieldRule::GivenIf {
                when,
                wanted: false,
            };
            alone(field_rule(&table, field, asked, places, texts))
        }
        Rule::NoneBelow { from, to, .. } => alone(none_below(&table, from, to)),
        Rule::SomeAbove { from, to, .. } => alone(some_above(&table, from, to)),
        Rule::Together { from, to, .. } => alone(together(&table, from, to)),
        Rule::LevelRun { level, .. } => alone(level_rule(&table, level)),
        Rule::ParentGiven {
            parent,
            level,
            id,
            ..
        } => parent_break(&table, level, id, parent),
        Rule::AllGiven { from, to, .. } => alone(all_given(&table, from, to)),
        Rule::NoneGiven { from, to, .. } => alone(none_given(&table, from, to)),
        Rule::InOrder { first, second, .. } => alone(in_order(&table, first, second)),
        Rule::TreeLevels { level, .. } => alone(tree_level_rule(&table, level)),
        Rule::TreeParent {
            parent,
            level,
            id,
            ..
        } => tree_parent_break(&table, level, id, parent),
        Rule::TargetIn {
            field,
            when,
            id,
            ..
        } => target_break(&table, field, when, &others, id, places, texts),
        Rule::ParentIs {
            level,
            id,
            other_id,
            other_type,
            value,
            ..
        } => {
            let word = part(texts, value_start(places, value), value_end(places, value));
            parent_type_break(&table, level, id, &others, other_id, other_type, word)
        }
        Rule::LeafIn {
            field,
            id,
            level,
            ..
        } => leaf_break(&table, field, &others, id, level),
        Rule::EachHas {
            field,
            when,
            id,
            ..
        } => target_break(&table, field, when, &others, id, places, texts),
    }
}

// Whether a rule is judged, where the marks of its two files are of these kinds.
pub fn is_judged(first: u32, second: u32) -> bool
    ensures { result ≡ is_judged first second }
{
    first == 0 && second == 0
}

// The mark of a rule: kind 2 where it is not judged, else kind 1 at the breaking record with the record
// that goes with it, or kind 0.
pub fn mark_of(judged: bool, b: Break) -> Mark
    ensures { result ≡ mark_of judged b }
{
    let place = b.record;
    let companion = b.other;
    if judged {
        if place == 0 {
            return Mark {
                kind: 0,
                place: 0,
                companion: 0,
            };
        }
        return Mark {
            kind: 1,
            place,
            companion,
        };
    }
    Mark {
        kind: 2,
        place: 0,
        companion: 0,
    }
}
