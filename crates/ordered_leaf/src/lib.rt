// The rule on leaves through an order of the elements that have a child: these are picked out once, and
// what a record names is looked up among them.
#![tactic(auto, unfolding(crate::specs::Parents::leaf_breaks_lookup, rule_cells::specs::Cells::text_of))]

ghost use Rattle.std.specs.Prelude.{◌≡◌, ◌++◌, ◌≤◌, length, drop};
ghost use Rattle.rule_cells.specs.Cells.{start_of, first_that};
ghost use Rattle.rule_cells.specs.Seen.{seen, cells_seen};
ghost use Rattle.rule_tree.specs.Tree.{leaf_rule};
ghost use Rattle.ordered_leaf.specs.Parents.{parent_starts, leaf_breaks_lookup, names_one};

use key_lookup::{Index, Lookup, key_of};
use key_order::key_order;
use rule_cells::Table;
use rule_tree::{has_child, leaf_rule};
use table_rows::cell_at;

// Where field k of record r starts, as the table's cell has it.
#[tactic(auto, unfolding(rule_cells::specs::Cells::start_of, rule_cells::specs::Cells::cell_of))]
fn start_cell(table: &Table, r: usize, k: usize) -> u32
    ensures { result ≡ start_of table.now.cells.now table.now.width r k }
{
    if 64 < k || 4096 < r || 128 < table.width {
        return 0;
    }
    cell_at(table.cells, table.width, r, 2 * k)
}

// Puts to the front of a list where the IDs of the elements start that have a child, and answers how
// many there are.
fn pick_parents(elements: &Table, id: usize, level: usize, starts: &mut [u32]) -> usize
    requires { elements.now.records ≤ length starts.old }
    ensures value { (result ≡ length (parent_starts (cells_seen elements.now) id level elements.now.records elements.now.records)) × (result ≤ elements.now.records) }
    ensures starts_after { starts.new ≡ parent_starts (cells_seen elements.now) id level elements.now.records elements.now.records ++ drop result starts.old }
{
    let mut n = 0;
    for q in 0..elements.records {
        if has_child(elements, level, q) {
            starts[n] = start_cell(elements, q, id);
            n += 1;
        }
    }
    n
}

// Whether what record r names is found among the texts of a list.
fn breaks_lookup(table: &Table, k: usize, parents: &Index, r: usize) -> bool
    ensures { result ≡ leaf_breaks_lookup (cells_seen table.now) k (cells_seen parents.now.table) parents.now.lookup parents.now.sums.now parents.now.order.now r }
{
    table.is_given(r, k) && parents.is_found(table.text, table.start_of(r, k))
}

// The first record of which it is, counted from 1; 0 where there is none.
fn first_found(table: &Table, k: usize, parents: &Index) -> usize
    ensures { result ≡ first_that (leaf_breaks_lookup (cells_seen table.now) k (cells_seen parents.now.table) parents.now.lookup parents.now.sums.now parents.now.order.now) table.now.records }
{
    for r in 0..table.records {
        if breaks_lookup(table, k, parents, r) {
            return r + 1;
        }
    }
    0
}

// The first record that names one of the texts that start at the places of a list, by way of an order of
// these in the other lists.
fn first_naming(
    table: &Table,
    k: usize,
    text: &[u8],
    starts: &[u32],
    sums: &mut [u32],
    order: &mut [u32],
    scratch: &mut [u32],
) -> usize
    requires { (length starts.now ≤ 4096) × (length sums.old ≡ length starts.now) × (length order.old ≡ length starts.now) × (length scratch.old ≡ length starts.now) }
    ensures { result ≡ first_that (names_one (cells_seen table.now) k text.now starts.now) table.now.records }
{
    let lookup = Lookup {
        m: 0,
        k: 0,
        kind: 0,
        also: 0,
    };
    let listed = Table {
        text,
        cells: starts,
        width: 1,
        records: starts.len(),
    };
    key_order(&listed, key_of(lookup), sums, order, scratch);
    let parents = Index {
        table: listed,
        lookup,
        sums,
        order,
    };
    first_found(table, k, &parents)
}

// The first record whose field k names an element that is no leaf, counted from 1; 0 where there is
// none. No table has over 4,096 elements.
// What may not change: `leaf_rule` counts so. Project rule: no heap, so lists as long as a table can be.
pub fn leaf_rule_in(table: &Table, k: usize, elements: &Table, id: usize, level: usize) -> usize
    ensures { result ≡ leaf_rule (seen table.now) k (seen elements.now) id level }
{
    let mut starts = [0u32; 4096];
    let mut sums = [0u32; 4096];
    let mut order = [0u32; 4096];
    let mut scratch = [0u32; 4096];
    if 4096 < elements.records {
        return leaf_rule(table, k, elements, id, level);
    }
    let n = pick_parents(elements, id, level, &mut starts);
    first_naming(
        table,
        k,
        elements.text,
        &starts[..n],
        &mut sums[..n],
        &mut order[..n],
        &mut scratch[..n],
    )
}
