// The IDs of links as numbers, through an order of the links by their predecessors: two IDs that are the
// same have one number.
#![tactic(auto, unfolding(rule_cells::specs::Cells::text_of, crate::specs::Classes::by_predecessor, crate::specs::Classes::class_in, crate::specs::Classes::are_columns, crate::specs::Classes::column_after))]

ghost use Rattle.std.specs.Prelude.{◌≡◌, true, ℕ, length};
ghost use Rattle.json_chars.specs.Chars.{chars_at};
ghost use Rattle.mark_numbers.specs.Marks.{list_of};
ghost use Rattle.rule_cells.specs.Cells.{text_of};
ghost use Rattle.rule_cells.specs.Seen.{cells_seen};
ghost use Rattle.key_order.specs.Order.{sums_of, in_key_order, are_fit};
ghost use Rattle.key_lookup.specs.Lookup.{key_of};
ghost use Rattle.link_classes.specs.Classes.{predecessor_id, successor_id, by_predecessor, class_in, are_columns, column_after};

use key_lookup::{Index, Lookup, key_of};
use key_order::key_order;
use key_sum::key_sum;
use rule_cells::Table;

// Fields of document 002: PredecessorTaskID and SuccessorTaskID of a link.
const PREDECESSOR_ID: usize = 0;

const SUCCESSOR_ID: usize = 1;

// An ID looked up among the predecessors.
fn by_predecessor() -> Lookup
    ensures { result ≡ by_predecessor }
{
    Lookup {
        m: PREDECESSOR_ID,
        k: 0,
        kind: 0,
        also: 0,
    }
}

// The class of the ID at a place.
fn class_of(table: &Table, at: usize, sums: &[u32], order: &[u32]) -> usize
    ensures { result ≡ class_in (cells_seen table.now) sums.now order.now (chars_at table.now.text.now at) }
{
    let l = by_predecessor();
    let links = Index {
        table: *table,
        lookup: l,
        sums,
        order,
    };
    let s = table.text;
    if links.is_found(s, at) {
        let sum = key_sum(s, at);
        links.place_of(s, at, sum)
    } else {
        order.len()
    }
}

// Puts down the classes of field k.
fn fill_column(table: &Table, k: usize, sums: &[u32], order: &[u32], column: &mut [usize])
    ensures { column.new ≡ list_of (λ (r : ℕ). class_in (cells_seen table.now) sums.now order.now (text_of (cells_seen table.now) r k)) (length column.old) }
{
    for (r, class) in column.iter_mut().enumerate() {
        *class = class_of(table, table.start_of(r, k), sums, order);
    }
}

// Puts the links in order in the lent lists, and then their classes down.
fn fill_in_order(
    table: &Table,
    sums: &mut [u32],
    order: &mut [u32],
    scratch: &mut [u32],
    from: &mut [usize],
    to: &mut [usize],
)
    requires { are_fit sums.old order.old scratch.old ≡ true }
    ensures from_after { from.new ≡ list_of (λ (r : ℕ). class_in (cells_seen table.now) (sums_of (cells_seen table.now) predecessor_id (length order.old)) (in_key_order (cells_seen table.now) (key_of by_predecessor) (length order.old)) (text_of (cells_seen table.now) r predecessor_id)) (length from.old) }
    ensures to_after { to.new ≡ list_of (λ (r : ℕ). class_in (cells_seen table.now) (sums_of (cells_seen table.now) predecessor_id (length order.old)) (in_key_order (cells_seen table.now) (key_of by_predecessor) (length order.old)) (text_of (cells_seen table.now) r successor_id)) (length to.old) }
{
    let key = key_of(by_predecessor());
    key_order(table, key, sums, order, scratch);
    fill_column(table, PREDECESSOR_ID, sums, order, from);
    fill_column(table, SUCCESSOR_ID, sums, order, to);
}

// Puts down the classes of as many links as the lists have places: of their predecessors and of their
// successors. Lists that are no columns of links are left as they are, and the answer is false.
pub fn fill_classes(table: &Table, from: &mut [usize], to: &mut [usize]) -> bool
    ensures { (result ≡ are_columns from.old to.old) × (from.new ≡ column_after (cells_seen table.now) predecessor_id (are_columns from.old to.old) from.old) × (to.new ≡ column_after (cells_seen table.now) successor_id (are_columns from.old to.old) to.old) }
{
    let n = from.len();
    if 4096 < n || to.len() != n {
        return false;
    }
    let mut sums = [0u32; 4096];
    let mut order = [0u32; 4096];
    let mut scratch = [0u32; 4096];
    fill_in_order(
        table,
        &mut sums[..n],
        &mut order[..n],
        &mut scratch[..n],
        from,
        to,
    );
    true
}
