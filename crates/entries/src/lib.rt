// The entries of a table's records, by the sums of their keys, written as plain numbers into a lent list
// behind the table's cells.
#![tactic(auto, unfolding(rule_cells::specs::Cells::cell_of, table_rows::specs::Rows::cell_at, crate::specs::Entries::wrapped, crate::specs::Entries::sum_alone, crate::specs::Flat::fits_at, crate::specs::Flat::listed_in))]

ghost use Rattle.std.specs.Prelude.{◌≡◌, ◌+◌, ◌*◌, ◌<◌, ◌≤◌, true, map, length};
ghost use Rattle.bundle_bytes.specs.Pieces.{written};
ghost use Rattle.parts.specs.Part.{part_of};
ghost use Rattle.rule_cells.specs.Cells.{table, cell_of};
ghost use Rattle.key_order.specs.Order.{are_fit};
ghost use Rattle.entries.specs.Entries.{entry_of, sum_alone, entries_of};
ghost use Rattle.entries.specs.Flat.{entry_numbers, flat_of, listed_in};

use key_order::key_order;
use key_sum::key_sum;
use rule_cells::Table;
use rule_key::Key;
use table_rows::cell_at;

// The entry of a record: where its key's text starts in its file, how long it is as written, without the
// quotes, the key's sum, and the record's number from 1.
#[derive(Clone, Copy)]
pub struct Entry {
    pub start: u32,
    pub length: u32,
    pub sum: u32,
    pub record: u32,
}

// Cell j of record r; 0 past the cells.
fn cell_in(cells: &[u32], width: usize, r: usize, j: usize) -> u32
    ensures { result ≡ cell_of cells.now width r j }
{
    if r <= 4096 && width <= 128 && j <= 128 {
        cell_at(cells, width, r, j)
    } else {
        0
    }
}

// The entry of record r of a table, by its field k.
fn entry_of(s: &[u8], cells: &[u32], width: usize, k: usize, r: u32) -> Entry
    requires { k < 64 }
    ensures { result ≡ entry_of (table s.now cells.now width 0) k r }
{
    let start = cell_in(cells, width, r as usize, 2 * k);
    let end = cell_in(cells, width, r as usize, 2 * k + 1);
    let sum = key_sum(s, start as usize);
    Entry {
        start: start.wrapping_add(1),
        length: end.saturating_sub(start).saturating_sub(2),
        sum,
        record: r.wrapping_add(1),
    }
}

// Writes an entry's four numbers.
fn put_entry(work: &mut [u32], at: usize, e: Entry)
    requires { at + 4 ≤ length work.old }
    ensures { work.new ≡ written work.old at (entry_numbers e) }
{
    work[at] = e.start;
    work[at + 1] = e.length;
    work[at + 2] = e.sum;
    work[at + 3] = e.record;
}

// Writes the entries of the records that a list names, in its order, behind the table's cells.
fn put_entries(
    s: &[u8],
    work: &mut [u32],
    from: usize,
    to: usize,
    width: usize,
    k: usize,
    order: &[u32],
    at: usize,
)
    requires { (from ≤ to) × (to ≤ at) × (at + 4 * length order.now ≤ length work.old) × (k < 64) }
    ensures { work.new ≡ written work.old at (flat_of (map (entry_of (table s.now (part_of work.old from to) width 0) k) order.now)) }
{
    for (i, r) in order.iter().enumerate() {
        let e = entry_of(s, &work[from..to], width, k, *r);
        put_entry(work, at + 4 * i, e);
    }
}

// A key with nothing to compare beside the sum of field k.
fn sum_alone(k: usize) -> Key
    ensures { result ≡ sum_alone k }
{
    Key {
        a: k,
        a_kind: 0,
        b: 0,
        b_kind: 0,
        c: 0,
        c_kind: 0,
    }
}

// Orders as many records as the lists are long, by sum and then record, and writes their entries.
fn list_ordered(
    s: &[u8],
    work: &mut [u32],
    from: usize,
    to: usize,
    width: usize,
    k: usize,
    sums: &mut [u32],
    order: &mut [u32],
    scratch: &mut [u32],
    at: usize,
)
    requires { (from ≤ to) × (to ≤ at) × (at + 4 * length order.old ≤ length work.old) × (k < 64) × (are_fit sums.old order.old scratch.old ≡ true) }
    ensures { work.new ≡ written work.old at (flat_of (entries_of (table s.now (part_of work.old from to) width 0) k (length order.old))) }
{
    let key = sum_alone(k);
    let records = Table {
        text: s,
        cells: &work[from..to],
        width,
        records: order.len(),
    };
    key_order(&records, key, sums, order, scratch);
    put_entries(s, work, from, to, width, k, order, at);
}

// Writes the entries of the first n records.
fn list_records(
    s: &[u8],
    work: &mut [u32],
    from: usize,
    to: usize,
    width: usize,
    k: usize,
    n: usize,
    at: usize,
)
    requires { (from ≤ to) × (to ≤ at) × (at + 16384 ≤ length work.old) × (k < 64) × (n ≤ 4096) }
    ensures { work.new ≡ written work.old at (flat_of (entries_of (table s.now (part_of work.old from to) width 0) k n)) }
{
    let mut sums = [0u32; 4096];
    let mut order = [0u32; 4096];
    let mut scratch = [0u32; 4096];
    list_ordered(
        s,
        work,
        from,
        to,
        width,
        k,
        &mut sums[..n],
        &mut order[..n],
        &mut scratch[..n],
        at,
    );
}

// Writes the entries of the first n records of the table whose cells stand in `work` from one place up
// to another, by field k, and answers how many these are. Where there is no room for 4,096 of them
// from the place behind the cells, nothing is written. The parts of the table stand by themselves: its cells
// are in the workspace that the entries are written into, of which no `Table` can hold a part (fixed memory).
pub fn list_table(
    s: &[u8],
    work: &mut [u32],
    from: usize,
    to: usize,
    width: usize,
    k: usize,
    n: usize,
    at: usize,
) -> usize
    ensures value { result ≡ length (listed_in s.now work.old from to width k n at) }
    ensures work_after { work.new ≡ written work.old at (flat_of (listed_in s.now work.old from to width k n at)) }
{
    if from <= to
        && to <= at
        && 16384 <= work.len()
        && at <= work.len() - 16384
        && k < 64
        && n <= 4096
    {
        list_records(s, work, from, to, width, k, n, at);
        n
    } else {
        0
    }
}
