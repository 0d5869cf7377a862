// The exact sums of a table of assignments by element of cost, four elements by six columns.
#![tactic(auto, unfolding(rule_cells::specs::Cells::first_that, crate::specs::Sums::record_fits, crate::specs::Sums::all_fit, crate::specs::Listed::sum_listed, crate::specs::Listed::sum_listed_at, crate::specs::Listed::sums_found))]

ghost use Rattle.std.specs.Prelude.{◌≡◌, ◌+◌, ◌<◌, ◌≤◌, length};
ghost use Rattle.exact_sums.specs.Sums.{wholes};
ghost use Rattle.rule_cells.specs.Cells.{table};
ghost use Rattle.rule_cells.specs.Seen.{seen, cells_seen};
ghost use Rattle.element_sums.specs.Sums.{record_fits, all_fit, no_sums, sums_in};
ghost use Rattle.element_sums.specs.Listed.{sum_listed, sum_listed_at, sums_found};

use amount::{amount_in, is_amount_in};
use cost_element::fill_elements;
use rule_cells::Table;

const FIRST_COLUMN: usize = 2;

const COLUMN_COUNT: usize = 6;

// Whether all amounts fit, and the sums then, element by element; else all are 0.
#[derive(Clone, Copy)]
pub struct Sums {
    pub fits: bool,
    pub sums: [i64; 24],
}

// Whether every amount of record r fits.
fn record_fits(table: &Table, r: usize) -> bool
    ensures { result ≡ record_fits (cells_seen table.now) r }
{
    for c in 0..COLUMN_COUNT {
        if !is_amount_in(table, r, FIRST_COLUMN + c) {
            return false;
        }
    }
    true
}

// Whether every amount of the records does.
fn all_fit(table: &Table) -> bool
    ensures { result ≡ all_fit (cells_seen table.now) table.now.records }
{
    for r in 0..table.records {
        if !record_fits(table, r) {
            return false;
        }
    }
    true
}

// The sum of field k over the records whose entry in the list of elements is this one.
fn sum_listed(table: &Table, elements: &[u32], element: u32, k: usize) -> i64
    requires { length elements.now ≤ 4096 }
    ensures { result ≡ sum_listed (cells_seen table.now) elements.now element k }
{
    let mut sum: i64 = 0;
    for (r, listed) in elements.iter().enumerate() {
        if *listed == element {
            sum += amount_in(table, r, k);
        }
    }
    sum
}

// The sums of every element and column.
fn sums_listed(table: &Table, elements: &[u32]) -> [i64; 24]
    requires { length elements.now ≤ 4096 }
    ensures { result ≡ wholes (sum_listed_at (cells_seen table.now) elements.now) 24 }
{
    let mut sums = [0i64; 24];
    for i in 0..24 {
        let element = i / COLUMN_COUNT + 1;
        let k = FIRST_COLUMN + i % COLUMN_COUNT;
        sums[i] = sum_listed(table, elements, element as u32, k);
    }
    sums
}

// None, for what is left out.
pub fn no_sums() -> Sums
    ensures { result ≡ no_sums }
{
    Sums {
        fits: false,
        sums: [0i64; 24],
    }
}

// The sums of as many assignments as a list has places for their elements.
fn sums_found(table: &Table, other: &Table, elements: &mut [u32]) -> Sums
    requires { length elements.old ≤ 4096 }
    ensures { result ≡ sums_found (cells_seen table.now) (cells_seen other.now) other.now.records elements.old }
{
    if fill_elements(table, other, elements) {
        let sums = sums_listed(table, elements);
        Sums { fits: true, sums }
    } else {
        no_sums()
    }
}

// The sums of a table of assignments, with the resources in a second table.
fn sums_of(table: &Table, other: &Table) -> Sums
    ensures { result ≡ sums_in (seen table.now) (seen other.now) }
{
    let records = table.records;
    if 4096 < records || !all_fit(table) {
        return no_sums();
    }
    let mut elements = [0u32; 4096];
    sums_found(table, other, &mut elements[..records])
}

// The same by the parts of the tables, for a caller whose cells stand in one lent list.
pub fn sums_in(
    s: &[u8],
    cells: &[u32],
    width: usize,
    records: usize,
    u: &[u8],
    u_cells: &[u32],
    u_width: usize,
    u_records: usize,
) -> Sums
    ensures { result ≡ sums_in (table s.now cells.now width records) (table u.now u_cells.now u_width u_records) }
{
    let table = Table {
        text: s,
        cells,
        width,
        records,
    };
    let other = Table {
        text: u,
        cells: u_cells,
        width: u_width,
        records: u_records,
    };
    sums_of(&table, &other)
}
