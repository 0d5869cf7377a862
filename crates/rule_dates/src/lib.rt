// The rule over two Dates of a record: where both are given, the first is not after the second.
#![tactic(auto, using(rule_cells::proofs::Laws::searching), unfolding(crate::specs::Dates::is_later, crate::specs::Dates::is_after, crate::specs::Dates::breaks_order, crate::specs::Dates::dates_in_order_rule, rule_cells::specs::Cells::first_that))]

ghost use Rattle.std.specs.Prelude.{◌≡◌};
ghost use Rattle.rule_cells.specs.Seen.{seen, cells_seen};
ghost use Rattle.rule_dates.specs.Dates.{is_after, breaks_order, dates_in_order_rule};

use json_date::Day;
use rule_cells::Table;

// Whether both are days, the first later than the second.
fn is_after(a: Option<Day>, b: Option<Day>) -> bool
    ensures { result ≡ is_after a b }
{
    match (a, b) {
        (Some(a), Some(b)) => b < a,
        _ => false,
    }
}

// Whether record r gives both Dates, the first after the second.
fn breaks_order(table: &Table, r: usize, first: usize, second: usize) -> bool
    ensures { result ≡ breaks_order (cells_seen table.now) first second r }
{
    table.is_given(r, first)
        && table.is_given(r, second)
        && is_after(table.date_in(r, first), table.date_in(r, second))
}

// The first record that does, counted from 1; 0 where none does.
pub fn in_order(table: &Table, first: usize, second: usize) -> usize
    ensures { result ≡ dates_in_order_rule (seen table.now) first second }
{
    for r in 0..table.records {
        if breaks_order(table, r, first, second) {
            return r + 1;
        }
    }
    0
}
