// Rules over the run of fields `from` to `to`, which is no part of it, of every record of a table:
// hours beside zero, fields that are null together, and fields that are all given or none.
#![tactic(auto, using(crate::proofs::Laws::running, rule_cells::proofs::Laws::searching), unfolding(crate::specs::Hours::first_field_that, crate::specs::Hours::any_field, crate::specs::Hours::lies_below, crate::specs::Hours::is_above, crate::specs::Hours::is_null, crate::specs::Hours::breaks, crate::specs::Hours::none_below_rule, crate::specs::Hours::some_above_rule, crate::specs::Hours::together_rule, crate::specs::Hours::all_given_rule, crate::specs::Hours::none_given_rule, crate::specs::Asked::passes, rule_cells::specs::Cells::first_that, rule_cells::specs::Cells::sign_in))]

ghost use Rattle.std.specs.Prelude.{◌≡◌};
ghost use Rattle.rule_cells.specs.Cells.{is_given, first_that};
ghost use Rattle.rule_cells.specs.Seen.{seen, cells_seen};
ghost use Rattle.rule_hours.specs.Hours.{below_zero, above_zero, first_field_that, any_field, lies_below, is_null, breaks, none_below_rule, some_above_rule, together_rule, all_given_rule, none_given_rule};
ghost use Rattle.rule_hours.specs.Asked.{passes};

use json_number::Sign;
use rule_cells::Table;

// What is asked of a field.
#[derive(Clone, Copy)]
enum Ask {
    Negative,
    Positive,
    Given,
    Null,
}

// How a record breaks a rule.
#[derive(Clone, Copy)]
enum Shape {
    SomeBelow,
    NoneAbove,
    Mixed,
    SomeNull,
    SomeGiven,
}

// Whether field k of record r is as asked.
fn is_so(table: &Table, r: usize, k: usize, ask: Ask) -> bool
    ensures { result ≡ passes ask (cells_seen table.now) r k }
{
    match ask {
        Ask::Negative => matches!(table.sign_in(r, k), Sign::Below),
        Ask::Positive => matches!(table.sign_in(r, k), Sign::Above),
        Ask::Given => table.is_given(r, k),
        Ask::Null => !table.is_given(r, k),
    }
}

// The first field of record r in the run that is as asked; `to` for none.
fn first_field(table: &Table, r: usize, from: usize, to: usize, ask: Ask) -> usize
    ensures { result ≡ first_field_that (passes ask (cells_seen table.now) r) from to }
{
    for k in from..to {
        if is_so(table, r, k, ask) {
            return k;
        }
    }
    to
}

// Whether some field of the run is.
fn any_field(table: &Table, r: usize, from: usize, to: usize, ask: Ask) -> bool
    ensures { result ≡ any_field (passes ask (cells_seen table.now) r) from to }
{
    first_field(table, r, from, to, ask) < to
}

// Whether record r breaks a rule over the run.
fn is_broken(table: &Table, r: usize, from: usize, to: usize, shape: Shape) -> bool
    ensures { result ≡ breaks shape (cells_seen table.now) from to r }
{
    match shape {
        Shape::SomeBelow => any_field(table, r, from, to, Ask::Negative),
        Shape::NoneAbove => !any_field(table, r, from, to, Ask::Positive),
        Shape::Mixed => {
            any_field(table, r, from, to, Ask::Given) && any_field(table, r, from, to, Ask::Null)
        }
        Shape::SomeNull => any_field(table, r, from, to, Ask::Null),
        Shape::SomeGiven => any_field(table, r, from, to, Ask::Given),
    }
}

// The first of the records that does, from 1; 0 for none.
fn first_broken(table: &Table, from: usize, to: usize, shape: Shape) -> usize
    ensures { result ≡ first_that (breaks shape (cells_seen table.now) from to) table.now.records }
{
    for r in 0..table.records {
        if is_broken(table, r, from, to, shape) {
            return r + 1;
        }
    }
    0
}

// The first record with hours below zero in the run.
pub fn none_below(table: &Table, from: usize, to: usize) -> usize
    ensures { result ≡ none_below_rule (seen table.now) from to }
{
    first_broken(table, from, to, Shape::SomeBelow)
}

// The first record with no hours above zero in the run.
pub fn some_above(table: &Table, from: usize, to: usize) -> usize
    ensures { result ≡ some_above_rule (seen table.now) from to }
{
    first_broken(table, from, to, Shape::NoneAbove)
}

// The first record that gives some fields of the run and leaves others null.
pub fn together(table: &Table, from: usize, to: usize) -> usize
    ensures { result ≡ together_rule table.now.cells.now table.now.width table.now.records from to }
{
    first_broken(table, from, to, Shape::Mixed)
}

// The first record that leaves a field of the run null.
pub fn all_given(table: &Table, from: usize, to: usize) -> usize
    ensures { result ≡ all_given_rule table.now.cells.now table.now.width table.now.records from to }
{
    first_broken(table, from, to, Shape::SomeNull)
}

// The first record that gives a field of the run.
pub fn none_given(table: &Table, from: usize, to: usize) -> usize
    ensures { result ≡ none_given_rule table.now.cells.now table.now.width table.now.records from to }
{
    first_broken(table, from, to, Shape::SomeGiven)
}

// The first field of record r in the run that is below zero; `to` for none.
pub fn first_below(table: &Table, r: usize, from: usize, to: usize) -> usize
    ensures { result ≡ first_field_that (lies_below (cells_seen table.now) r) from to }
{
    first_field(table, r, from, to, Ask::Negative)
}

// The first field of record r in the run that is null; `to` for none.
pub fn first_null(table: &Table, r: usize, from: usize, to: usize) -> usize
    ensures { result ≡ first_field_that (is_null table.now.cells.now table.now.width r) from to }
{
    first_field(table, r, from, to, Ask::Null)
}

// The first field of record r in the run that is given; `to` for none.
pub fn first_given(table: &Table, r: usize, from: usize, to: usize) -> usize
    ensures { result ≡ first_field_that (is_given table.now.cells.now table.now.width r) from to }
{
    first_field(table, r, from, to, Ask::Given)
}
