// An amount in a record: dollars or hours in ten-thousandths, exact.
#![tactic(auto, unfolding(crate::specs::Amount::ten_thousandths, crate::specs::Amount::is_amount, crate::specs::Amount::amount_of, crate::specs::Amount::ten_thousandths_in, crate::specs::Amount::is_amount_in, crate::specs::Amount::amount_in, json_number::specs::Number::integer_of))]

ghost use Rattle.std.specs.Prelude.{◌≡◌, ◌+◌, ◌≤◌};
ghost use Rattle.json_number.specs.Number.{whole_of};
ghost use Rattle.json_number.specs.declared.Integer.TheVariants.{Is};
ghost use Rattle.rule_cells.specs.Seen.{cells_seen};
ghost use Rattle.amount.specs.Amount.{ten_thousandths, largest_amount, is_amount, signed, amount_of, ten_thousandths_in, is_amount_in, amount_in};

use json_number::{Integer, Value, integer_of, number_at};
use rule_cells::Table;

// 100,000,000 in ten-thousandths.
const LARGEST_AMOUNT: u64 = 1_000_000_000_000;

// ±c times 10 to the p, with p kept as p + 15, counted in ten-thousandths. From p 12 on that is beyond
// every Integer.
fn raised(negative: bool, c: u64, p15: u32) -> Integer
    ensures { result ≡ whole_of negative c (p15 + 4) }
{
    if 26 < p15 {
        return Integer::TooLarge;
    }
    integer_of(Value::Fits {
        negative,
        c,
        p15: p15 + 4,
    })
}

// A value counted in ten-thousandths.
fn ten_thousandths(v: Value) -> Integer
    ensures { result ≡ ten_thousandths v }
{
    match v {
        Value::Fits { negative, c, p15 } => raised(negative, c, p15),
        Value::Beyond => Integer::TooLarge,
    }
}

// The number in field k of record r, counted in ten-thousandths; a null is 0.
fn count_in(table: &Table, r: usize, k: usize) -> Integer
    ensures { result ≡ ten_thousandths_in (cells_seen table.now) r k }
{
    if table.is_given(r, k) {
        let value = number_at(table.text, table.start_of(r, k)).value;
        ten_thousandths(value)
    } else {
        Integer::Is {
            negative: false,
            magnitude: 0,
        }
    }
}

fn is_amount(x: Integer) -> bool
    ensures { result ≡ is_amount x }
{
    match x {
        Integer::Is { magnitude, .. } => magnitude <= LARGEST_AMOUNT,
        Integer::Fraction | Integer::TooLarge => false,
    }
}

fn signed(negative: bool, size: u64) -> i64
    requires { size ≤ largest_amount }
    ensures { result ≡ signed negative size }
{
    if negative {
        -(size as i64)
    } else {
        size as i64
    }
}

// A number of ten-thousandths, where it is an amount.
fn limited(negative: bool, size: u64) -> i64
    ensures { result ≡ amount_of (Is negative size) }
{
    if LARGEST_AMOUNT < size {
        0
    } else {
        signed(negative, size)
    }
}

fn amount_of(x: Integer) -> i64
    ensures { result ≡ amount_of x }
{
    match x {
        Integer::Is {
            negative,
            magnitude,
        } => limited(negative, magnitude),
        Integer::Fraction | Integer::TooLarge => 0,
    }
}

// Whether field k of record r holds an amount or nothing.
pub fn is_amount_in(table: &Table, r: usize, k: usize) -> bool
    ensures { result ≡ is_amount_in (cells_seen table.now) r k }
{
    is_amount(count_in(table, r, k))
}

// The amount in field k of record r, in ten-thousandths; 0 for null, and for what is no amount.
pub fn amount_in(table: &Table, r: usize, k: usize) -> i64
    ensures { result ≡ amount_in (cells_seen table.now) r k }
{
    amount_of(count_in(table, r, k))
}
