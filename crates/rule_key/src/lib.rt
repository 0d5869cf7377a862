// The rule "primary key": no record of a table has the key of an earlier one.
#![tactic(auto, using(crate::proofs::Compare::comparing, rule_cells::proofs::Laws::searching), unfolding(crate::specs::Key::same_integer, crate::specs::Key::same_date, crate::specs::Key::same_field, crate::specs::Key::same_key, rule_cells::specs::Cells::first_that))]

ghost use Rattle.std.specs.Prelude.{◌≡◌, ◌&&◌, eqb};
ghost use Rattle.json_number.specs.Number.{same_sign};
ghost use Rattle.rule_cells.specs.Seen.{seen, cells_seen};
ghost use Rattle.rule_key.specs.Key.{same_integer, same_date, same_field, same_key, earliest, key_rule};

use json_date::Day;
use json_number::Integer;
use rule_cells::Table;

// The fields of a key, each with its kind: 1 an ID, 2 an Integer, 3 a Date, and any other number
// where the key has no such field.
// The kinds stay numbers: same_field of specs, which may not change, tells fields by them.
#[derive(Clone, Copy)]
pub struct Key {
    pub a: usize,
    pub a_kind: u32,
    pub b: usize,
    pub b_kind: u32,
    pub c: usize,
    pub c_kind: u32,
}

// The first record that has the key of an earlier one, and the earliest that has it, both counted
// from 1; 0 and 0 where no record does.
// It stays two numbers: key_rule of specs, which may not change, gives them, and a mark has them as its place and companion.
#[derive(Clone, Copy)]
pub struct KeyBreak {
    pub record: usize,
    pub same: usize,
}

// An equation of two Integers by ==: what is no Integer equals nothing here, itself neither, so none is derived.
fn same_integer(a: Integer, b: Integer) -> bool
    ensures { result ≡ same_integer a b }
{
    match (a, b) {
        (
            Integer::Is {
                negative: m,
                magnitude: x,
            },
            Integer::Is {
                negative: n,
                magnitude: y,
            },
        ) => x == y && m == n,
        _ => false,
    }
}

// Whether both are days, and the same one.
fn same_date(a: Option<Day>, b: Option<Day>) -> bool
    ensures { result ≡ same_date a b }
{
    match (a, b) {
        (Some(a), Some(b)) => a == b,
        _ => false,
    }
}

// Whether field k of records i and j, of this kind, holds one value.
fn same_field(table: &Table, kind: u32, k: usize, i: usize, j: usize) -> bool
    ensures { result ≡ same_field (cells_seen table.now) kind k i j }
{
    let itself = *table;
    match kind {
        1 => table.same_in(i, k, &itself, j, k),
        2 => same_integer(table.integer_in(i, k), table.integer_in(j, k)),
        3 => same_date(table.date_in(i, k), table.date_in(j, k)),
        _ => true,
    }
}

// Whether records i and j have one key; the first field that differs decides.
pub fn same_key(table: &Table, key: Key, i: usize, j: usize) -> bool
    ensures { result ≡ same_key (cells_seen table.now) key i j }
{
    same_field(table, key.a_kind, key.a, i, j)
        && same_field(table, key.b_kind, key.b, i, j)
        && same_field(table, key.c_kind, key.c, i, j)
}

// The earliest record before i that has i's key, counted from 1; 0 for none.
pub fn earliest_same(table: &Table, key: Key, i: usize) -> usize
    ensures { result ≡ earliest (cells_seen table.now) key i }
{
    for j in 0..i {
        if same_key(table, key, j, i) {
            return j + 1;
        }
    }
    0
}

// The first record whose key equals an earlier one's.
pub fn key_rule(table: &Table, key: Key) -> KeyBreak
    ensures { result ≡ key_rule (seen table.now) key }
{
    for i in 0..table.records {
        let same = earliest_same(table, key, i);
        if 0 < same {
            return KeyBreak {
                record: i + 1,
                same,
            };
        }
    }
    KeyBreak { record: 0, same: 0 }
}
