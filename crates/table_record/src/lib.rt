// A record of a table, read once: the places of its values go into cells that the caller lends, two
// numbers a field, and the answer is the place behind its closing brace or the record's first fault.
#![tactic(auto, unfolding(crate::specs::Record::stored, crate::specs::Record::stored_value, crate::specs::Record::record_closed_at, crate::specs::Record::record_has_room))]

ghost use Rattle.std.specs.Prelude.{◌≡◌, true, ◌+◌, ◌*◌, ◌^◌, ◌≤◌, ◌<◌, length, take, drop};
ghost use Rattle.table_rows.specs.Rows.{fields_from};
ghost use Rattle.table_name.specs.Name.{name_at};
ghost use Rattle.table_name.specs.Guess.{names_apart};
ghost use Rattle.table_value.specs.Value.{value_at};
ghost use Rattle.table_record.specs.Record.{cells_filled, stored, cleared, stored_value, pair_at, pairs_from, is_missing, record_closed_at, record_has_room, record_at};
ghost use Rattle.table_record.specs.Pair.{reading_of};
ghost use Rattle.table_record.specs.Required.{required_from, required_bytes};

use json_bytes::{Fault, Reading};
use table_name::{
    NameRead, Named, Next, colon_at, first_in, guess_end, hint_at, name_at, next_after,
};
use table_rows::{field_type, is_nullable};
use table_value::{ValueRead, value_at};

// Field k's value stands from start to end; the end is 0 for a null.
fn store(cells: &mut [u32], base: usize, k: usize, start: usize, end: usize)
    requires { (base + 2 * k + 1 < length cells.old) × ((start < 2 ^ 32) × (end < 2 ^ 32)) }
    ensures { cells.new ≡ stored cells.old base k start end }
{
    let at = base + 2 * k;
    cells[at] = start as u32;
    cells[at + 1] = end as u32;
}

// The value that begins at start, in field k of type ty.
#[tactic(auto, using(crate::proofs::Laws::value_inside), unfolding(crate::specs::Record::stored_value))]
fn store_value(s: &[u8], start: usize, ty: u32, cells: &mut [u32], base: usize, k: usize) -> Reading
    requires { (length s.now < 2 ^ 32) × ((start ≤ length s.now) × (base + 2 * k + 1 < length cells.old)) }
    ensures { cells_filled cells.new result ≡ stored_value cells.old base k start (value_at s.now start ty) }
{
    match value_at(s, start, ty) {
        ValueRead::Held { end } => {
            store(cells, base, k, start, end);
            Ok(end)
        }
        ValueRead::Null { end } => {
            store(cells, base, k, start, 0);
            Ok(end)
        }
        ValueRead::Bad { kind, place } => Err(Fault { kind, place }),
    }
}

// A name and its value as read: the place behind the value, and the field that most likely stands next, which is
// the one behind it in the table's order.
#[derive(Clone, Copy)]
struct Pair {
    end: usize,
    next: usize,
}

// The name at `at`: which field it is, or its fault. Records mostly list their fields in the table's
// order, so one field is tried first by its bytes, and then the one that the hints point to; where the
// table's names are told apart so, a field whose name stands there is the answer.
#[tactic(auto, using(crate::proofs::Laws::guessing))]
fn named_at(
    s: &[u8],
    at: usize,
    rows: &[u32],
    names: &[u8],
    count: usize,
    hints: &[u8],
    guess: usize,
) -> NameRead
    requires { 0 < length hints.now → names_apart rows.now names.now count ≡ true }
    ensures { result ≡ name_at (fields_from rows.now names.now count 0) s.now at }
{
    if 0 < hints.len() {
        if guess < count {
            let end = guess_end(s, at, rows, names, guess);
            if 0 < end {
                return Ok(Named { index: guess, end });
            }
        }
        let hint = hint_at(s, at, hints);
        if hint < count {
            let end = guess_end(s, at, rows, names, hint);
            if 0 < end {
                return Ok(Named { index: hint, end });
            }
        }
    }
    name_at(s, at, rows, names, count)
}

// The name at `at` and its value. A name that stands a second time in its record is 14.
#[tactic(auto, using(crate::proofs::Laws::pairing))]
fn pair_at(
    s: &[u8],
    at: usize,
    rows: &[u32],
    names: &[u8],
    count: usize,
    hints: &[u8],
    guess: usize,
    cells: &mut [u32],
    base: usize,
) -> Result<Pair, Fault>
    requires all_inside { (length s.now < 2 ^ 32) × ((at ≤ length s.now) × (base + 2 * count ≤ length cells.old)) }
    requires hinted_names_apart { 0 < length hints.now → names_apart rows.now names.now count ≡ true }
    ensures { cells_filled cells.new (reading_of result) ≡ pair_at (fields_from rows.now names.now count 0) s.now at cells.old base }
{
    let Named { index, end } = named_at(s, at, rows, names, count, hints, guess)?;
    if 0 < cells[base + 2 * index] {
        return Err(Fault {
            kind: 14,
            place: at,
        });
    }
    let start = colon_at(s, end)?;
    // A match and no `?`: tried, the proof did not close.
    match store_value(s, start, field_type(rows, index), cells, base, index) {
        Ok(end) => Ok(Pair {
            end,
            next: index + 1,
        }),
        Err(fault) => Err(fault),
    }
}

// Whether one of the fields that must hold a value does not. `required` has their numbers, so that no
// other is looked at.
#[tactic(auto, using(crate::proofs::Required::missing))]
fn is_missing(
    required: &[u8],
    rows: &[u32],
    names: &[u8],
    count: usize,
    cells: &[u32],
    base: usize,
) -> bool
    requires count_in_bounds { base + 2 * count ≤ length cells.now }
    requires required_of_rows { required.now ≡ required_from rows.now count 0 }
    ensures { result ≡ is_missing (fields_from rows.now names.now count 0) cells.now base 0 }
{
    for k in required {
        if cells[base + 2 * (*k as usize) + 1] == 0 {
            return true;
        }
    }
    false
}

// The record's closing brace at `at`: 19 there where a field that must hold a value does not.
fn close_at(
    at: usize,
    rows: &[u32],
    names: &[u8],
    count: usize,
    required: &[u8],
    cells: &[u32],
    base: usize,
) -> Reading
    requires at_bound { (at < 2 ^ 63) × (base + 2 * count ≤ length cells.now) }
    requires required_of_rows { required.now ≡ required_from rows.now count 0 }
    ensures { result ≡ record_closed_at (fields_from rows.now names.now count 0) cells.now base at }
{
    if is_missing(required, rows, names, count, cells, base) {
        return Err(Fault {
            kind: 19,
            place: at,
        });
    }
    Ok(at + 1)
}

// The names and values from `from` on, up to the closing brace.
fn read_pairs(
    s: &[u8],
    from: usize,
    rows: &[u32],
    names: &[u8],
    count: usize,
    hints: &[u8],
    required: &[u8],
    cells: &mut [u32],
    base: usize,
) -> Reading
    requires all_inside { (length s.now < 2 ^ 32) × (((0 < from) × (from ≤ length s.now)) × (base + 2 * count ≤ length cells.old)) }
    requires hinted_names_apart { 0 < length hints.now → names_apart rows.now names.now count ≡ true }
    requires required_of_rows { required.now ≡ required_from rows.now count 0 }
    ensures { cells_filled cells.new result ≡ pairs_from (length s.now) (fields_from rows.now names.now count 0) s.now from cells.old base }
{
    let mut at = from;
    let mut guess = 0;
    loop {
        match pair_at(s, at, rows, names, count, hints, guess, cells, base) {
            Ok(pair) => match next_after(s, pair.end, b'}') {
                Next::More { at: next } => {
                    at = next;
                    guess = pair.next;
                }
                Next::Ends { at: last } => {
                    return close_at(last, rows, names, count, required, cells, base);
                }
                Next::Neither { at: place } => {
                    return Err(Fault { kind: 11, place });
                }
            },
            Err(fault) => {
                return Err(fault);
            }
        }
    }
}

// Makes n cells from base on 0.
#[tactic(auto, using(crate::proofs::Laws::clearing))]
fn clear(cells: &mut [u32], base: usize, n: usize)
    requires { base + n ≤ length cells.old }
    ensures { cells.new ≡ cleared cells.old base n }
{
    for i in 0..n {
        cells[base + i] = 0;
    }
}

// Whether the record's cells fit into the lent ones, and the file's places into a cell.
#[tactic(auto, using(crate::proofs::Laws::rooms))]
fn has_room(s: &[u8], cells: &[u32], base: usize, count: usize) -> bool
    ensures { result ≡ record_has_room s.now cells.now base count }
{
    s.len() <= 4_294_967_295
        && count <= 64
        && 2 * count <= cells.len()
        && base <= cells.len() - 2 * count
}

// Puts down the numbers of the fields that must hold a value, as many as have room, and says how many
// those are. A caller asks once for all records of a table.
pub fn fill_required(rows: &[u32], count: usize, required: &mut [u8]) -> usize
    ensures required_after { take result required.new ≡ required_bytes rows.now count (length required.old) }
    ensures required_unchanged { drop result required.new ≡ drop result required.old }
    ensures upper_bound { result ≤ length required.old }
{
    let mut n = 0;
    for k in 0..count {
        if !is_nullable(rows, k) {
            if n < required.len() {
                required[n] = (k % 256) as u8;
                n += 1;
            }
        }
    }
    n
}

// The record whose opening brace stands at `at`, with the `count` fields that rows and names
// describe; its cells start at base. Where there are hints the names are told apart by their bytes: a
// caller finds that out once for all records of a table. Without any, no name is guessed. Which fields
// must hold a value is put down once too; of more fields than 64, which have no room, it is not asked.
pub fn read_record(
    s: &[u8],
    at: usize,
    rows: &[u32],
    names: &[u8],
    count: usize,
    hints: &[u8],
    required: &[u8],
    cells: &mut [u32],
    base: usize,
) -> Reading
    requires hinted_names_apart { 0 < length hints.now → names_apart rows.now names.now count ≡ true }
    requires required_of_rows { count ≤ 64 → required.now ≡ required_from rows.now count 0 }
    ensures value { result ≡ (record_at (fields_from rows.now names.now count 0) s.now at cells.old base).outcome }
    ensures cells_after { cells.new ≡ (record_at (fields_from rows.now names.now count 0) s.now at cells.old base).cells }
{
    if !has_room(s, cells, base, count) {
        return Err(Fault {
            kind: 99,
            place: at,
        });
    }
    clear(cells, base, 2 * count);
    match first_in(s, at, b'}') {
        Next::More { at: first } => read_pairs(
            s, first, rows, names, count, hints, required, cells, base,
        ),
        Next::Ends { at: last } => close_at(last, rows, names, count, required, cells, base),
        Next::Neither { at: place } => Err(Fault { kind: 11, place }),
    }
}
