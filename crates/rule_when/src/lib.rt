// A condition on one field of a record: given, true, or one of at most two enumeration values.
#![tactic(auto, unfolding(crate::specs::When::is_value, crate::specs::When::holds_when, table_rows::specs::Rows::value_text_at))]

ghost use Rattle.std.specs.Prelude.{◌≡◌, ◌||◌};
ghost use Rattle.rule_cells.specs.Seen.{cells_seen};
ghost use Rattle.rule_when.specs.When.{is_value, holds_when};

use parts::part;
use rule_cells::Table;
use table_rows::{value_end, value_start};

// kind 0: always; 1: the field is given; 2: it is true; any other: it is value `first` or value
// `second` of the enumeration values, by their numbers.
// The kind stays a number: holds_when and the conditions of rule_shape, which may not change, speak of it as one.
#[derive(Clone, Copy)]
pub struct When {
    pub kind: u32,
    pub field: usize,
    pub first: usize,
    pub second: usize,
}

// Whether field k of record r is value v of the enumeration values, A to Z counting as a to z.
pub fn is_value(table: &Table, r: usize, k: usize, places: &[u32], texts: &[u8], v: usize) -> bool
    ensures { result ≡ is_value (cells_seen table.now) r k places.now texts.now v }
{
    let from = value_start(places, v);
    let to = value_end(places, v);
    table.is_word(r, k, part(texts, from, to))
}

fn is_either(table: &Table, r: usize, w: When, places: &[u32], texts: &[u8]) -> bool
    ensures { result ≡ (is_value (cells_seen table.now) r w.field places.now texts.now w.first || is_value (cells_seen table.now) r w.field places.now texts.now w.second) }
{
    is_value(table, r, w.field, places, texts, w.first)
        || is_value(table, r, w.field, places, texts, w.second)
}

// Whether a record meets a condition.
pub fn holds_when(table: &Table, r: usize, w: When, places: &[u32], texts: &[u8]) -> bool
    ensures { result ≡ holds_when (cells_seen table.now) r w places.now texts.now }
{
    match w.kind {
        0 => true,
        1 => table.is_given(r, w.field),
        2 => table.is_true(r, w.field),
        _ => is_either(table, r, w, places, texts),
    }
}
