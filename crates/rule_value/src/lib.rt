// Rules on one field of a record: an enumeration's value, null unless a condition holds, given if
// one does.
#![tactic(auto, using(crate::proofs::Laws::choosing, crate::proofs::Quoted::quoting, rule_cells::proofs::Laws::searching), unfolding(crate::specs::Value::agrees, crate::specs::Value::breaks_field, crate::specs::Value::field_rule, table_rows::specs::Rows::value_text_at, rule_cells::specs::Cells::first_that))]

ghost use Rattle.std.specs.Prelude.{◌≡◌, true, ◌+◌, ◌<◌, ltb};
ghost use Rattle.table_rows.specs.Rows.{value_text_at};
ghost use Rattle.table_name.specs.Guess.{quoted_end};
ghost use Rattle.rule_cells.specs.Seen.{seen, cells_seen};
ghost use Rattle.rule_value.specs.Plain.{PlainValues};
ghost use Rattle.rule_value.specs.Value.{is_one_of, breaks_field, field_rule};
ghost use Rattle.rule_value.specs.declared.FieldRule.TheVariants.{OneOf};

use parts::part;
use rule_cells::Table;
use rule_when::{When, holds_when, is_value};
use table_name::{is_graphic_word, quoted_end};
use table_rows::{value_end, value_start};

#[derive(Clone, Copy)]
pub enum FieldRule {
    // One of `count` enumeration values from number `first` on, or null.
    OneOf { first: u32, count: u32 },
    // Null unless the record meets the condition.
    NullUnless { when: When },
    // Given where the record meets the condition; where `wanted` is false, where it does not.
    GivenIf { when: When, wanted: bool },
}

// Which of the `count` values from number `first` on field k of record r is, counted from 0; `count` where it
// is none of them.
fn which_of(
    table: &Table,
    r: usize,
    k: usize,
    places: &[u32],
    texts: &[u8],
    first: u32,
    count: u32,
) -> usize
    ensures { ltb result count ≡ is_one_of (cells_seen table.now) r k places.now texts.now count first }
{
    let from = first as usize;
    let n = count as usize;
    for i in 0..n {
        if is_value(table, r, k, places, texts, from + i) {
            return i;
        }
    }
    n
}

// Whether each of the `count` values from number `first` on is a word that stands in a file by its bytes alone.
fn are_plain(places: &[u32], texts: &[u8], first: u32, count: u32) -> bool
    ensures { result ≡ true → PlainValues places.now texts.now first count }
{
    let from = first as usize;
    let n = count as usize;
    for i in 0..n {
        let start = value_start(places, from + i);
        let end = value_end(places, from + i);
        if !is_graphic_word(part(texts, start, end)) {
            return false;
        }
    }
    true
}

// Whether value v of the enumeration values stands at `at` between quotes, letter for letter.
fn is_quoted(s: &[u8], at: usize, places: &[u32], texts: &[u8], v: usize) -> bool
    ensures { result ≡ ltb 0 (quoted_end (value_text_at places.now texts.now v) s.now at) }
{
    let from = value_start(places, v);
    let to = value_end(places, v);
    0 < quoted_end(s, at, part(texts, from, to))
}

// Which of the `count` values from number `first` on stands at `at` between quotes; `count` where none does: of what
// stands there nothing is told then, for it may be one in other case. The value `guess` is tried first if it is one
// of them.
fn quoted_of(
    s: &[u8],
    at: usize,
    places: &[u32],
    texts: &[u8],
    first: u32,
    count: u32,
    guess: usize,
) -> usize
    ensures { result < count → 0 < quoted_end (value_text_at places.now texts.now (first + result)) s.now at }
{
    let from = first as usize;
    let n = count as usize;
    if guess < n && is_quoted(s, at, places, texts, from + guess) {
        return guess;
    }
    for i in 0..n {
        if is_quoted(s, at, places, texts, from + i) {
            return i;
        }
    }
    n
}

// As which_of, the value `last` tried first if it is one of them. Most values are written plainly and spelled as
// they are listed: where the listed ones are `plain`, those are told by their bytes, and texts are compared only
// where bytes tell nothing.
fn find_value(
    table: &Table,
    r: usize,
    k: usize,
    places: &[u32],
    texts: &[u8],
    first: u32,
    count: u32,
    last: usize,
    plain: bool,
) -> usize
    requires { plain ≡ true → PlainValues places.now texts.now first count }
    ensures { ltb result count ≡ is_one_of (cells_seen table.now) r k places.now texts.now count first }
{
    let from = first as usize;
    let n = count as usize;
    if plain {
        let at = table.start_of(r, k);
        let i = quoted_of(table.text, at, places, texts, first, count, last);
        if i < n {
            return i;
        }
    }
    if last < n && is_value(table, r, k, places, texts, from + last) {
        return last;
    }
    which_of(table, r, k, places, texts, first, count)
}

// Whether a record breaks the rule on field k.
fn breaks_field(
    table: &Table,
    r: usize,
    k: usize,
    rule: FieldRule,
    places: &[u32],
    texts: &[u8],
) -> bool
    ensures { result ≡ breaks_field (cells_seen table.now) k rule places.now texts.now r }
{
    let given = table.is_given(r, k);
    match rule {
        FieldRule::OneOf { first, count } => {
            given && count as usize <= which_of(table, r, k, places, texts, first, count)
        }
        FieldRule::NullUnless { when } => given && !holds_when(table, r, when, places, texts),
        FieldRule::GivenIf { when, wanted } => {
            !given && wanted == holds_when(table, r, when, places, texts)
        }
    }
}

// The first record whose field k is given and none of the values, counted from 1; 0 where there is none. Values
// mostly repeat, so the one found last is tried first.
fn one_of_rule(
    table: &Table,
    k: usize,
    first: u32,
    count: u32,
    places: &[u32],
    texts: &[u8],
) -> usize
    ensures { result ≡ field_rule (seen table.now) k (OneOf first count) places.now texts.now }
{
    let n = count as usize;
    let plain = are_plain(places, texts, first, count);
    let mut last = 0;
    for r in 0..table.records {
        if table.is_given(r, k) {
            last = find_value(table, r, k, places, texts, first, count, last, plain);
            if n <= last {
                return r + 1;
            }
        }
    }
    0
}

// The first record that breaks the rule on field k, counted from 1; 0 where none does.
pub fn field_rule(table: &Table, k: usize, rule: FieldRule, places: &[u32], texts: &[u8]) -> usize
    ensures { result ≡ field_rule (seen table.now) k rule places.now texts.now }
{
    if let FieldRule::OneOf { first, count } = rule {
        return one_of_rule(table, k, first, count, places, texts);
    }
    for r in 0..table.records {
        if breaks_field(table, r, k, rule, places, texts) {
            return r + 1;
        }
    }
    0
}
