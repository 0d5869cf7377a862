// What stands around the values of a table: the name of a field, the colon behind it, and what
// follows in an object or an array.
#![tactic(auto, unfolding(crate::specs::Name::colon_at, crate::specs::Name::first_in, crate::specs::Name::next_after, crate::specs::Guess::graphic_word, crate::specs::Guess::own_name, crate::specs::Hints::hint_of, crate::specs::Hints::hint_at, json_text::specs::Run::run_end))]

ghost use Rattle.std.specs.Prelude.{◌≡◌, ◌≤◌, ◌<◌, length, cond, ltb};
ghost use Rattle.json_chars.specs.Chars.{chars_at};
ghost use Rattle.json_same.specs.Same.{same_as, same_list};
ghost use Rattle.table_rows.specs.Rows.{field_name_at, fields_from};
ghost use Rattle.table_name.specs.Guess.{graphic_word, own_name, names_apart, quoted_end, guess_end};
ghost use Rattle.table_name.specs.Hints.{hint_of, hint_at, with_hint, hints_of};
ghost use Rattle.table_name.specs.Name.{index_of, named, unnamed, name_at, colon_at, first_in, next_after};

use json_bytes::{Fault, Reading, byte_at, eight_at, skip_spaces};
use json_chars::{Step, step_at};
use json_same::{Case, text_is};
use json_text::{TextType, plain_end, read_text, run_end};
use parts::part;
use table_rows::{name_end, name_start};

// A field that a name names: its place among those of its table, and the place behind the name.
#[derive(Clone, Copy)]
pub struct Named {
    pub index: usize,
    pub end: usize,
}

// What reading a field's name gives: the field, or the name's fault.
pub type NameRead = Result<Named, Fault>;

// What follows in an object or an array: another member at a place, the closing brace or bracket at
// a place, or neither.
#[derive(Clone, Copy)]
pub enum Next {
    More { at: usize },
    Ends { at: usize },
    Neither { at: usize },
}

// The place among the table's `count` fields of the one that the string at `at` names; `count` for
// none. A comparison stops at the first character that differs.
#[tactic(auto, using(crate::proofs::Laws::searching))]
fn index_of(s: &[u8], at: usize, rows: &[u32], names: &[u8], count: usize) -> usize
    ensures { result ≡ index_of (chars_at s.now at) (fields_from rows.now names.now count 0) }
{
    for k in 0..count {
        let name = part(names, name_start(rows, k), name_end(rows, k));
        if text_is(s, at, name, Case::Kept) {
            return k;
        }
    }
    count
}

// ---- Two lists of bytes

// Whether they are the same, byte by byte.
#[tactic(auto, using(crate::proofs::Words::comparing))]
fn same_each(a: &[u8], b: &[u8]) -> bool
    ensures { result ≡ same_list a.now b.now }
{
    if a.len() != b.len() {
        return false;
    }
    for i in 0..a.len() {
        if a[i] != b[i] {
            return false;
        }
    }
    true
}

// Whether two lists of one length, eight bytes or more, are the same, eight at a time. The last eight are compared
// wherever the eights before them end, so that none is left over.
fn same_eights(a: &[u8], b: &[u8]) -> bool
    requires { (8 ≤ length a.now) × (length a.now ≡ length b.now) }
    ensures { result ≡ same_list a.now b.now }
{
    let last = a.len() - 8;
    let mut i = 0;
    // A while, since a for over the count of eights is no plainer: each turn would multiply its place out again.
    while i < last {
        if eight_at(a, i) != eight_at(b, i) {
            return false;
        }
        i += 8;
    }
    eight_at(a, last) == eight_at(b, last)
}

// Whether two lists of bytes are the same.
#[tactic(auto, using(crate::proofs::Words::comparing))]
pub fn same_bytes(a: &[u8], b: &[u8]) -> bool
    ensures { result ≡ same_list a.now b.now }
{
    if a.len() < 8 {
        return same_each(a, b);
    }
    a.len() == b.len() && same_eights(a, b)
}

// ---- A word among the names

// Whether a word is the name of field k. Most are told apart by their lengths.
#[tactic(auto, using(crate::proofs::Words::row_named))]
fn is_field(word: &[u8], rows: &[u32], names: &[u8], k: usize) -> bool
    requires { 0 < length word.now }
    ensures { result ≡ same_as Case.Kept word.now (field_name_at rows.now names.now k) }
{
    if rows.len() / 5 <= k {
        return false;
    }
    let from = rows[k * 5 + 3] as usize;
    let to = rows[k * 5 + 4] as usize;
    to == from + word.len() && same_bytes(word, part(names, from, to))
}

// The place among the table's `count` fields of the one whose name is this word; `count` for none.
#[tactic(auto, using(crate::proofs::Laws::searching))]
fn word_index(word: &[u8], rows: &[u32], names: &[u8], count: usize) -> usize
    requires { 0 < length word.now }
    ensures { result ≡ index_of word.now (fields_from rows.now names.now count 0) }
{
    for k in 0..count {
        if is_field(word, rows, names, k) {
            return k;
        }
    }
    count
}

// The field of the name at `at`, which ends at `end`: the one of an index, or 13 where that is no
// field's.
fn known(index: usize, count: usize, at: usize, end: usize) -> NameRead
    ensures { result ≡ cond (ltb index count) (named index end) (unnamed 13 at) }
{
    if index < count {
        Ok(Named { index, end })
    } else {
        Err(Fault {
            kind: 13,
            place: at,
        })
    }
}

// The name whose opening quote stands at `at`, read whole and then looked for.
#[tactic(auto, using(crate::proofs::Laws::name_bad, crate::proofs::Words::name_read))]
fn read_name(s: &[u8], at: usize, rows: &[u32], names: &[u8], count: usize) -> NameRead
    ensures { result ≡ name_at (fields_from rows.now names.now count 0) s.now at }
{
    let end = read_text(s, at, TextType::Text).reading?;
    known(index_of(s, at, rows, names, count), count, at, end)
}

// The same, its characters put down one behind the other and looked for as a word. One that has none, or more
// than any field's name has, or a letter beyond ASCII, or a fault, is read as it stands.
fn decoded_name(s: &[u8], at: usize, rows: &[u32], names: &[u8], count: usize) -> NameRead
    ensures { result ≡ name_at (fields_from rows.now names.now count 0) s.now at }
{
    if byte_at(s, at) != b'"' {
        return read_name(s, at, rows, names, count);
    }
    let mut word = [0u8; 32];
    let mut n = 0;
    let mut i = at + 1;
    loop {
        match step_at(s, i) {
            Step::Char { code, next } => {
                if 32 <= n || 128 <= code {
                    return read_name(s, at, rows, names, count);
                }
                word[n] = code as u8;
                n += 1;
                i = next;
            }
            Step::Close => {
                if n == 0 {
                    return read_name(s, at, rows, names, count);
                }
                let index = word_index(&word[..n], rows, names, count);
                return known(index, count, at, i + 1);
            }
            Step::Bad { kind: _, place: _ } => {
                return read_name(s, at, rows, names, count);
            }
        }
    }
}

// The name whose opening quote stands at `at`: which field it is, or its fault. Most have no escape, and are
// looked for by their bytes as they stand.
pub fn name_at(s: &[u8], at: usize, rows: &[u32], names: &[u8], count: usize) -> NameRead
    ensures { result ≡ name_at (fields_from rows.now names.now count 0) s.now at }
{
    let close = plain_end(s, at);
    if 0 < close {
        let index = word_index(part(s, at + 1, close), rows, names, count);
        return known(index, count, at, close + 1);
    }
    decoded_name(s, at, rows, names, count)
}

// ---- A name that is guessed before it is read

// Whether a word is one that stands in a file by its bytes alone: not empty, and no byte of it is an escape's, a
// quote or part of a longer character.
pub fn is_graphic_word(word: &[u8]) -> bool
    ensures { result ≡ graphic_word word.now }
{
    0 < word.len() && run_end(word, 0) == word.len()
}

// Whether field k's name is such a word and no field before it has the same.
#[tactic(auto, using(crate::proofs::Laws::name_there), unfolding(crate::specs::Guess::graphic_word, crate::specs::Guess::own_name))]
fn own_name(rows: &[u32], names: &[u8], count: usize, k: usize) -> bool
    ensures { result ≡ own_name rows.now names.now count k }
{
    let word = part(names, name_start(rows, k), name_end(rows, k));
    is_graphic_word(word) && word_index(word, rows, names, count) == k
}

// Whether that holds of each of the table's `count` fields: then a guess that fits names the field guessed.
#[tactic(auto, using(crate::proofs::Guess::apart), unfolding(crate::specs::Guess::names_apart))]
pub fn names_apart(rows: &[u32], names: &[u8], count: usize) -> bool
    ensures { result ≡ names_apart rows.now names.now count }
{
    for k in 0..count {
        if !own_name(rows, names, count, k) {
            return false;
        }
    }
    true
}

// 0 and 255 in the next functions are no Options (what may not change): their clauses name these numbers.
// The place behind a word that stands between two quotes, the first of them at `at`; 0 where it does not stand
// there. The quotes are cheaper than the bytes and are tested first.
#[tactic(auto, using(crate::proofs::Guess::quoting))]
pub fn quoted_end(s: &[u8], at: usize, word: &[u8]) -> usize
    ensures { result ≡ quoted_end word.now s.now at }
{
    if s.len() <= at || s.len() - at - 1 <= word.len() || s[at] != b'"' {
        return 0;
    }
    let from = at + 1;
    let close = from + word.len();
    if s[close] == b'"' && same_bytes(&s[from..close], word) {
        close + 1
    } else {
        0
    }
}

// The place behind field k's name, where that stands at `at` between quotes; 0 where it does not. A field that has a
// name has a whole row, and its name stands among the names, so nothing of that is tested here.
pub fn guess_end(s: &[u8], at: usize, rows: &[u32], names: &[u8], k: usize) -> usize
    requires { 0 < length (field_name_at rows.now names.now k) }
    ensures { result ≡ guess_end rows.now names.now s.now at k }
{
    let from = rows[k * 5 + 3] as usize;
    let to = rows[k * 5 + 4] as usize;
    quoted_end(s, at, &names[from..to])
}

// ---- A field that a name's bytes hint at

// The place among the hints of a name with these first, fifth and ninth bytes. Two names of one of document 002's
// tables that differ in these bytes have two places.
fn hint_of(a: u8, b: u8, c: u8) -> usize
    ensures { result ≡ hint_of a b c }
{
    (a as usize * 2 + b as usize * 3 + c as usize) % 256
}

// The field that the name whose opening quote stands at `at` is likely to be; 255, which is no field's number,
// where the file ends before a ninth byte. A hint may be wrong, so the field is tried by its bytes.
pub fn hint_at(s: &[u8], at: usize, hints: &[u8]) -> usize
    ensures { result ≡ hint_at s.now at hints.now }
{
    if s.len() < 10 || s.len() - 10 < at {
        return 255;
    }
    let place = hint_of(s[at + 1], s[at + 5], s[at + 9]);
    if place < hints.len() {
        hints[place] as usize
    } else {
        255
    }
}

// Field k's number at the place of its name. A name of fewer than nine bytes has none.
#[tactic(auto, unfolding(crate::specs::Hints::hint_of, crate::specs::Hints::hinted, crate::specs::Hints::with_hint, table_rows::specs::Rows::field_name_at, table_rows::specs::Rows::cell_at))]
fn put_hint(rows: &[u32], names: &[u8], k: usize, hints: &mut [u8])
    ensures { hints.new ≡ with_hint rows.now names.now k hints.old }
{
    let word = part(names, name_start(rows, k), name_end(rows, k));
    if word.len() < 9 {
        return;
    }
    let place = hint_of(word[0], word[4], word[8]);
    if place < hints.len() {
        hints[place] = (k % 256) as u8;
    }
}

// The hints of a table's `count` fields. Of two names with one place the later has it; the other is found by
// its whole name.
#[tactic(auto, using(crate::proofs::Hints::filling))]
pub fn fill_hints(rows: &[u32], names: &[u8], count: usize, hints: &mut [u8])
    ensures { hints.new ≡ hints_of rows.now names.now count hints.old }
{
    for k in 0..count {
        put_hint(rows, names, k, hints);
    }
}

// ---- What stands around the values

// The place of the value behind a name that ends at `end`.
#[tactic(auto, using(crate::proofs::Laws::colon_here), unfolding(crate::specs::Name::colon_at))]
pub fn colon_at(s: &[u8], end: usize) -> Reading
    ensures { result ≡ colon_at s.now end }
{
    if byte_at(s, end) == b':' {
        return Ok(skip_spaces(s, end + 1));
    }
    let colon = skip_spaces(s, end);
    if byte_at(s, colon) == b':' {
        Ok(skip_spaces(s, colon + 1))
    } else {
        Err(Fault {
            kind: 11,
            place: colon,
        })
    }
}

// What stands behind an opening brace or bracket at `at`.
pub fn first_in(s: &[u8], at: usize, closing: u8) -> Next
    ensures { result ≡ first_in s.now at closing }
{
    if s.len() <= at {
        return Next::Neither { at };
    }
    let first = skip_spaces(s, at + 1);
    if byte_at(s, first) == closing {
        Next::Ends { at: first }
    } else {
        Next::More { at: first }
    }
}

// What stands behind a member that ends at `end`.
#[tactic(auto, using(crate::proofs::Laws::comma_here), unfolding(crate::specs::Name::next_after))]
pub fn next_after(s: &[u8], end: usize, closing: u8) -> Next
    ensures { result ≡ next_after s.now end closing }
{
    if byte_at(s, end) == b',' {
        return Next::More {
            at: skip_spaces(s, end + 1),
        };
    }
    let at = skip_spaces(s, end);
    let b = byte_at(s, at);
    if b == b',' {
        Next::More {
            at: skip_spaces(s, at + 1),
        }
    } else if b == closing {
        Next::Ends { at }
    } else {
        Next::Neither { at }
    }
}
