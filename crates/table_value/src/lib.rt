// A value in a field of a type: where it ends and whether it is null, or the kind and place of its
// fault.
#![tactic(auto, unfolding(crate::specs::Value::text_type, crate::specs::Value::text_held, crate::specs::Value::date_held, crate::specs::Value::string_in, crate::specs::Value::string_value, crate::specs::Value::decimal_held, crate::specs::Value::integer_held, crate::specs::Value::number_in, crate::specs::Value::number_value, crate::specs::Value::literal_in, crate::specs::Value::literal_value, crate::specs::Value::starts_number, crate::specs::Value::opens, crate::specs::Value::value_at, crate::specs::Value::token_at, crate::specs::Value::not_object_of, crate::specs::Value::not_object_at, json_bytes::specs::Reads::within))]

ghost use Rattle.std.specs.Prelude.{◌≡◌, ◌&&◌, ◌≤◌, ◌<◌, ◌^◌, length, eqb};
ghost use Rattle.json_bytes.specs.Reads.{literal_at};
ghost use Rattle.json_text.specs.Run.{plain_end};
ghost use Rattle.json_text.specs.Text.{text_read};
ghost use Rattle.json_number.specs.Number.{number_at};
ghost use Rattle.json_date.specs.Plain.{is_plain_date};
ghost use Rattle.table_rows.specs.Types.{date};
ghost use Rattle.table_value.specs.Value.{text_type, text_held, date_held, string_in, string_value, decimal_held, integer_held, number_in, number_value, literal_in, literal_value, starts_number, opens, value_at, token_at, not_object_at};

use json_bytes::{Fault, Reading, byte_at, literal_at};
use json_date::{Day, date_at, is_plain_date};
use json_number::{Integer, Number, Value, integer_of, number_at, short_end};
use json_text::{TextRead, TextType, Wrong, plain_end, read_text};
use table_rows::{BOOLEAN, DATE, DECIMAL, INTEGER, STRING, STRING_ID, TEXT};

// A value read whole, the place behind it with it, or a fault. No Result, which is no plainer: a null is neither held nor
// at fault, so that three ways stay.
#[derive(Clone, Copy)]
pub enum ValueRead {
    Held { end: usize },
    Null { end: usize },
    Bad { kind: u32, place: usize },
}

fn text_type(ty: u32) -> TextType
    ensures { result ≡ text_type ty }
{
    match ty {
        STRING => TextType::String,
        STRING_ID => TextType::StringID,
        _ => TextType::Text,
    }
}

// A string in a field of text: the rules 1 to 4 of its first wrong character are the kinds 30 to 33.
fn text_held(at: usize, end: usize, wrong: Wrong) -> ValueRead
    requires { (at < 2 ^ 63) × (wrong.rule ≤ 4) }
    ensures { result ≡ text_held at end wrong }
{
    if 0 < wrong.rule {
        return ValueRead::Bad {
            kind: 29 + wrong.rule,
            place: wrong.place,
        };
    }
    if end == at + 2 {
        ValueRead::Null { end }
    } else {
        ValueRead::Held { end }
    }
}

fn date_held(at: usize, end: usize, date: Option<Day>) -> ValueRead
    ensures { result ≡ date_held at end date }
{
    match date {
        Some(_) => ValueRead::Held { end },
        None => ValueRead::Bad {
            kind: 17,
            place: at,
        },
    }
}

fn string_in(s: &[u8], at: usize, ty: u32, end: usize, wrong: Wrong) -> ValueRead
    requires { (at < length s.now) × (wrong.rule ≤ 4) }
    ensures { result ≡ string_in s.now at ty end wrong }
{
    match ty {
        STRING..=TEXT => text_held(at, end, wrong),
        DATE => date_held(at, end, date_at(s, at)),
        _ => ValueRead::Bad {
            kind: 15,
            place: at,
        },
    }
}

// Whether a field of type Date holds a date as it stands.
fn is_date_there(s: &[u8], at: usize, ty: u32) -> bool
    ensures { result ≡ (eqb ty date && is_plain_date s.now at) }
{
    ty == DATE && is_plain_date(s, at)
}

// The place of the closing quote of a string that holds only bytes which are characters by themselves and break
// no rule; 0 for any other, and for each in a field of type String: those are names and the like, most have a
// space, and looking for it first would go through the first word twice.
fn plain_close(s: &[u8], at: usize, ty: u32) -> usize
    ensures { 0 < result → result ≡ plain_end s.now at }
{
    if ty == STRING { 0 } else { plain_end(s, at) }
}

// Most dates are told by their twelve bytes, and most IDs hold only bytes that are characters by themselves and
// break no rule: neither needs its characters read one by one. Such an ID has a byte, so it is held.
#[tactic(auto, using(crate::proofs::Plain::strings), unfolding(crate::specs::Value::string_value))]
fn string_value(s: &[u8], at: usize, ty: u32) -> ValueRead
    requires { at < length s.now }
    ensures { result ≡ string_value s.now at ty (text_read (text_type ty) s.now at) }
{
    if is_date_there(s, at, ty) {
        return ValueRead::Held { end: at + 12 };
    }
    let close = plain_close(s, at, ty);
    if 0 < close {
        let end = close + 1;
        if (STRING..=TEXT).contains(&ty) {
            return ValueRead::Held { end };
        }
        return string_in(s, at, ty, end, Wrong { rule: 0, place: 0 });
    }
    let read = read_text(s, at, text_type(ty));
    match read.reading {
        Ok(end) => string_in(s, at, ty, end, read.wrong),
        Err(Fault { kind, place }) => ValueRead::Bad { kind, place },
    }
}

fn decimal_held(at: usize, end: usize, v: Value) -> ValueRead
    ensures { result ≡ decimal_held at end v }
{
    match v {
        Value::Fits {
            negative: _,
            c: _,
            p15: _,
        } => ValueRead::Held { end },
        Value::Beyond => ValueRead::Bad {
            kind: 18,
            place: at,
        },
    }
}

fn integer_held(at: usize, end: usize, n: Integer) -> ValueRead
    ensures { result ≡ integer_held at end n }
{
    match n {
        Integer::Is {
            negative: _,
            magnitude: _,
        } => ValueRead::Held { end },
        Integer::Fraction => ValueRead::Bad {
            kind: 34,
            place: at,
        },
        Integer::TooLarge => ValueRead::Bad {
            kind: 18,
            place: at,
        },
    }
}

fn number_in(at: usize, ty: u32, end: usize, v: Value) -> ValueRead
    ensures { result ≡ number_in at ty end v }
{
    match ty {
        DECIMAL => decimal_held(at, end, v),
        INTEGER => integer_held(at, end, integer_of(v)),
        _ => ValueRead::Bad {
            kind: 15,
            place: at,
        },
    }
}

fn number_value(at: usize, ty: u32, n: Number) -> ValueRead
    ensures { result ≡ number_value at ty n }
{
    match n.reading {
        Ok(end) => number_in(at, ty, end, n.value),
        Err(Fault { kind, place }) => ValueRead::Bad { kind, place },
    }
}

// The number at a place, in a field of type ty. Most in a field of type Decimal are short: they are within
// the limits, so that only their end is looked for and no value is worked out.
#[tactic(auto, using(crate::proofs::Plain::short_held))]
fn number_there(s: &[u8], at: usize, ty: u32) -> ValueRead
    ensures { result ≡ number_value at ty (number_at s.now at) }
{
    if ty == DECIMAL {
        let end = short_end(s, at);
        if 0 < end {
            return ValueRead::Held { end };
        }
    }
    number_value(at, ty, number_at(s, at))
}

fn literal_in(s: &[u8], at: usize, ty: u32, end: usize) -> ValueRead
    ensures { result ≡ literal_in s.now at ty end }
{
    if byte_at(s, at) == b'n' {
        ValueRead::Null { end }
    } else if ty == BOOLEAN {
        ValueRead::Held { end }
    } else {
        ValueRead::Bad {
            kind: 15,
            place: at,
        }
    }
}

fn literal_value(s: &[u8], at: usize, ty: u32) -> ValueRead
    ensures { result ≡ literal_value s.now at ty (literal_at s.now at) }
{
    match literal_at(s, at) {
        Ok(end) => literal_in(s, at, ty, end),
        Err(Fault { kind, place }) => ValueRead::Bad { kind, place },
    }
}

fn starts_number(b: u8) -> bool
    ensures { result ≡ starts_number b }
{
    matches!(b, b'-' | b'0'..=b'9')
}

fn is_opening(b: u8) -> bool
    ensures { result ≡ opens b }
{
    matches!(b, b'[' | b'{')
}

// The value at a place, in a field of type ty.
#[tactic(auto, using(crate::proofs::Plain::inside_byte), unfolding(crate::specs::Value::value_at))]
pub fn value_at(s: &[u8], at: usize, ty: u32) -> ValueRead
    ensures { result ≡ value_at s.now at ty }
{
    let b = byte_at(s, at);
    if b == b'"' {
        string_value(s, at, ty)
    } else if starts_number(b) {
        number_there(s, at, ty)
    } else if is_opening(b) {
        ValueRead::Bad {
            kind: 15,
            place: at,
        }
    } else {
        literal_value(s, at, ty)
    }
}

// Where a string, a number or a literal ends that begins at a place, or its fault.
#[tactic(auto, unfolding(crate::specs::Value::token_at, json_text::specs::Text::text_read))]
fn token_at(s: &[u8], at: usize) -> Reading
    ensures { result ≡ token_at s.now at }
{
    let b = byte_at(s, at);
    if b == b'"' {
        read_text(s, at, TextType::Text).reading
    } else if starts_number(b) {
        number_at(s, at).reading
    } else {
        literal_at(s, at)
    }
}

// What is wrong with a value where an object belongs and none stands: 12, or the fault inside it.
pub fn not_object_at(s: &[u8], at: usize) -> Reading
    ensures { result ≡ not_object_at s.now at }
{
    if !is_opening(byte_at(s, at)) {
        token_at(s, at)?;
    }
    Err(Fault {
        kind: 12,
        place: at,
    })
}
