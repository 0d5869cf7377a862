// One character of a JSON string, decoded where it stands: escapes, surrogate pairs and UTF-8.
// The answer carries the place behind the character, so that a caller can walk a string, and point
// at a character, without a copy.
#![tactic(auto, unfolding(json_bytes::specs::Reads::within, crate::specs::Step::second, crate::specs::Step::is_two, crate::specs::Step::is_three, crate::specs::Step::is_four, crate::specs::Step::sequence_of, crate::specs::Step::sequence_at, crate::specs::Step::letter_escape, crate::specs::Step::hex_digit, crate::specs::Step::digit_at, crate::specs::Step::unit_at, crate::specs::Step::unit_of, crate::specs::Step::escaped_at, crate::specs::Step::is_pair, crate::specs::Step::surrogates_joined, crate::specs::Step::escape_at, crate::specs::Step::step_at))]

ghost use Rattle.std.specs.Prelude.{◌≡◌, cond, eqb, ◌+◌, ◌^◌, ◌<◌, ◌≤◌, length, Ok, MatchResult, MatchOption, IfSome};
ghost use Rattle.json_chars.specs.Step.{second, is_two, is_three, is_four, sequence_of, sequence_at, letter_escape, hex_digit, digit_at, unit_at, escaped_at, is_pair, surrogates_joined, escape_at, step_at};
ghost use Rattle.json_bytes.specs.Reads.{byte_at};

use json_bytes::{byte_at, is_within};

// What stands at a place inside a string.
#[derive(Clone, Copy)]
pub enum Step {
    // A character: its code (D800 to DFFF only for an unpaired surrogate escape) and the place behind it.
    Char { code: u32, next: usize },
    // The closing quote.
    Close,
    // No string can go on here: kind 10 or 11, as document 01's table of the file's marks numbers them, and its place.
    Bad { kind: u32, place: usize },
}

// The byte at a place as a number; 0 past the end.
fn number_at(s: &[u8], i: usize) -> u32
    ensures { (result ≡ byte_at s.now i) × (result < 256) }
{
    byte_at(s, i) as u32
}

// Whether b may be the second byte of a sequence whose first is a.
fn is_second(a: u32, b: u32) -> bool
    ensures { result ≡ second a b }
{
    match a {
        0xE0 => is_within(0xA0, 0xBF, b),
        0xF0 => is_within(0x90, 0xBF, b),
        0xED => is_within(0x80, 0x9F, b),
        0xF4 => is_within(0x80, 0x8F, b),
        _ => is_within(0x80, 0xBF, b),
    }
}

fn is_two(a: u32, b: u32) -> bool
    ensures { result ≡ is_two a b }
{
    is_within(0xC2, 0xDF, a) && is_second(a, b)
}

fn is_three(a: u32, b: u32, c: u32) -> bool
    ensures { result ≡ is_three a b c }
{
    is_within(0xE0, 0xEF, a) && is_second(a, b) && is_within(0x80, 0xBF, c)
}

fn is_four(a: u32, b: u32, c: u32, d: u32) -> bool
    ensures { result ≡ is_four a b c d }
{
    is_within(0xF0, 0xF4, a)
        && is_second(a, b)
        && is_within(0x80, 0xBF, c)
        && is_within(0x80, 0xBF, d)
}

// The character of the UTF-8 sequence a, b, c, d at i, which has as many of them as a says.
fn sequence_of(i: usize, a: u32, b: u32, c: u32, d: u32) -> Step
    requires { i < 2 ^ 63 }
    ensures { result ≡ sequence_of i a b c d }
{
    if is_two(a, b) {
        return Step::Char {
            code: a % 32 * 64 + b % 64,
            next: i + 2,
        };
    }
    if is_three(a, b, c) {
        return Step::Char {
            code: a % 16 * 4096 + b % 64 * 64 + c % 64,
            next: i + 3,
        };
    }
    if is_four(a, b, c, d) {
        let code = a % 8 * 262144 + b % 64 * 4096 + c % 64 * 64 + d % 64;
        return Step::Char { code, next: i + 4 };
    }
    Step::Bad { kind: 10, place: i }
}

fn sequence_at(s: &[u8], i: usize) -> Step
    requires { i < length s.now }
    ensures { result ≡ sequence_at s.now i }
{
    let a = number_at(s, i);
    let b = number_at(s, i + 1);
    let c = number_at(s, i + 2);
    let d = number_at(s, i + 3);
    sequence_of(i, a, b, c, d)
}

// The character that a letter behind the backslash stands for; none for a letter that may not stand there.
fn letter_escape(b: u32) -> Option<u32>
    ensures { MatchOption result (letter_escape b ≡ 0) (λ c. (c ≡ letter_escape b) × (0 < c)) }
{
    Some(match b {
        34 => 34,
        92 => 92,
        47 => 47,
        98 => 8,
        102 => 12,
        110 => 10,
        114 => 13,
        116 => 9,
        _ => return None,
    })
}

// A hexadecimal digit's value; none for any other byte.
fn hex_digit(b: u32) -> Option<u32>
    ensures { MatchOption result (hex_digit b ≡ 16) (λ d. (d ≡ hex_digit b) × (d < 16)) }
{
    match b {
        48..=57 => Some(b - 48),
        65..=70 => Some(b - 55),
        97..=102 => Some(b - 87),
        _ => None,
    }
}

// The value of the digit at a place, or the place where none stands there.
fn digit_at(s: &[u8], i: usize) -> Result<u32, usize>
    ensures { MatchResult result (λ d. (d ≡ digit_at s.now i) × (d < 16)) (λ p. (p ≡ i) × (16 ≤ digit_at s.now i)) }
{
    hex_digit(number_at(s, i)).ok_or(i)
}

// Four hexadecimal digits from a place on: their number, or the first place that holds none.
fn unit_at(s: &[u8], i: usize) -> Result<u32, usize>
    requires { i < 2 ^ 63 + 16 }
    ensures { result ≡ unit_at s.now i }
{
    let a = digit_at(s, i)?;
    let b = digit_at(s, i + 1)?;
    let c = digit_at(s, i + 2)?;
    let d = digit_at(s, i + 3)?;
    Ok(a * 4096 + b * 256 + c * 16 + d)
}

// The unit that an escape of four digits at a place stands for; 0 where none stands there whole.
fn escaped_at(s: &[u8], i: usize) -> u32
    requires { i < 2 ^ 63 + 8 }
    ensures { result ≡ escaped_at s.now i }
{
    if number_at(s, i) == 92 && number_at(s, i + 1) == 117 {
        unit_at(s, i + 2).unwrap_or(0)
    } else {
        0
    }
}

fn is_pair(high: u32, low: u32) -> bool
    ensures { result ≡ is_pair high low }
{
    is_within(0xD800, 0xDBFF, high) && is_within(0xDC00, 0xDFFF, low)
}

// The character of an escape of four digits whose backslash stands at i: with the low surrogate
// right behind it where it is a high one, else by itself.
fn joined_at(s: &[u8], i: usize, unit: u32) -> Step
    requires { i < length s.now }
    ensures { result ≡ surrogates_joined s.now i (Ok unit) }
{
    let low = escaped_at(s, i + 6);
    if is_pair(unit, low) {
        let code = 0x10000 + (unit - 0xD800) * 1024 + (low - 0xDC00);
        return Step::Char { code, next: i + 12 };
    }
    Step::Char {
        code: unit,
        next: i + 6,
    }
}

// The unit of an escape whose four digits begin with two zeros, its backslash at i; none for any other.
// Most escapes are such.
fn low_unit_at(s: &[u8], i: usize) -> Option<u32>
    requires { i < length s.now }
    ensures { IfSome result (λ u. (u < 256) × (unit_at s.now (i + 2) ≡ Ok u)) }
{
    if number_at(s, i + 2) != 48 || number_at(s, i + 3) != 48 {
        return None;
    }
    let a = hex_digit(number_at(s, i + 4))?;
    let b = hex_digit(number_at(s, i + 5))?;
    Some(a * 16 + b)
}

// An escape of four digits, its backslash at i.
fn unit_escape_at(s: &[u8], i: usize) -> Step
    requires { i < length s.now }
    ensures { result ≡ surrogates_joined s.now i (unit_at s.now (i + 2)) }
{
    if let Some(code) = low_unit_at(s, i) {
        return Step::Char { code, next: i + 6 };
    }
    match unit_at(s, i + 2) {
        Ok(unit) => joined_at(s, i, unit),
        Err(place) => Step::Bad { kind: 11, place },
    }
}

// An escape, its backslash at i.
fn escape_at(s: &[u8], i: usize) -> Step
    requires { i < length s.now }
    ensures { result ≡ escape_at s.now i }
{
    let letter = number_at(s, i + 1);
    if letter == 117 {
        return unit_escape_at(s, i);
    }
    match letter_escape(letter) {
        Some(code) => Step::Char { code, next: i + 2 },
        None => Step::Bad {
            kind: 11,
            place: i + 1,
        },
    }
}

// A character that is written in more than one byte: an escape or a sequence.
// It stands apart from `step_at`, and is called from two places there, so that what is nearly always met is
// a few instructions, which the compiler puts where they are needed.
fn rare_at(s: &[u8], i: usize, b: u32) -> Step
    requires { i < length s.now }
    ensures { result ≡ cond (eqb b 92) (escape_at s.now i) (sequence_at s.now i) }
{
    if b == 92 {
        return escape_at(s, i);
    }
    sequence_at(s, i)
}

// What stands at a place inside a string.
pub fn step_at(s: &[u8], i: usize) -> Step
    ensures { result ≡ step_at s.now i }
{
    let b = number_at(s, i);
    if b < 32 {
        return Step::Bad { kind: 11, place: i };
    }
    if b == 34 {
        return Step::Close;
    }
    if b == 92 {
        return rare_at(s, i, b);
    }
    if b < 128 {
        return Step::Char {
            code: b,
            next: i + 1,
        };
    }
    rare_at(s, i, b)
}
