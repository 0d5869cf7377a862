// A date from the decoded characters of a string where it stands. Ten characters are collected at
// most; then the form, and then the calendar, decide.
#![tactic(auto, unfolding(json_bytes::specs::Reads::within, crate::specs::Date::is_leap, crate::specs::Date::month_days, crate::specs::Date::is_day, crate::specs::Date::all_digits_at, crate::specs::Date::two_at, crate::specs::Date::has_form, crate::specs::Plain::is_two_of))]

ghost use Rattle.std.specs.Prelude.{◌≡◌, true, ◌⊎◌, ◌+◌, ◌≤◌, ◌<◌, None, length, take, drop};
ghost use Rattle.json_bytes.specs.Reads.{byte_at, within};
ghost use Rattle.json_chars.specs.Chars.{chars_at};
ghost use Rattle.json_date.specs.Date.{is_leap, month_days, is_day, all_digits_at, two_at, has_form, date_of};
ghost use Rattle.json_date.specs.Plain.{is_plain_date, is_two_of, is_early_day};

use json_bytes::byte_at;
use json_chars::{Step, step_at};

// A day of the calendar. Days are in order by the year, then by the month, then by the day.
#[derive(Clone, Copy, PartialEq, Eq, PartialOrd, Ord)]
pub struct Day {
    pub year: u32,
    pub month: u32,
    pub day: u32,
}

fn is_leap(year: u32) -> bool
    ensures { result ≡ is_leap year }
{
    year % 400 == 0 || (year % 4 == 0 && year % 100 != 0)
}

fn month_days(year: u32, month: u32) -> u32
    ensures { result ≡ month_days year month }
{
    match month {
        2 => if is_leap(year) { 29 } else { 28 },
        4 | 6 | 9 | 11 => 30,
        _ => 31,
    }
}

// Whether a month has this day. Every month has 28, and most dates need no more.
#[tactic(auto, using(crate::proofs::Laws::month_least, std::proofs::lemmas::Bool::Decides::nat_tests), unfolding(json_bytes::specs::Reads::within))]
fn is_in_month(year: u32, month: u32, day: u32) -> bool
    ensures { result ≡ within 1 (month_days year month) day }
{
    (1..=28).contains(&day) || (1..=month_days(year, month)).contains(&day)
}

#[tactic(auto, unfolding(json_bytes::specs::Reads::within, crate::specs::Date::is_day))]
fn is_day(year: u32, month: u32, day: u32) -> bool
    ensures { result ≡ is_day year month day }
{
    (1..=9999).contains(&year) && (1..=12).contains(&month) && is_in_month(year, month, day)
}

// Whether two digits stand at a place.
fn digits_at(c: &[u32], i: usize) -> bool
    requires { i + 1 < length c.now }
    ensures { result ≡ all_digits_at c.now i }
{
    (48..=57).contains(&c[i]) && (48..=57).contains(&c[i + 1])
}

// The number of the two digits at a place.
fn two_at(c: &[u32], i: usize) -> u32
    requires { (i + 1 < length c.now) × (all_digits_at c.now i ≡ true) }
    ensures { (result ≡ two_at c.now i) × (result < 100) }
{
    (c[i] - 48) * 10 + (c[i + 1] - 48)
}

// Whether characters have the form of a date.
fn has_form(c: &[u32]) -> bool
    ensures { result ≡ has_form c.now }
{
    c.len() == 10
        && c[4] == 45
        && c[7] == 45
        && digits_at(c, 0)
        && digits_at(c, 2)
        && digits_at(c, 5)
        && digits_at(c, 8)
}

// The date that characters are.
fn date_of(c: &[u32]) -> Option<Day>
    ensures { result ≡ date_of c.now }
{
    if has_form(c) {
        let year = two_at(c, 0) * 100 + two_at(c, 2);
        let month = two_at(c, 5);
        let day = two_at(c, 8);
        if is_day(year, month, day) {
            return Some(Day { year, month, day });
        }
    }
    None
}

// The ten bytes from a place on.
fn ten_at(s: &[u8], i: usize) -> [u32; 10]
    requires { i + 10 ≤ length s.now }
    ensures { result ≡ take 10 (drop i s.now) }
{
    [
        u32::from(s[i]),
        u32::from(s[i + 1]),
        u32::from(s[i + 2]),
        u32::from(s[i + 3]),
        u32::from(s[i + 4]),
        u32::from(s[i + 5]),
        u32::from(s[i + 6]),
        u32::from(s[i + 7]),
        u32::from(s[i + 8]),
        u32::from(s[i + 9]),
    ]
}

// The date of the string whose opening quote stands at a place, where its ten bytes are one as they stand:
// then they are its characters. `None` tells nothing.
fn plain_date(s: &[u8], at: usize) -> Option<Day>
    requires { byte_at s.now at ≡ 34 }
    ensures { (result ≡ None) ⊎ (result ≡ date_of (chars_at s.now at)) }
{
    if byte_at(s, at + 11) != 34 {
        return None;
    }
    date_of(&ten_at(s, at + 1))
}

fn is_digit(b: u8) -> bool
    ensures { result ≡ within 48 57 b }
{
    (48..=57).contains(&b)
}

// Whether two bytes are digits whose number is from 1 to `most`.
fn is_two_of(a: u8, b: u8, most: u32) -> bool
    ensures { result ≡ is_two_of a b most }
{
    is_digit(a) && is_digit(b) && (1..=most).contains(&(u32::from(a - 48) * 10 + u32::from(b - 48)))
}

// Whether the ten bytes from a place on are a date of a year from 1000 on, in any month up to its 28th:
// nearly every date is one, and is told without a list of ten numbers. `false` tells nothing.
#[tactic(auto, unfolding(json_bytes::specs::Reads::within, crate::specs::Plain::is_early_day))]
fn is_early_day(s: &[u8], i: usize) -> bool
    requires { i + 10 ≤ length s.now }
    ensures { result ≡ is_early_day s.now i }
{
    s[i + 4] == 45
        && s[i + 7] == 45
        && (49..=57).contains(&s[i])
        && is_digit(s[i + 1])
        && is_digit(s[i + 2])
        && is_digit(s[i + 3])
        && is_two_of(s[i + 5], s[i + 6], 12)
        && is_two_of(s[i + 8], s[i + 9], 28)
}

// Whether a quote, ten bytes that are a date as they stand, and a quote begin at a place: then they are a
// whole string, and its date is told without reading it. The length is compared first, so that no byte
// asks again whether it stands in the file.
#[tactic(auto, using(crate::proofs::Plain::past_end), unfolding(crate::specs::Plain::is_plain_date))]
pub fn is_plain_date(s: &[u8], at: usize) -> bool
    ensures { result ≡ is_plain_date s.now at }
{
    12 <= s.len()
        && at <= s.len() - 12
        && s[at] == 34
        && s[at + 11] == 34
        && (is_early_day(s, at + 1) || date_of(&ten_at(s, at + 1)).is_some())
}

// The date of a string, character by character: they go into a list of ten with a count, since nothing here is on the heap.
fn decoded_date(s: &[u8], at: usize) -> Option<Day>
    ensures { result ≡ date_of (chars_at s.now at) }
{
    if byte_at(s, at) != 34 {
        return None;
    }
    let mut c = [0u32; 10];
    let mut n = 0;
    let mut i = at + 1;
    loop {
        match step_at(s, i) {
            Step::Char { code, next } => {
                if 10 <= n {
                    return None;
                }
                c[n] = code;
                n += 1;
                i = next;
            }
            Step::Close | Step::Bad { .. } => return date_of(&c[..n]),
        }
    }
}

// The date of the string whose opening quote stands at a place. Most are written as they are read.
pub fn date_at(s: &[u8], at: usize) -> Option<Day>
    ensures { result ≡ date_of (chars_at s.now at) }
{
    if byte_at(s, at) != 34 {
        return None;
    }
    plain_date(s, at).or_else(|| decoded_date(s, at))
}
