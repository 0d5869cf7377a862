// Numbers: where one ends, its value in one form, and what the rules ask of a value.
// No run of digits, however long, wraps or is read twice: a number that digits form is kept up to
// ten to the nineteenth, which is beyond every limit.
#![tactic(auto, unfolding(json_bytes::specs::Reads::within, crate::specs::Number::is_digit, crate::specs::Number::within_limits, crate::specs::Alone::goes_on, crate::specs::Short::behind_sign, crate::specs::Short::is_short, crate::specs::Short::unless_raised))]

ghost use Rattle.std.specs.Prelude.{◌≡◌, cond, ℕ, ◌+◌, ◌*◌, ◌-◌, ◌^◌, ◌≤◌, ◌<◌, min, length, drop, eqb};
ghost use Rattle.json_number.specs.Number.{is_digit, digits_at, formed, fraction_at, coefficient_at, power_digits_at, signed_at, exponent_at, value_of, stopped_at, with_exponent, with_coefficient, number_at, largest, within_limits, whole_of, integer_of, sign_of, magnitude, same_parts, same_value};
ghost use Rattle.json_number.specs.Alone.{goes_on, one_digit};
ghost use Rattle.json_number.specs.Short.{behind_sign, is_short, unless_raised, short_behind, short_end};
ghost use Rattle.json_number.specs.Capped.{cap, capped_coefficient, capped_exponent, Carried};

use json_bytes::{Fault, Reading, byte_at};

// The largest c within the limits, and the largest magnitude of an Integer.
const LARGEST: u64 = 999_999_999_999_999;

// Zero is read without a sign, and so is a digit with none before it.
const NO_SIGN: bool = false;

// A number's value, ±c times 10 to the p, with p kept as p + 15; or that c or p is outside the
// limits. A number that is read has one form: c ends in no zero, and zero is c 0, p 0, not negative.
#[derive(Clone, Copy)]
pub enum Value {
    Fits { negative: bool, c: u64, p15: u32 },
    Beyond,
}

// A number read whole, or its fault, which leaves it no value: `Beyond`.
#[derive(Clone, Copy)]
pub struct Number {
    pub reading: Reading,
    pub value: Value,
}

// A value as an Integer. `Is` is negative only where the magnitude is not 0.
#[derive(Clone, Copy)]
pub enum Integer {
    Is { negative: bool, magnitude: u64 },
    // Not whole: kind 34.
    Fraction,
    // Beyond ±999,999,999,999,999: kind 18.
    TooLarge,
}

// A value beside zero.
#[derive(Clone, Copy)]
pub enum Sign {
    Zero,
    Above,
    Below,
}

// The digits before any exponent: the place behind them, the number that they form without the
// zeros at its end, how many those are, and how many are fraction digits; or the place where a digit
// is missing.
#[derive(Clone, Copy)]
enum Coefficient {
    Digits {
        end: usize,
        c: u64,
        zeros: usize,
        fraction: usize,
    },
    NoDigit {
        place: usize,
    },
}

// The exponent: the place behind it, whether it is below zero, and its size; or the place where a
// digit is missing.
#[derive(Clone, Copy)]
enum Exponent {
    Power { end: usize, below: bool, size: u64 },
    NoPower { place: usize },
}

// The place behind a run of digits, the number that they form behind those before it, that number
// without the zeros at its end, and how many those are.
#[derive(Clone, Copy)]
struct Run {
    end: usize,
    value: u64,
    kept: u64,
    zeros: usize,
}

fn wide(b: u8) -> u64
    ensures { result ≡ b }
{
    b as u64
}

fn is_digit(b: u8) -> bool
    ensures { result ≡ is_digit b }
{
    (b'0'..=b'9').contains(&b)
}

// One digit more behind those that form `value`.
fn joined(value: u64, b: u8) -> u64
    requires { (48 ≤ b) × (b ≤ 57) }
    ensures { result ≡ min (value * 10 + (b - 48)) cap }
{
    if value < 1_000_000_000_000_000_000 {
        return value * 10 + (wide(b) - 48);
    }
    10_000_000_000_000_000_000
}

// What is kept of a number once the digit b stands behind it: all of it, unless the digit is 0.
fn kept_behind(kept: u64, value: u64, b: u8) -> u64
    ensures { result ≡ cond (eqb b 48) kept value }
{
    if b == b'0' { kept } else { value }
}

// How many zeros end a number once the digit b stands behind it. Zero has none.
fn zeros_behind(kept: u64, zeros: usize, b: u8) -> usize
    requires { zeros < 2 ^ 63 }
    ensures { result ≡ cond (eqb b 48) (cond (eqb kept 0) 0 (zeros + 1)) 0 }
{
    if b != b'0' || kept == 0 { 0 } else { zeros + 1 }
}

// The digits from `at` on, behind those of a number x: what is carried of x goes on to what is
// carried of the number that x and they form.
fn run_from(s: &[u8], at: usize, before: u64, nonzero: u64, ending: usize) -> Run
    requires { ending ≤ at }
    ensures { (result.end ≡ at + digits_at s.now at) × (result.zeros ≤ result.end) × ((x : ℕ) → Carried x before nonzero ending → Carried (formed x (drop at s.now)) result.value result.kept result.zeros) }
{
    let mut i = at;
    let mut value = before;
    let mut kept = nonzero;
    let mut zeros = ending;
    while i < s.len() {
        let b = s[i];
        if is_digit(b) {
            value = joined(value, b);
            zeros = zeros_behind(kept, zeros, b);
            kept = kept_behind(kept, value, b);
            i += 1;
        } else {
            return Run {
                end: i,
                value,
                kept,
                zeros,
            };
        }
    }
    Run {
        end: i,
        value,
        kept,
        zeros,
    }
}

// Behind an integer whose digits form a number x: a point and digits, or neither.
fn fraction_at(s: &[u8], at: usize, value: u64, kept: u64, zeros: usize) -> Coefficient
    requires { zeros ≤ at }
    ensures { (x : ℕ) → Carried x value kept zeros → result ≡ capped_coefficient (fraction_at s.now at x) }
{
    if byte_at(s, at) != b'.' {
        return Coefficient::Digits {
            end: at,
            c: kept,
            zeros,
            fraction: 0,
        };
    }
    let from = at + 1;
    let digits = run_from(s, from, value, kept, zeros);
    let end = digits.end;
    if end == from {
        return Coefficient::NoDigit { place: from };
    }
    Coefficient::Digits {
        end,
        c: digits.kept,
        zeros: digits.zeros,
        fraction: end - from,
    }
}

// The integer and the fraction. A zero stands alone; any other digit begins a run.
fn coefficient_at(s: &[u8], at: usize) -> Coefficient
    ensures { result ≡ capped_coefficient (coefficient_at s.now at) }
{
    if byte_at(s, at) == b'0' {
        return fraction_at(s, at + 1, 0, 0, 0);
    }
    let digits = run_from(s, at, 0, 0, 0);
    let end = digits.end;
    if end == at {
        return Coefficient::NoDigit { place: at };
    }
    let value = digits.value;
    let kept = digits.kept;
    let zeros = digits.zeros;
    fraction_at(s, end, value, kept, zeros)
}

// The exponent's digits, behind its sign.
fn power_at(s: &[u8], at: usize, below: bool) -> Exponent
    ensures { result ≡ capped_exponent (power_digits_at s.now at below) }
{
    let digits = run_from(s, at, 0, 0, 0);
    let end = digits.end;
    if end == at {
        return Exponent::NoPower { place: at };
    }
    Exponent::Power {
        end,
        below,
        size: digits.value,
    }
}

// What stands behind the exponent's letter: a sign or none, and digits.
fn signed_at(s: &[u8], at: usize) -> Exponent
    ensures { result ≡ capped_exponent (signed_at s.now at) }
{
    let sign = byte_at(s, at);
    if sign == b'-' {
        return power_at(s, at + 1, true);
    }
    if sign == b'+' {
        return power_at(s, at + 1, false);
    }
    power_at(s, at, false)
}

// The exponent, which is 0 and takes no room where its letter does not stand.
fn exponent_at(s: &[u8], at: usize) -> Exponent
    ensures { result ≡ capped_exponent (exponent_at s.now at) }
{
    let letter = byte_at(s, at);
    if letter == b'e' {
        return signed_at(s, at + 1);
    }
    if letter == b'E' {
        return signed_at(s, at + 1);
    }
    Exponent::Power {
        end: at,
        below: false,
        size: 0,
    }
}

// The value of c, which ends in no zero, with `zeros` behind it, a count of fraction digits and an
// exponent; or that it is outside the limits. `room` is what is left of the limit on p.
fn value_of(negative: bool, c: u64, zeros: u64, fraction: u64, below: bool, size: u64) -> Value
    requires { (zeros < 2 ^ 63) × (fraction < 2 ^ 63) × (size ≤ cap) }
    ensures { result ≡ value_of negative c zeros fraction below size }
{
    if c == 0 {
        return Value::Fits {
            negative: NO_SIGN,
            c: 0,
            p15: 15,
        };
    }
    if LARGEST < c {
        return Value::Beyond;
    }
    if below {
        if zeros + 15 < fraction {
            return Value::Beyond;
        }
        let room = zeros + 15 - fraction;
        if room < size {
            return Value::Beyond;
        }
        if 30 < room - size {
            return Value::Beyond;
        }
        return Value::Fits {
            negative,
            c,
            p15: (room - size) as u32,
        };
    }
    if fraction + 15 < size {
        return Value::Beyond;
    }
    let room = fraction + 15 - size;
    if room < zeros {
        return Value::Beyond;
    }
    if 30 < room - zeros {
        return Value::Beyond;
    }
    Value::Fits {
        negative,
        c,
        p15: (30 - (room - zeros)) as u32,
    }
}

// No number can go on at a place, which leaves no value.
fn stopped(place: usize) -> Number
    ensures { result ≡ stopped_at place }
{
    Number {
        reading: Err(Fault { kind: 11, place }),
        value: Value::Beyond,
    }
}

// The number whose digits before any exponent end at `at`.
fn powered_at(s: &[u8], at: usize, negative: bool, c: u64, zeros: usize, fraction: usize) -> Number
    requires { (zeros ≤ length s.now) × (fraction ≤ length s.now) }
    ensures { result ≡ with_exponent negative c zeros fraction (exponent_at s.now at) }
{
    let exponent = exponent_at(s, at);
    match exponent {
        Exponent::Power { end, below, size } => {
            let value = value_of(negative, c, zeros as u64, fraction as u64, below, size);
            Number {
                reading: Ok(end),
                value,
            }
        }
        Exponent::NoPower { place } => stopped(place),
    }
}

// A number without its sign, of however many digits.
fn several_at(s: &[u8], at: usize, negative: bool) -> Number
    ensures { result ≡ with_coefficient s.now negative (coefficient_at s.now at) }
{
    let digits = coefficient_at(s, at);
    match digits {
        Coefficient::Digits {
            end,
            c,
            zeros,
            fraction,
        } => powered_at(s, end, negative, c, zeros, fraction),
        Coefficient::NoDigit { place } => stopped(place),
    }
}

// Whether a number that a digit begins goes on with the byte behind that digit.
fn goes_on(b: u8) -> bool
    ensures { result ≡ goes_on b }
{
    is_digit(b) || b == b'.' || b == b'e' || b == b'E'
}

// A number without its sign. Most are one digit, which is then read without a loop.
fn unsigned_at(s: &[u8], at: usize, negative: bool) -> Number
    ensures { result ≡ with_coefficient s.now negative (coefficient_at s.now at) }
{
    let b = byte_at(s, at);
    if !is_digit(b) {
        return several_at(s, at, negative);
    }
    let end = at + 1;
    if goes_on(byte_at(s, end)) {
        return several_at(s, at, negative);
    }
    let value = value_of(negative, wide(b) - 48, 0, 0, false, 0);
    Number {
        reading: Ok(end),
        value,
    }
}

// The number at a place, as far as the grammar goes: the byte behind it is not looked at. A fault
// is 11 at the first byte that cannot go on.
pub fn number_at(s: &[u8], at: usize) -> Number
    ensures { result ≡ number_at s.now at }
{
    if byte_at(s, at) == b'-' {
        return unsigned_at(s, at + 1, true);
    }
    unsigned_at(s, at, false)
}

// The first place from i on that no digit holds.
fn digits_end(s: &[u8], i: usize) -> usize
    ensures { result ≡ i + digits_at s.now i }
{
    let mut j = i;
    while j < s.len() {
        if is_digit(s[j]) {
            j += 1;
        } else {
            return j;
        }
    }
    j
}

// Where the digits of a number begin, behind its sign.
fn behind_sign(s: &[u8], at: usize) -> usize
    ensures { result ≡ behind_sign s.now at }
{
    if byte_at(s, at) == b'-' {
        return at + 1;
    }
    at
}

// Whether the n digits at a place can stand before the point of a short number. A zero stands alone.
fn is_short(s: &[u8], from: usize, n: usize) -> bool
    ensures { result ≡ is_short s.now from n }
{
    n == 1 || (1 < n && n <= 15 && byte_at(s, from) != b'0')
}

// The end of a number, unless an exponent's letter stands there: then 0.
fn unless_raised(s: &[u8], end: usize) -> usize
    ensures { result ≡ unless_raised s.now end }
{
    match byte_at(s, end) {
        b'e' | b'E' => 0,
        _ => end,
    }
}

// The end of a short number whose digits before the point go from `from` up to `whole`. With a point its
// fifteen digits are sixteen bytes.
fn short_behind(s: &[u8], from: usize, whole: usize) -> usize
    requires { from ≤ whole }
    ensures { result ≡ short_behind s.now from whole }
{
    if byte_at(s, whole) != b'.' {
        return unless_raised(s, whole);
    }
    let first = whole + 1;
    let end = digits_end(s, first);
    if end == first {
        return 0;
    }
    if 16 < end - from {
        return 0;
    }
    unless_raised(s, end)
}

// The place behind the number at `at`, where it has at most fifteen digits and no exponent: it is then
// within the limits, and this is known without its value. 0 for any other.
pub fn short_end(s: &[u8], at: usize) -> usize
    ensures { result ≡ short_end s.now at }
{
    let from = behind_sign(s, at);
    let whole = digits_end(s, from);
    if is_short(s, from, whole - from) {
        return short_behind(s, from, whole);
    }
    0
}

// Ten to the n.
fn ten_to(n: u32) -> u64
    requires { n ≤ 15 }
    ensures { result ≡ 10 ^ n }
{
    10u64.pow(n)
}

// Whether c and p, kept as p + 15, are within the limits.
fn within_limits(c: u64, p15: u32) -> bool
    ensures { result ≡ within_limits c p15 }
{
    c <= LARGEST && p15 <= 30
}

// The value of c and p, kept as p + 15, as an Integer: below 15 digits of c stand behind the point,
// from 15 on zeros stand behind c.
fn whole_of(negative: bool, c: u64, p15: u32) -> Integer
    ensures { result ≡ whole_of negative c p15 }
{
    if !within_limits(c, p15) {
        return Integer::TooLarge;
    }
    if c == 0 {
        return Integer::Is {
            negative: false,
            magnitude: 0,
        };
    }
    if p15 < 15 {
        let ten = ten_to(15 - p15);
        if c % ten != 0 {
            return Integer::Fraction;
        }
        return Integer::Is {
            negative,
            magnitude: c / ten,
        };
    }
    let ten = ten_to(p15 - 15);
    if LARGEST / ten < c {
        return Integer::TooLarge;
    }
    Integer::Is {
        negative,
        magnitude: c * ten,
    }
}

// A value as an Integer.
pub fn integer_of(v: Value) -> Integer
    ensures { result ≡ integer_of v }
{
    match v {
        Value::Fits { negative, c, p15 } => whole_of(negative, c, p15),
        Value::Beyond => Integer::TooLarge,
    }
}

// The digit that is all of the number at a place; 10 where there is none.
pub fn one_digit(s: &[u8], at: usize) -> u64
    ensures { result ≡ one_digit s.now at }
{
    let b = byte_at(s, at);
    if !is_digit(b) {
        return 10;
    }
    if goes_on(byte_at(s, at + 1)) {
        return 10;
    }
    wide(b) - 48
}

// The number at a place as an Integer. Most are one digit, whose value needs no power of ten.
pub fn integer_at(s: &[u8], at: usize) -> Integer
    ensures { result ≡ integer_of (number_at s.now at).value }
{
    let digit = one_digit(s, at);
    if digit < 10 {
        return Integer::Is {
            negative: NO_SIGN,
            magnitude: digit,
        };
    }
    let value = number_at(s, at).value;
    integer_of(value)
}

// A value compared with zero: `-0` is zero. What is beyond the limits is not compared, and answers
// zero.
pub fn sign_of(v: Value) -> Sign
    ensures { result ≡ sign_of v }
{
    match v {
        Value::Fits {
            negative,
            c,
            p15: _,
        } => {
            if c == 0 {
                return Sign::Zero;
            }
            if negative {
                return Sign::Below;
            }
            Sign::Above
        }
        Value::Beyond => Sign::Zero,
    }
}

// Whether c times ten to the `by` is d.
fn is_raised(c: u64, by: u32, d: u64) -> bool
    requires { d ≤ largest }
    ensures { result ≡ eqb (c * 10 ^ by) d }
{
    if c == 0 {
        return d == 0;
    }
    if 15 < by {
        return false;
    }
    let ten = ten_to(by);
    if d % ten != 0 {
        return false;
    }
    d / ten == c
}

// Whether two values within the limits have one magnitude.
fn same_magnitude(c: u64, p15: u32, d: u64, q15: u32) -> bool
    requires { (c ≤ largest) × (d ≤ largest) }
    ensures { result ≡ eqb (magnitude c p15) (magnitude d q15) }
{
    if p15 < q15 {
        return is_raised(d, q15 - p15, c);
    }
    is_raised(c, p15 - q15, d)
}

// Whether the parts of two values are of one value.
fn same_parts(m: bool, c: u64, p15: u32, n: bool, d: u64, q15: u32) -> bool
    ensures { result ≡ same_parts m c p15 n d q15 }
{
    if !within_limits(c, p15) {
        return false;
    }
    if !within_limits(d, q15) {
        return false;
    }
    if !same_magnitude(c, p15, d, q15) {
        return false;
    }
    if c == 0 {
        return true;
    }
    if m {
        return n;
    }
    !n
}

// Equality by value: `1`, `1.0` and `10e-1` are one. What is beyond the limits equals nothing.
pub fn same_value(a: Value, b: Value) -> bool
    ensures { result ≡ same_value a b }
{
    match a {
        Value::Fits {
            negative: m,
            c,
            p15,
        } => match b {
            Value::Fits {
                negative: n,
                c: d,
                p15: q15,
            } => same_parts(m, c, p15, n, d, q15),
            Value::Beyond => false,
        },
        Value::Beyond => false,
    }
}
