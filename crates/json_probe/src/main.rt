// Answers cases of the JSON layer, so that a test can ask the compiled code thousands of them in
// one run. A case on standard input is five little-endian u32 (op, at, other, length of A, length of
// B) and the bytes of A and of B; its answer on standard output is four little-endian u64. The
// program ends where the input does, and at a case that is too long.
#![tactic(auto)]

ghost use Rattle.std.specs.Prelude.{◌+◌, ◌≤◌, length};

use bundle_bytes::word_at;
use json_bytes::{Fault, literal_at, skip_spaces};
use json_chars::{Step, step_at};
use json_date::{Day, date_at};
use json_number::{Integer, Sign, Value, integer_of, number_at, same_value, sign_of};
use json_same::{Case, same_text, text_is};
use json_text::{TextType, read_text};
use program_io::{Host, fill, put_long, write_out};

// Which answer it is, and up to three numbers that go with it.
#[derive(Clone, Copy)]
struct Answer {
    t: u64,
    a: u64,
    b: u64,
    c: u64,
}

// What stands before the bytes of a case: n of A and m of B.
#[derive(Clone, Copy)]
struct Header {
    op: u32,
    at: usize,
    other: u32,
    n: usize,
    m: usize,
}

fn numbers(t: u64, a: u64, b: u64, c: u64) -> Answer {
    Answer { t, a, b, c }
}

fn only(t: u64) -> Answer {
    numbers(t, 0, 0, 0)
}

fn fault(t: u64, kind: u32, place: usize) -> Answer {
    numbers(t, kind as u64, place as u64, 0)
}

fn yes_or_no(yes: bool) -> Answer {
    if yes { only(1) } else { only(0) }
}

fn literal(s: &[u8], at: usize) -> Answer {
    match literal_at(s, at) {
        Ok(end) => numbers(0, end as u64, 0, 0),
        Err(Fault { kind, place }) => fault(1, kind, place),
    }
}

fn text(s: &[u8], at: usize, ty: TextType) -> Answer {
    let read = read_text(s, at, ty);
    let wrong = read.wrong;
    match read.reading {
        Ok(end) => numbers(0, end as u64, wrong.rule as u64, wrong.place as u64),
        Err(Fault { kind, place }) => fault(1, kind, place),
    }
}

fn text_of_type(s: &[u8], at: usize, number: u32) -> Answer {
    match number {
        0 => text(s, at, TextType::Text),
        1 => text(s, at, TextType::String),
        2 => text(s, at, TextType::StringID),
        _ => only(9),
    }
}

fn character(s: &[u8], at: usize) -> Answer {
    match step_at(s, at) {
        Step::Char { code, next } => numbers(0, code as u64, next as u64, 0),
        Step::Close => only(1),
        Step::Bad { kind, place } => fault(2, kind, place),
    }
}

fn day(s: &[u8], at: usize) -> Answer {
    match date_at(s, at) {
        Some(Day { year, month, day }) => numbers(0, year as u64, month as u64, day as u64),
        None => only(1),
    }
}

// A number's power is at most 30, so that 100 more says its sign.
fn signed(negative: bool, p15: u32) -> u64 {
    let power = p15 as u64;
    if negative { power + 100 } else { power }
}

fn number(s: &[u8], at: usize) -> Answer {
    let read = number_at(s, at);
    match read.reading {
        Ok(end) => match read.value {
            Value::Fits { negative, c, p15 } => numbers(0, end as u64, c, signed(negative, p15)),
            Value::Beyond => numbers(2, end as u64, 0, 0),
        },
        Err(Fault { kind, place }) => fault(1, kind, place),
    }
}

fn integer(v: Value) -> Answer {
    match integer_of(v) {
        Integer::Is {
            negative,
            magnitude,
        } => numbers(0, magnitude, negative as u64, 0),
        Integer::Fraction => only(1),
        Integer::TooLarge => only(2),
    }
}

fn integer_at(s: &[u8], at: usize) -> Answer {
    let read = number_at(s, at);
    match read.reading {
        Ok(_) => integer(read.value),
        Err(_) => only(3),
    }
}

// The value of the number at a place; where none is whole, it is beyond the limits too.
fn value_at(s: &[u8], at: usize) -> Value {
    let read = number_at(s, at);
    match read.reading {
        Ok(_) => read.value,
        Err(_) => Value::Beyond,
    }
}

fn sign(v: Value) -> Answer {
    match sign_of(v) {
        Sign::Zero => numbers(0, 0, 0, 0),
        Sign::Above => numbers(0, 1, 0, 0),
        Sign::Below => numbers(0, 2, 0, 0),
    }
}

fn sign_at(s: &[u8], at: usize) -> Answer {
    let value = value_at(s, at);
    match value {
        Value::Fits {
            negative: _,
            c: _,
            p15: _,
        } => sign(value),
        Value::Beyond => only(3),
    }
}

fn equal_numbers(s: &[u8], at: usize, t: &[u8], other: usize) -> Answer {
    yes_or_no(same_value(value_at(s, at), value_at(t, other)))
}

fn equal_texts(s: &[u8], at: usize, t: &[u8], other: usize, case: Case) -> Answer {
    yes_or_no(same_text(s, at, t, other, case))
}

fn equal_to_word(s: &[u8], at: usize, word: &[u8], case: Case) -> Answer {
    yes_or_no(text_is(s, at, word, case))
}

// The answer to a case; 9 where there is no such op or type of text.
fn answer_of(op: u32, s: &[u8], at: usize, t: &[u8], other: u32) -> Answer {
    match op {
        1 => numbers(0, skip_spaces(s, at) as u64, 0, 0),
        2 => literal(s, at),
        3 => text_of_type(s, at, other),
        4 => character(s, at),
        5 => equal_texts(s, at, t, other as usize, Case::Kept),
        6 => equal_texts(s, at, t, other as usize, Case::Folded),
        7 => equal_to_word(s, at, t, Case::Kept),
        8 => equal_to_word(s, at, t, Case::Folded),
        9 => day(s, at),
        10 => number(s, at),
        11 => integer_at(s, at),
        12 => sign_at(s, at),
        13 => equal_numbers(s, at, t, other as usize),
        _ => only(9),
    }
}

// What stands before the next case; none where the input ends.
fn read_header(rt: &impl Host) -> Option<Header> {
    let mut bytes = [0u8; 20];
    if !fill(&mut rt.input(), &mut bytes) {
        return None;
    }
    Some(Header {
        op: word_at(&bytes, 0),
        at: word_at(&bytes, 4) as usize,
        other: word_at(&bytes, 8),
        n: word_at(&bytes, 12) as usize,
        m: word_at(&bytes, 16) as usize,
    })
}

// The answer to the next case, whose bytes of A and B go to the front of two buffers; none where the input ends or a
// case is too long.
fn next_answer(rt: &impl Host, a: &mut [u8], b: &mut [u8]) -> Option<Answer> {
    let Header {
        op,
        at,
        other,
        n,
        m,
    } = read_header(rt)?;
    if a.len() < n || b.len() < m {
        return None;
    }
    if !fill(&mut rt.input(), &mut a[..n]) || !fill(&mut rt.input(), &mut b[..m]) {
        return None;
    }
    Some(answer_of(op, &a[..n], at, &b[..m], other))
}

// Writes an answer into 32 bytes.
fn put_answer(out: &mut [u8], at: usize, answer: Answer)
    requires { at + 32 ≤ length out.old }
{
    put_long(out, at, answer.t);
    put_long(out, at + 8, answer.a);
    put_long(out, at + 16, answer.b);
    put_long(out, at + 24, answer.c);
}

// Answers as many cases as the output has room for and writes the answers; whether to go on.
fn answer_some(rt: &impl Host, a: &mut [u8], b: &mut [u8], out: &mut [u8]) -> bool {
    let mut used = 0;
    while used + 32 <= out.len() {
        match next_answer(rt, a, b) {
            Some(answer) => put_answer(out, used, answer),
            None => {
                write_out(rt, &out[..used]);
                return false;
            }
        }
        used += 32;
    }
    write_out(rt, &out[..used])
}

// A proved loop has to end, and nothing says that the input does. So the loop counts its turns
// down, from a number that no run uses up.
fn answer_all(rt: &impl Host, a: &mut [u8], b: &mut [u8], out: &mut [u8]) {
    let mut turns = u64::MAX;
    while turns > 0 && answer_some(rt, a, b, out) {
        turns -= 1;
    }
}

fn main(rt: HostRuntime) {
    let mut a = [0u8; 1048576];
    let mut b = [0u8; 1048576];
    let mut out = [0u8; 32768];
    answer_all(&rt, &mut a, &mut b, &mut out);
}
