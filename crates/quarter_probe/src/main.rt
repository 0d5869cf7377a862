// Answers cases of the quarter, so that a test can ask the compiled code thousands of them in one run. Numbers
// are little-endian. A case on standard input is a state and a set: 24 totals as signed 64-bit numbers, how
// many sets came as a u32, 256 bytes, 1 where that place was left out, the bundle's length as a u32, and the
// bundle. The answer is the refusal as a u32, the state in the same form, the six grand totals as signed 64-bit
// numbers, and how many sets are left out as a u32.
// The workspace is lent, and holds what the case before left in it. The program ends where the input does, and
// at a case that is too long.
#![tactic(auto)]

ghost use Rattle.std.specs.Prelude.{◌≤◌, ◌<◌, ◌≡◌};

use bundle_bytes::{put_word, word_at};
use cases::{fill_front, low};
use json_bytes::byte_at;
use output::put_byte;
use parts::part;
use program_io::{Host, fill, put_long, write_out};
use quarter::{Quarter, Taken, left_out, take_in};
use whole_size::{size_of, whole_in};

fn wide(x: u32) -> u64
    ensures { result ≡ x }
{
    x as u64
}

// The number that is so much below zero.
fn below_zero(size: u64) -> i64
    requires { size < 9223372036854775808 }
{
    0 - (size as i64)
}

// The signed number of two words.
fn signed_of(low: u32, high: u32) -> i64 {
    let bits = wide(high) * 4294967296 + wide(low);
    if bits < 9223372036854775808 {
        return bits as i64;
    }
    if bits == 9223372036854775808 {
        return -9223372036854775808;
    }
    below_zero(18446744073709551615 - bits + 1)
}

// The bits of a signed number.
fn bits_of(x: i64) -> u64 {
    let size = size_of(x);
    if size == 0 {
        return 0;
    }
    if x < 0 {
        return 18446744073709551615 - (size - 1);
    }
    size
}

fn get_totals(bytes: &[u8]) -> [i64; 24] {
    let mut totals = [0i64; 24];
    let mut i = 0;
    while i < 24 {
        let total = signed_of(word_at(bytes, 8 * i), word_at(bytes, 8 * i + 4));
        totals[i] = total;
        i += 1;
    }
    totals
}

fn get_left(bytes: &[u8]) -> [bool; 256] {
    let mut left = [false; 256];
    let mut i = 0;
    while i < 256 {
        left[i] = byte_at(bytes, 196 + i) != 0;
        i += 1;
    }
    left
}

// Writes the first n numbers of a list one behind the other from a place on.
fn put_signed(out: &mut [u8], at: usize, numbers: &[i64], n: usize)
    requires { (at ≤ 512) × (n ≤ 24) }
{
    let mut i = 0;
    while i < n {
        put_long(out, at + 8 * i, bits_of(whole_in(numbers, i)));
        i += 1;
    }
}

// 1 where that place was left out.
fn flag_at(left: &[bool], i: usize) -> u8 {
    if left.len() <= i {
        return 0;
    }
    let set = left[i];
    if set {
        return 1;
    }
    0
}

fn put_left(out: &mut [u8], left: &[bool]) {
    let mut i = 0;
    while i < 256 {
        put_byte(out, 200 + i, flag_at(left, i));
        i += 1;
    }
}

fn write_taken(rt: &impl Host, taken: Taken) -> bool {
    let mut out = [0u8; 508];
    let quarter = taken.quarter;
    let totals = quarter.totals;
    let left = quarter.left;
    let grand = taken.grand;
    put_word(&mut out, 0, taken.refusal);
    put_signed(&mut out, 4, &totals, 24);
    put_word(&mut out, 196, low(quarter.sets));
    put_left(&mut out, &left);
    put_signed(&mut out, 456, &grand, 6);
    put_word(&mut out, 504, low(left_out(quarter)));
    write_out(rt, &out)
}

// Answers one case; false where the input ends or the case is too long.
fn answer(rt: &impl Host, buf: &mut [u8], work: &mut [u32]) -> bool {
    let mut head = [0u8; 456];
    if !fill(&mut rt.input(), &mut head) {
        return false;
    }
    let n = word_at(&head, 452) as usize;
    if !fill_front(rt, buf, n) {
        return false;
    }
    let quarter = Quarter {
        totals: get_totals(&head),
        sets: word_at(&head, 192) as usize,
        left: get_left(&head),
    };
    write_taken(rt, take_in(quarter, part(buf, 0, n), work))
}

fn answer_all(rt: &impl Host, buf: &mut [u8], work: &mut [u32]) {
    let mut turns: u64 = 1000000000;
    while 0 < turns {
        if !answer(rt, buf, work) {
            return;
        }
        turns -= 1;
    }
}

fn main(rt: HostRuntime) {
    let mut buf = [0u8; 1048577];
    let mut work = [0xA5A5A5A5u32; 794702];
    answer_all(&rt, &mut buf, &mut work);
}
