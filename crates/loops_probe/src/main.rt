// Answers cases of the loops (document 02, order 14), so that a test can ask the compiled code thousands of
// them in one run. All numbers are little-endian u32. A case on standard input is four numbers (the lengths of
// the bundle and of the list, a seed, what is asked for) and the bundle; entry i of the list is before the seed
// and 7 i together, its lowest 32 bits. Where 0 is asked for, the answer is a tag (0 nothing, 1 a ring, 2
// refused), the ring's length or the refusal, else 0, and the whole list; for 1 it is the length of the text
// and the text, and for any other number the same explained.
// The workspace is lent, and holds what the case before left in it. The program ends where the input does, and
// at a case that is too long.
#![tactic(auto)]

use bundle_bytes::{put_word, word_at};
use cases::{fill_front, low};
use loop_text::tell_loop;
use parts::part;
use program_io::{Host, fill, write_out};
use show_loop::{Shown, show_loop_in};

fn pattern(seed: u32, i: usize) -> u32 {
    low(seed as usize + i % 4294967296 * 7)
}

// Puts the pattern into a list.
fn lay(list: &mut [u32], seed: u32) {
    for (i, number) in list.iter_mut().enumerate() {
        *number = pattern(seed, i);
    }
}

fn tag_of(shown: Shown) -> u32 {
    match shown {
        Ok(None) => 0,
        Ok(Some(_)) => 1,
        Err(_) => 2,
    }
}

fn number_of(shown: Shown) -> u32 {
    match shown {
        Ok(None) => 0,
        Ok(Some(m)) => low(m),
        Err(k) => k,
    }
}

// Puts a list of up to 5,000 numbers behind the tag and the number.
fn put_list(out: &mut [u8], list: &[u32]) {
    if 5000 < list.len() {
        return;
    }
    for (i, number) in list.iter().enumerate() {
        put_word(out, 8 + 4 * i, *number);
    }
}

fn write_shown(rt: &impl Host, shown: Shown, list: &[u32], out: &mut [u8]) -> bool {
    put_word(out, 0, tag_of(shown));
    put_word(out, 4, number_of(shown));
    put_list(out, list);
    write_out(rt, out)
}

fn answer_case(
    rt: &impl Host,
    bundle: &[u8],
    seed: u32,
    list: &mut [u32],
    work: &mut [u32],
    out: &mut [u8],
) -> bool {
    lay(list, seed);
    let shown = show_loop_in(bundle, work, list);
    write_shown(rt, shown, list, out)
}

// A text behind its length.
fn write_text(rt: &impl Host, text: &[u8]) -> bool {
    let mut head = [0u8; 4];
    put_word(&mut head, 0, low(text.len()));
    write_out(rt, &head) && write_out(rt, text)
}

// Answers a case with a list of m numbers, where that is not too long.
fn answer_list(
    rt: &impl Host,
    bundle: &[u8],
    seed: u32,
    m: usize,
    list: &mut [u32],
    work: &mut [u32],
    out: &mut [u8],
) -> bool {
    if 5000 < m || list.len() < m {
        return false;
    }
    let size = 8 + 4 * m;
    if out.len() < size {
        return false;
    }
    answer_case(rt, bundle, seed, &mut list[..m], work, &mut out[..size])
}

// The same with the text.
fn answer_text(
    rt: &impl Host,
    bundle: &[u8],
    explained: bool,
    m: usize,
    list: &mut [u32],
    work: &mut [u32],
    out: &mut [u8],
) -> bool {
    if list.len() < m {
        return false;
    }
    let n = tell_loop(bundle, explained, work, &mut list[..m], out);
    write_text(rt, part(out, 0, n))
}

// Answers the next case; whether to go on.
fn answer(
    rt: &impl Host,
    buf: &mut [u8],
    list: &mut [u32],
    work: &mut [u32],
    out: &mut [u8],
) -> bool {
    let mut head = [0u8; 16];
    if !fill(&mut rt.input(), &mut head) {
        return false;
    }
    let n = word_at(&head, 0) as usize;
    if !fill_front(rt, buf, n) {
        return false;
    }
    let m = word_at(&head, 4) as usize;
    let asked = word_at(&head, 12);
    if asked == 0 {
        return answer_list(rt, part(buf, 0, n), word_at(&head, 8), m, list, work, out);
    }
    answer_text(rt, part(buf, 0, n), asked != 1, m, list, work, out)
}

// A proved loop has to end, and nothing says that the input does. So the loop counts its turns
// down, from a number that no run uses up.
fn answer_all(rt: &impl Host, buf: &mut [u8], list: &mut [u32], work: &mut [u32], out: &mut [u8]) {
    let mut turns = u64::MAX;
    while turns > 0 && answer(rt, buf, list, work, out) {
        turns -= 1;
    }
}

fn main(rt: HostRuntime) {
    let mut buf = [0u8; 1048577];
    let mut list = [0u32; 5000];
    let mut work = [0xA5A5A5A5u32; 40960];
    let mut out = [0u8; 1280000];
    answer_all(&rt, &mut buf, &mut list, &mut work, &mut out);
}
