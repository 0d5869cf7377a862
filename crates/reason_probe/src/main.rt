// Answers cases of the text of reasons, so that a test can ask the compiled code thousands of them in one
// run. All numbers are little-endian u32. A case on standard input is two numbers (the bundle's length,
// and twice the gate's number, 0 for document 01's, 1 for the baseline profile and 2 for the contract side,
// with 1 more for marks grouped as the folder's program has them) and the bundle; the answer is the text's
// length and the text.
// The program ends where the input does, and at a bundle that is too long or a gate that is not known.
#![tactic(auto)]

use bundle_bytes::{put_word, word_at};
use cases::{fill_front, low};
use gate_lists::Which;
use parts::part;
use program_io::{Host, fill, write_out};
use reason_text::reasons;

fn write_text(rt: &impl Host, text: &[u8]) -> bool {
    let mut head = [0u8; 4];
    put_word(&mut head, 0, low(text.len()));
    if write_out(rt, &head) {
        return write_out(rt, text);
    }
    false
}

fn tell(
    rt: &impl Host,
    which: Which,
    bundle: &[u8],
    grouped: bool,
    work: &mut [u32],
    out: &mut [u8],
) -> bool {
    let n = reasons(which, bundle, grouped, work, out);
    write_text(rt, part(out, 0, n))
}

// Answers the next case; whether to go on.
fn answer(rt: &impl Host, buf: &mut [u8], work: &mut [u32], out: &mut [u8]) -> bool {
    let mut head = [0u8; 8];
    if !fill(&mut rt.input(), &mut head) {
        return false;
    }
    let n = word_at(&head, 0) as usize;
    let asked = word_at(&head, 4);
    let grouped = asked % 2 == 1;
    if !fill_front(rt, buf, n) {
        return false;
    }
    match asked / 2 {
        0 => tell(rt, Which::Schedule, part(buf, 0, n), grouped, work, out),
        1 => tell(rt, Which::Baseline, part(buf, 0, n), grouped, work, out),
        2 => tell(rt, Which::Contract, part(buf, 0, n), grouped, work, out),
        _ => false,
    }
}

// A proved loop has to end, and nothing says that the input does. So the loop counts its turns
// down, from a number that no run uses up.
fn answer_all(rt: &impl Host, buf: &mut [u8], work: &mut [u32], out: &mut [u8]) {
    let mut turns = u64::MAX;
    while turns > 0 && answer(rt, buf, work, out) {
        turns -= 1;
    }
}

fn main(rt: HostRuntime) {
    let mut buf = [0u8; 1048577];
    // a workspace with numbers in it that no file leaves there
    let mut work = [0xA5A5A5A5u32; 794702];
    let mut out = [0u8; 65536];
    answer_all(&rt, &mut buf, &mut work, &mut out);
}
