// Answers cases of the desks (document 02, order 10), so that a test can ask the compiled code thousands of
// them in one run. All numbers are little-endian u32. A case on standard input is ten numbers (what is asked,
// the lengths of A's bundle, of B's and of the shared one, whose the change is: 0 for A, 1 for B, 2 for the
// calendars; a file number, 1 for new bytes, their length, the output's length, a seed), the three bundles,
// and for a change the handed boards of A and B, each as 81 times kind, place and companion, and the new
// bytes.
//   0 judge A in full: refusal, board
//   1 try:  for A and then for B the refusal and the board; then the new bundle's length, 0 for none
//   2 make: the same and the output, whose byte i was before the seed and 7 i together, its lowest eight
//           bits
// The program ends where the input does, and at a case that is too long or asks nothing known.
#![tactic(auto)]

ghost use Rattle.std.specs.Prelude.{◌≤◌};

use board::Board;
use bundle_bytes::word_at;
use cases::{fill_front, lay, low, read_board, write_board, write_number, write_part};
use desks::{Desk, Desks, change_desks, judge_joined, try_desks};
use desks_calls::Whose;
use parts::part;
use program_io::{Host, fill};

fn write_desk(rt: &impl Host, desk: Desk) -> bool {
    let board = desk.board;
    write_board(rt, desk.refusal, board)
}

fn write_desks(rt: &impl Host, desks: Desks) -> bool {
    let a = desks.a;
    let b = desks.b;
    if !write_desk(rt, a) {
        return false;
    }
    if !write_desk(rt, b) {
        return false;
    }
    write_number(rt, low(desks.size))
}

fn whose_of(number: u32) -> Whose {
    match number {
        0 => Whose::DeskA,
        1 => Whose::DeskB,
        _ => Whose::Calendars,
    }
}

// Makes a change into the whole of an output.
fn make<'a>(
    rt: &impl Host,
    a: &'a [u8],
    b: &'a [u8],
    shared: &'a [u8],
    board_a: Board,
    board_b: Board,
    whose: Whose,
    k: usize,
    present: bool,
    new: &'a [u8],
    out: &mut [u8],
    seed: usize,
) -> bool {
    lay(out, seed);
    let desks = change_desks(a, b, shared, board_a, board_b, whose, k, present, new, out);
    if write_desks(rt, desks) {
        return write_part(rt, out);
    }
    false
}

// The same into the front of an output, where it is long enough.
fn make_front<'a>(
    rt: &impl Host,
    a: &'a [u8],
    b: &'a [u8],
    shared: &'a [u8],
    board_a: Board,
    board_b: Board,
    whose: Whose,
    k: usize,
    present: bool,
    new: &'a [u8],
    out: &mut [u8],
    z: usize,
    seed: usize,
) -> bool {
    if out.len() < z {
        return false;
    }
    make(
        rt,
        a,
        b,
        shared,
        board_a,
        board_b,
        whose,
        k,
        present,
        new,
        &mut out[..z],
        seed,
    )
}

// Fills a buffer from a place on, where it is long enough.
fn fill_behind(rt: &impl Host, buf: &mut [u8], from: usize, n: usize) -> bool {
    if buf.len() < from {
        return false;
    }
    fill_front(rt, &mut buf[from..], n)
}

fn change<'a>(
    rt: &impl Host,
    op: u32,
    a: &'a [u8],
    b: &'a [u8],
    shared: &'a [u8],
    board_a: Board,
    board_b: Board,
    whose: Whose,
    k: usize,
    present: bool,
    new: &'a [u8],
    out: &mut [u8],
    z: usize,
    seed: usize,
) -> bool {
    if op == 1 {
        return write_desks(
            rt,
            try_desks(a, b, shared, board_a, board_b, whose, k, present, new),
        );
    }
    make_front(
        rt, a, b, shared, board_a, board_b, whose, k, present, new, out, z, seed,
    )
}

fn is_known(op: u32, whose: u32) -> bool {
    if 2 < op {
        return false;
    }
    whose <= 2
}

// A length that is read, and past the largest one more.
fn length_in(head: &[u8], at: usize) -> usize
    ensures { result ≤ 1048578 }
{
    let n = word_at(head, at) as usize;
    if 1048577 < n {
        return 1048578;
    }
    n
}

// The change of this head; the bundles and the new bytes stand in the buffer up to these places.
fn change_in(
    rt: &impl Host,
    head: &[u8],
    buf: &[u8],
    board_a: Board,
    board_b: Board,
    to_a: usize,
    to_b: usize,
    to_s: usize,
    end: usize,
    out: &mut [u8],
) -> bool {
    change(
        rt,
        word_at(head, 0),
        part(buf, 0, to_a),
        part(buf, to_a, to_b),
        part(buf, to_b, to_s),
        board_a,
        board_b,
        whose_of(word_at(head, 16)),
        word_at(head, 20) as usize,
        word_at(head, 24) == 1,
        part(buf, to_s, end),
        out,
        word_at(head, 32) as usize,
        word_at(head, 36) as usize,
    )
}

// The same, with the boards and the new bytes read first.
fn answer_change(
    rt: &impl Host,
    head: &[u8],
    buf: &mut [u8],
    to_a: usize,
    to_b: usize,
    to_s: usize,
    out: &mut [u8],
) -> bool
    requires { to_s ≤ 3145734 }
{
    let board_a = read_board(rt);
    let board_b = read_board(rt);
    let w = length_in(head, 28);
    if !fill_behind(rt, buf, to_s, w) {
        return false;
    }
    let end = to_s + w;
    change_in(rt, head, buf, board_a, board_b, to_a, to_b, to_s, end, out)
}

// Answers the case of this head. The bundles and the new bytes stand in one buffer, which holds three of
// the longest.
fn answer_head(rt: &impl Host, head: &[u8], buf: &mut [u8], out: &mut [u8]) -> bool {
    if !is_known(word_at(head, 0), word_at(head, 16)) {
        return false;
    }
    let to_a = length_in(head, 4);
    let to_b = to_a + length_in(head, 8);
    let to_s = to_b + length_in(head, 12);
    if !fill_front(rt, buf, to_s) {
        return false;
    }
    if word_at(head, 0) == 0 {
        return write_desk(rt, judge_joined(part(buf, 0, to_a), part(buf, to_b, to_s)));
    }
    answer_change(rt, head, buf, to_a, to_b, to_s, out)
}

// Answers the next case; whether to go on.
fn answer(rt: &impl Host, buf: &mut [u8], out: &mut [u8]) -> bool {
    let mut head = [0u8; 40];
    if !fill(&mut rt.input(), &mut head) {
        return false;
    }
    answer_head(rt, &head, buf, out)
}

// A proved loop has to end, and nothing says that the input does. So the loop counts its turns
// down, from a number that no run uses up.
fn answer_all(rt: &impl Host, buf: &mut [u8], out: &mut [u8]) {
    let mut turns = u64::MAX;
    while turns > 0 && answer(rt, buf, out) {
        turns -= 1;
    }
}

fn main(rt: HostRuntime) {
    let mut buf = [0u8; 3200000];
    let mut out = [0u8; 1048577];
    answer_all(&rt, &mut buf, &mut out);
}
