// Answers cases of the drawer (document 02, order 12), so that a test can ask the compiled code thousands of
// them in one run. All numbers are little-endian u32. A case on standard input is seven numbers (what is asked,
// the drawer's length, a file number, 1 for new bytes, their length, the output's length, a seed), the
// drawer, for a change the handed board as 81 times kind, place and companion, and the new bytes or the
// bundle that is put in.
//   0 judge it in full: refusal, board
//   1 try a change: refusal, board
//   2 make it: the same and the drawer
//   3 ask for a file: state (0 present, 1 omitted, 2 refused), refusal, length and bytes of its part
//   4 put a bundle in: refusal and the drawer
//   5 take the bundle of the files out: refusal, its length and the output, whose byte i was before the seed
//     and 7 i together, its lowest eight bits
//   6 list it: the length of the text, and the text
// The program ends where the input does, and at a case that is too long or asks nothing known.
#![tactic(auto)]

use board::Board;
use bundle_bytes::word_at;
use cases::{fill_front, lay, low, read_board, write_board, write_file, write_number, write_part};
use drawer_bundles::{put_bundle, take_bundle};
use drawer_text::put_list;
use drawers::{Drawn, drawer_file, drawer_judge_in, drawer_make_in, drawer_state, drawer_try_in};
use parts::part;
use program_io::{Host, fill};

fn write_drawn(rt: &impl Host, drawn: Drawn) -> bool {
    let board = drawn.board;
    write_board(rt, drawn.refusal, board)
}

fn make(
    rt: &impl Host,
    drawer: &mut [u8],
    board: Board,
    k: usize,
    present: bool,
    new: &[u8],
    work: &mut [u32],
) -> bool {
    let drawn = drawer_make_in(drawer, board, k, present, new, work);
    if write_drawn(rt, drawn) {
        return write_part(rt, drawer);
    }
    false
}

fn change(
    rt: &impl Host,
    head: &[u8],
    drawer: &mut [u8],
    new: &mut [u8],
    work: &mut [u32],
) -> bool {
    let board = read_board(rt);
    let w = word_at(head, 16) as usize;
    if !fill_front(rt, new, w) {
        return false;
    }
    let bytes = part(new, 0, w);
    let k = word_at(head, 8) as usize;
    let present = word_at(head, 12) == 1;
    if word_at(head, 0) == 1 {
        return write_drawn(rt, drawer_try_in(drawer, board, k, present, bytes, work));
    }
    make(rt, drawer, board, k, present, bytes, work)
}

fn look_up(rt: &impl Host, drawer: &[u8], k: usize) -> bool {
    write_file(rt, drawer_state(drawer, k), drawer_file(drawer, k))
}

fn put(rt: &impl Host, drawer: &mut [u8], new: &mut [u8], w: usize) -> bool {
    if !fill_front(rt, new, w) {
        return false;
    }
    let refusal = put_bundle(drawer, part(new, 0, w));
    if write_number(rt, refusal) {
        return write_part(rt, drawer);
    }
    false
}

fn take(rt: &impl Host, drawer: &[u8], out: &mut [u8], seed: usize) -> bool {
    lay(out, seed);
    let made = take_bundle(drawer, out);
    if !write_number(rt, made.refusal) {
        return false;
    }
    if write_number(rt, low(made.length)) {
        return write_part(rt, out);
    }
    false
}

// Takes the bundle out into the front of an output, where that is long enough.
fn take_front(rt: &impl Host, drawer: &[u8], out: &mut [u8], z: usize, seed: usize) -> bool {
    if out.len() < z {
        return false;
    }
    take(rt, drawer, &mut out[..z], seed)
}

fn list(rt: &impl Host, drawer: &[u8], out: &mut [u8]) -> bool {
    let n = put_list(out, 0, drawer);
    if write_number(rt, low(n)) {
        return write_part(rt, part(out, 0, n));
    }
    false
}

// Answers the case of this head over the drawer, which is read first.
fn answer_drawer(
    rt: &impl Host,
    head: &[u8],
    drawer: &mut [u8],
    new: &mut [u8],
    out: &mut [u8],
    work: &mut [u32],
) -> bool {
    if !fill(&mut rt.input(), drawer) {
        return false;
    }
    match word_at(head, 0) {
        0 => write_drawn(rt, drawer_judge_in(drawer, work)),
        1 => change(rt, head, drawer, new, work),
        2 => change(rt, head, drawer, new, work),
        3 => look_up(rt, drawer, word_at(head, 8) as usize),
        4 => put(rt, drawer, new, word_at(head, 16) as usize),
        5 => take_front(
            rt,
            drawer,
            out,
            word_at(head, 20) as usize,
            word_at(head, 24) as usize,
        ),
        6 => list(rt, drawer, out),
        _ => false,
    }
}

fn answer_head(
    rt: &impl Host,
    head: &[u8],
    drawer: &mut [u8],
    new: &mut [u8],
    out: &mut [u8],
    work: &mut [u32],
) -> bool {
    let n = word_at(head, 4) as usize;
    if drawer.len() < n {
        return false;
    }
    answer_drawer(rt, head, &mut drawer[..n], new, out, work)
}

// Answers the next case; whether to go on.
fn answer(
    rt: &impl Host,
    drawer: &mut [u8],
    new: &mut [u8],
    out: &mut [u8],
    work: &mut [u32],
) -> bool {
    let mut head = [0u8; 28];
    if !fill(&mut rt.input(), &mut head) {
        return false;
    }
    answer_head(rt, &head, drawer, new, out, work)
}

// A proved loop has to end, and nothing says that the input does. So the loop counts its turns
// down, from a number that no run uses up.
fn answer_all(rt: &impl Host, drawer: &mut [u8], new: &mut [u8], out: &mut [u8], work: &mut [u32]) {
    let mut turns = u64::MAX;
    while turns > 0 && answer(rt, drawer, new, out, work) {
        turns -= 1;
    }
}

fn main(rt: HostRuntime) {
    let mut drawer = [0u8; 1048577];
    let mut new = [0u8; 1048577];
    let mut out = [0u8; 1048577];
    let mut work = [0u32; 794702];
    answer_all(&rt, &mut drawer, &mut new, &mut out, &mut work);
}
