// Answers cases of the whole gate, so that a test can ask the compiled code thousands of them in one
// run. All numbers are little-endian u32. A case on standard input is seven numbers (what is asked, the
// bundle's length, a file number, 1 for new bytes, their length, the output's length, a seed), the
// bundle, for a change the handed board as 81 times kind, place and companion, and the new bytes.
//   0 judge:  refusal, board
//   1 try:    refusal, board
//   2 make:   refusal, the new bundle's length, board, the output, whose byte i was before
//             the seed and 7 i together, its lowest eight bits
//   3 lookup: 0 present, 1 omitted or 2 refused, refusal, length, the file
//   4, 5, 6:  as 0, 1 and 2, in a lent workspace that holds other numbers than 0
//   7 reason: for the mark whose number stands in the place of the file number, nine numbers: 0 and the
//             refusal; 1 for one that holds; 2 and the unreadable file; 3, kind, place and companion;
//             4 or, for a missing target, 5, then file, record, companion, field, start, length and the
//             file searched; 0 for the rest
//   8:        as 7, in such a workspace
// The program ends where the input does, and at a case that is too long or asks nothing known.
#![tactic(auto)]

use board::{Board, fresh};
use bundle::{file_part, file_state};
use bundle_bytes::word_at;
use cases::{
    fill_front, lay, read_board, write_board, write_file, write_part, write_reason, write_sized,
};
use gate::{Verdict, judge, judge_in, make_change, make_in, reason, reason_in, try_change, try_in};
use parts::part;
use program_io::{Host, fill};
use reason_answer::Reason;

fn file_asked(head: &[u8]) -> usize {
    word_at(head, 8) as usize
}

fn is_given(head: &[u8]) -> bool {
    word_at(head, 12) == 1
}

// Whether a judgement is asked for, which has no board and no new bytes handed to it.
fn is_judged(head: &[u8]) -> bool {
    word_at(head, 0) % 4 == 0
}

// Whether a change is to be made, into an output.
fn is_made(head: &[u8]) -> bool {
    word_at(head, 0) % 4 == 2
}

fn board_asked(rt: &impl Host, head: &[u8]) -> Board {
    if is_judged(head) {
        return fresh();
    }
    read_board(rt)
}

fn length_asked(head: &[u8]) -> usize {
    if is_judged(head) {
        return 0;
    }
    word_at(head, 16) as usize
}

fn room_asked(head: &[u8]) -> usize {
    if is_made(head) {
        return word_at(head, 20) as usize;
    }
    0
}

// ---- The three calls, by what is asked: 0, 1 and 2 with memory of their own, 4, 5 and 6 in a lent workspace

fn verdict_in<'a>(
    head: &[u8],
    bundle: &'a [u8],
    board: Board,
    new: &'a [u8],
    out: &mut [u8],
    work: &mut [u32],
) -> Verdict {
    let op = word_at(head, 0);
    let k = file_asked(head);
    let present = is_given(head);
    if op == 4 {
        return judge_in(bundle, work);
    }
    if op == 5 {
        return try_in(bundle, board, k, present, new, work);
    }
    make_in(bundle, board, k, present, new, out, work)
}

// One workspace for all three, with numbers in it that no file leaves there: three would be more than a stack of 8 MB.
fn lent_verdict<'a>(
    head: &[u8],
    bundle: &'a [u8],
    board: Board,
    new: &'a [u8],
    out: &mut [u8],
) -> Verdict {
    let mut work = [0xA5A5A5A5u32; 794702];
    verdict_in(head, bundle, board, new, out, &mut work)
}

fn verdict_of<'a>(
    head: &[u8],
    bundle: &'a [u8],
    board: Board,
    new: &'a [u8],
    out: &mut [u8],
) -> Verdict {
    let op = word_at(head, 0);
    let k = file_asked(head);
    let present = is_given(head);
    if 3 < op {
        return lent_verdict(head, bundle, board, new, out);
    }
    if op == 0 {
        return judge(bundle);
    }
    if op == 1 {
        return try_change(bundle, board, k, present, new);
    }
    make_change(bundle, board, k, present, new, out)
}

fn lent_reason(bundle: &[u8], mark: usize) -> Reason {
    let mut work = [0xA5A5A5A5u32; 794702];
    reason_in(bundle, mark, &mut work)
}

// ---- A call and its answer. Each function from here to the verdict is called from one place, so that the compiler puts all of
// them into one frame and the workspaces into one place: two would be more than a stack of 8 MB.

// Writes the refusal and the board, and of a change that is made the new length between them and the output behind them.
fn answer_verdict<'a>(
    rt: &impl Host,
    head: &[u8],
    bundle: &'a [u8],
    board: Board,
    new: &'a [u8],
    out: &mut [u8],
) -> bool {
    lay(out, word_at(head, 24) as usize);
    let verdict = verdict_of(head, bundle, board, new, out);
    let after = verdict.board;
    if is_made(head) {
        if write_sized(rt, verdict.refusal, verdict.length, after) {
            return write_part(rt, out);
        }
        return false;
    }
    write_board(rt, verdict.refusal, after)
}

// The call with the front of an output, where it is long enough.
fn answer_front<'a>(
    rt: &impl Host,
    head: &[u8],
    bundle: &'a [u8],
    board: Board,
    new: &'a [u8],
    out: &mut [u8],
) -> bool {
    let room = room_asked(head);
    if out.len() < room {
        return false;
    }
    answer_verdict(rt, head, bundle, board, new, &mut out[..room])
}

// The same, once the board and the new bytes are read.
fn answer_call(
    rt: &impl Host,
    head: &[u8],
    bundle: &[u8],
    news: &mut [u8],
    out: &mut [u8],
) -> bool {
    let board = board_asked(rt, head);
    let n = length_asked(head);
    if !fill_front(rt, news, n) {
        return false;
    }
    answer_front(rt, head, bundle, board, part(news, 0, n), out)
}

// ---- The cases

fn tell(rt: &impl Host, lent: bool, bundle: &[u8], mark: usize) -> bool {
    if lent {
        return write_reason(rt, lent_reason(bundle, mark));
    }
    write_reason(rt, reason(bundle, mark))
}

fn look_up(rt: &impl Host, bundle: &[u8], k: usize) -> bool {
    write_file(rt, file_state(bundle, 20, k), file_part(bundle, 20, k))
}

// Answers what is asked of a bundle; whether to go on.
fn answer_case(
    rt: &impl Host,
    head: &[u8],
    bundle: &[u8],
    news: &mut [u8],
    out: &mut [u8],
) -> bool {
    match word_at(head, 0) {
        0 | 1 | 2 | 4 | 5 | 6 => answer_call(rt, head, bundle, news, out),
        3 => look_up(rt, bundle, file_asked(head)),
        7 => tell(rt, false, bundle, file_asked(head)),
        8 => tell(rt, true, bundle, file_asked(head)),
        _ => false,
    }
}

// Answers the next case; whether to go on.
fn answer(rt: &impl Host, buf: &mut [u8], news: &mut [u8], out: &mut [u8]) -> bool {
    let mut head = [0u8; 28];
    if !fill(&mut rt.input(), &mut head) {
        return false;
    }
    let n = word_at(&head, 4) as usize;
    if !fill_front(rt, buf, n) {
        return false;
    }
    answer_case(rt, &head, part(buf, 0, n), news, out)
}

// A proved loop has to end, and nothing says that the input does. So the loop counts its turns
// down, from a number that no run uses up.
fn answer_all(rt: &impl Host, buf: &mut [u8], news: &mut [u8], out: &mut [u8]) {
    let mut turns = u64::MAX;
    while turns > 0 && answer(rt, buf, news, out) {
        turns -= 1;
    }
}

fn main(rt: HostRuntime) {
    let mut buf = [0u8; 1048577];
    let mut news = [0u8; 1048577];
    let mut out = [0u8; 1048577];
    answer_all(&rt, &mut buf, &mut news, &mut out);
}
