// Answers cases of each of the gates by its number, so that a test can ask the compiled code thousands of
// them in one run. All numbers are little-endian u32. A case on standard input is eight numbers (the
// gate, 0 for document 01's, 1 for the baseline profile and 2 for the contract side; what is asked; the
// bundle's length; a file number; 1 for new bytes; their length; the output's length; a seed), the bundle, for a change the handed board as kind, place
// and companion of each mark that the gate has, and the new bytes.
//   0 judge:  refusal, board
//   1 try:    refusal, the length that the new bundle would have, board
//   2 make:   refusal, the new bundle's length, board, the output, whose byte i was before
//             the seed and 7 i together, its lowest eight bits
//   3 lookup: 0 present, 1 omitted or 2 refused, refusal, length, the file
//   7 reason: for the mark whose number stands in the place of the file number, nine numbers: 0 and the
//             refusal; 1 for one that holds; 2 and the unreadable file; 3, kind, place and companion;
//             4 or, for a missing target, 5, then file, record, companion, field, start, length and the
//             file searched; 0 for the rest
// The calls are those over lists, in a workspace that holds what the case before left there. The program
// ends where the input does, and at a case that is too long or asks nothing known.
#![tactic(auto)]

ghost use Rattle.std.specs.Prelude.{◌≤◌};

use bundle::{Made, file_part, file_state};
use bundle_bytes::{put_word, word_at};
use cases::{fill_front, get_marks, lay, low, put_marks, write_file, write_part, write_reason};
use gate_lists::{Which, file_count, judge_lists, make_lists, reason_lists, try_lists};
use parts::part;
use program_io::{Host, fill};

fn gate_of(number: u32) -> Option<Which> {
    match number {
        0 => Some(Which::Schedule),
        1 => Some(Which::Baseline),
        2 => Some(Which::Contract),
        _ => None,
    }
}

// How many marks the gate has; the lists here have room for 96.
fn marks_of(which: Which) -> usize
    ensures { result ≤ 96 }
{
    match which {
        Which::Schedule => 81,
        Which::Baseline => 85,
        Which::Contract => 19,
    }
}

// ---- The calls with a board. `bytes` has the handed board, and then the answer.

fn judge_with(
    rt: &impl Host,
    which: Which,
    bundle: &[u8],
    bytes: &mut [u8],
    work: &mut [u32],
    kinds: &mut [u32],
    places: &mut [usize],
    companions: &mut [usize],
) -> bool {
    let made = judge_lists(which, bundle, work, kinds, places, companions);
    put_marks(bytes, kinds, places, companions);
    put_word(bytes, 8, made.refusal);
    write_part(rt, part(bytes, 8, 12 + 12 * marks_of(which)))
}

fn judge(rt: &impl Host, which: Which, bundle: &[u8], bytes: &mut [u8], work: &mut [u32]) -> bool {
    let n = marks_of(which);
    let mut kinds = [9u32; 96];
    let mut places = [9usize; 96];
    let mut companions = [9usize; 96];
    judge_with(
        rt,
        which,
        bundle,
        bytes,
        work,
        &mut kinds[..n],
        &mut places[..n],
        &mut companions[..n],
    )
}

// Writes what a change answered, and the new bundle's length.
fn write_made(rt: &impl Host, which: Which, made: Made, bytes: &mut [u8]) -> bool {
    put_word(bytes, 4, made.refusal);
    put_word(bytes, 8, low(made.length));
    write_part(rt, part(bytes, 4, 12 + 12 * marks_of(which)))
}

// Tries the change of this head, or makes it.
fn change_with<'a>(
    which: Which,
    head: &[u8],
    bundle: &'a [u8],
    new: &'a [u8],
    out: &mut [u8],
    bytes: &mut [u8],
    work: &mut [u32],
    kinds: &mut [u32],
    places: &mut [usize],
    companions: &mut [usize],
) -> Made {
    let k = word_at(head, 12) as usize;
    let present = word_at(head, 16) == 1;
    get_marks(bytes, kinds, places, companions);
    if word_at(head, 4) == 1 {
        let tried = try_lists(
            which, bundle, k, present, new, work, kinds, places, companions,
        );
        put_marks(bytes, kinds, places, companions);
        return tried;
    }
    let made = make_lists(
        which, bundle, k, present, new, out, work, kinds, places, companions,
    );
    put_marks(bytes, kinds, places, companions);
    made
}

fn change_of<'a>(
    which: Which,
    head: &[u8],
    bundle: &'a [u8],
    new: &'a [u8],
    out: &mut [u8],
    bytes: &mut [u8],
    work: &mut [u32],
) -> Made {
    let n = marks_of(which);
    let mut kinds = [9u32; 96];
    let mut places = [9usize; 96];
    let mut companions = [9usize; 96];
    change_with(
        which,
        head,
        bundle,
        new,
        out,
        bytes,
        work,
        &mut kinds[..n],
        &mut places[..n],
        &mut companions[..n],
    )
}

// Makes a change into the whole of an output.
fn make<'a>(
    rt: &impl Host,
    which: Which,
    head: &[u8],
    bundle: &'a [u8],
    new: &'a [u8],
    out: &mut [u8],
    bytes: &mut [u8],
    work: &mut [u32],
) -> bool {
    lay(out, word_at(head, 28) as usize);
    let made = change_of(which, head, bundle, new, out, bytes, work);
    if write_made(rt, which, made, bytes) {
        return write_part(rt, out);
    }
    false
}

// The same into the front of an output, where it is long enough.
fn make_front<'a>(
    rt: &impl Host,
    which: Which,
    head: &[u8],
    bundle: &'a [u8],
    new: &'a [u8],
    out: &mut [u8],
    bytes: &mut [u8],
    work: &mut [u32],
) -> bool {
    let room = word_at(head, 24) as usize;
    if out.len() < room {
        return false;
    }
    make(rt, which, head, bundle, new, &mut out[..room], bytes, work)
}

// Tries or makes a change, once the board and the new bytes are read.
fn change(
    rt: &impl Host,
    which: Which,
    head: &[u8],
    bundle: &[u8],
    news: &mut [u8],
    out: &mut [u8],
    bytes: &mut [u8],
    work: &mut [u32],
) -> bool {
    let n = word_at(head, 20) as usize;
    if !fill_front(rt, bytes, 12 * marks_of(which)) {
        return false;
    }
    if !fill_front(rt, news, n) {
        return false;
    }
    let new = part(news, 0, n);
    if word_at(head, 4) == 1 {
        let made = change_of(which, head, bundle, new, out, bytes, work);
        return write_made(rt, which, made, bytes);
    }
    make_front(rt, which, head, bundle, new, out, bytes, work)
}

// ---- The cases

fn look_up(rt: &impl Host, which: Which, bundle: &[u8], k: usize) -> bool {
    let n = file_count(which);
    write_file(rt, file_state(bundle, n, k), file_part(bundle, n, k))
}

// Answers what is asked of a bundle; whether to go on.
fn answer_case(
    rt: &impl Host,
    which: Which,
    head: &[u8],
    bundle: &[u8],
    news: &mut [u8],
    out: &mut [u8],
    bytes: &mut [u8],
    work: &mut [u32],
) -> bool {
    let k = word_at(head, 12) as usize;
    match word_at(head, 4) {
        0 => judge(rt, which, bundle, bytes, work),
        1 => change(rt, which, head, bundle, news, out, bytes, work),
        2 => change(rt, which, head, bundle, news, out, bytes, work),
        3 => look_up(rt, which, bundle, k),
        7 => write_reason(rt, reason_lists(which, bundle, k, work)),
        _ => false,
    }
}

// Answers the next case; whether to go on.
fn answer(
    rt: &impl Host,
    buf: &mut [u8],
    news: &mut [u8],
    out: &mut [u8],
    bytes: &mut [u8],
    work: &mut [u32],
) -> bool {
    let mut head = [0u8; 32];
    if !fill(&mut rt.input(), &mut head) {
        return false;
    }
    let n = word_at(&head, 8) as usize;
    if !fill_front(rt, buf, n) {
        return false;
    }
    match gate_of(word_at(&head, 0)) {
        Some(which) => answer_case(rt, which, &head, part(buf, 0, n), news, out, bytes, work),
        None => false,
    }
}

// A proved loop has to end, and nothing says that the input does. So the loop has a number of turns
// that no run uses up.
fn answer_all(
    rt: &impl Host,
    buf: &mut [u8],
    news: &mut [u8],
    out: &mut [u8],
    bytes: &mut [u8],
    work: &mut [u32],
) {
    for _ in 0..u64::MAX {
        if !answer(rt, buf, news, out, bytes, work) {
            break;
        }
    }
}

fn main(rt: HostRuntime) {
    let mut buf = [0u8; 1048577];
    let mut news = [0u8; 1048577];
    let mut out = [0u8; 1048577];
    let mut bytes = [0u8; 1164];
    // a workspace with numbers in it that no file leaves there
    let mut work = [0xA5A5A5A5u32; 794702];
    answer_all(&rt, &mut buf, &mut news, &mut out, &mut bytes, &mut work);
}
