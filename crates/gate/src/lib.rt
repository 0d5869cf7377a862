// Document 01's three calls with a board: judge a bundle in full, try a change, make it; and what is told
// of one mark. Each is the call over lists, and the ones that own their memory are those that are lent it.
#![tactic(auto, unfolding(crate::specs::Gate::verdict_of, gate_boards::specs::Verdict::verdict_of, gate_lists::specs::Which::gate_called))]

ghost use Rattle.std.specs.Prelude.{◌≡◌, length};
ghost use Rattle.parts.specs.Files.{new_file};
ghost use Rattle.bundle_layout.specs.Change.{output};
ghost use Rattle.mark_numbers.specs.Marks.{fresh_marks};
ghost use Rattle.board.specs.Board.{marks_on};
ghost use Rattle.gate_calls.specs.Calls.{judgement, tried, change_made};
ghost use Rattle.gate_calls.specs.Lent.{judged_in, tried_in, made_in, output_in, judge_left, change_left};
ghost use Rattle.gate_calls.specs.Reasons.{reason_of, reason_asked, shown_part, value_shown, reason_left};
ghost use Rattle.schedule.specs.Schedule.{schedule};
ghost use Rattle.gate.specs.Gate.{verdict_of};

use board::Board;
use gate_lists::{Which, reason_lists};
use parts::part;
use reason_answer::{Reason, Shown};

// How a call ends: a refusal or 0, the length of the bundle that was judged (0 if refused), the board.
pub type Verdict = gate_boards::Verdict<81>;

// Judges a bundle in full in a lent workspace, whatever that holds. One of fewer than 794,702 numbers
// is refused as 14, before all else.
pub fn judge_in(bundle: &[u8], work: &mut [u32]) -> Verdict
    ensures value { result ≡ verdict_of (judged_in schedule bundle.now (length work.old) (fresh_marks 81)) }
    ensures work_after { work.new ≡ judge_left schedule bundle.now result.refusal work.old }
{
    gate_boards::judge_in(Which::Schedule, bundle, work)
}

// Judges a bundle in full.
pub fn judge(bundle: &[u8]) -> Verdict
    ensures { result ≡ verdict_of (judgement schedule bundle.now) }
{
    gate_boards::judge::<81, 794702>(Which::Schedule, bundle)
}

// Tries a change of file k, to new bytes or, where `present` is false, to none: what making it into an
// output long enough would answer. Nothing is written. The workspace is lent, as `judge_in` has it.
pub fn try_in<'a>(
    bundle: &'a [u8],
    board: Board,
    k: usize,
    present: bool,
    new: &'a [u8],
    work: &mut [u32],
) -> Verdict
    ensures value { result ≡ verdict_of (tried_in schedule bundle.now k (new_file present new.now) (length work.old) (marks_on board)) }
    ensures work_after { work.new ≡ change_left schedule bundle.now k (new_file present new.now) result.refusal work.old }
{
    gate_boards::try_in(Which::Schedule, bundle, board, k, present, new, work)
}

// Tries a change.
pub fn try_change<'a>(
    bundle: &'a [u8],
    board: Board,
    k: usize,
    present: bool,
    new: &'a [u8],
) -> Verdict
    ensures { result ≡ verdict_of (tried schedule bundle.now k (new_file present new.now) (marks_on board)) }
{
    gate_boards::try_change::<81, 794702>(Which::Schedule, bundle, board, k, present, new)
}

// Makes a change in a lent workspace: the new bundle goes to the front of `out`, unless it is refused;
// where the workspace is too short, nothing is written.
pub fn make_in<'a>(
    bundle: &'a [u8],
    board: Board,
    k: usize,
    present: bool,
    new: &'a [u8],
    out: &mut [u8],
    work: &mut [u32],
) -> Verdict
    ensures value { result ≡ verdict_of (made_in schedule bundle.now k (new_file present new.now) (length out.old) (length work.old) (marks_on board)) }
    ensures out_after { out.new ≡ output_in schedule bundle.now k (new_file present new.now) (length work.old) (marks_on board) out.old }
    ensures work_after { work.new ≡ change_left schedule bundle.now k (new_file present new.now) result.refusal work.old }
{
    gate_boards::make_in(Which::Schedule, bundle, board, k, present, new, out, work)
}

// Makes a change.
pub fn make_change<'a>(
    bundle: &'a [u8],
    board: Board,
    k: usize,
    present: bool,
    new: &'a [u8],
    out: &mut [u8],
) -> Verdict
    ensures value { result ≡ verdict_of (change_made schedule bundle.now k (new_file present new.now) (marks_on board) (length out.old)) }
    ensures out_after { out.new ≡ output 20 bundle.now k (new_file present new.now) out.old }
{
    gate_boards::make_change::<81, 794702>(Which::Schedule, bundle, board, k, present, new, out)
}

// What is told of a mark of a bundle, in a lent workspace, whatever that holds. One of fewer than 794,702
// numbers is refused as 14, before all else.
pub fn reason_in(bundle: &[u8], mark: usize, work: &mut [u32]) -> Reason
    ensures value { result ≡ reason_asked schedule bundle.now (length work.old) mark }
    ensures work_after { work.new ≡ reason_left schedule bundle.now mark result work.old }
{
    reason_lists(Which::Schedule, bundle, mark, work)
}

// What is told of a mark of a bundle.
pub fn reason(bundle: &[u8], mark: usize) -> Reason
    ensures { result ≡ reason_of schedule bundle.now mark }
{
    gate_boards::reason::<794702>(Which::Schedule, bundle, mark)
}

fn shown_part(bundle: &[u8], shown: Shown) -> &[u8]
    ensures { result.now ≡ shown_part bundle.now shown }
{
    let start = shown.start;
    let length = shown.length;
    if bundle.len() < length {
        return &bundle[..0];
    }
    if bundle.len() - length < start {
        return &bundle[..0];
    }
    part(bundle, start, start + length)
}

// The value that is shown, as that part of the bundle itself; empty for null and for every answer that
// shows none.
pub fn value_shown(bundle: &[u8], told: Reason) -> &[u8]
    ensures { result.now ≡ value_shown bundle.now told }
{
    match told {
        Reason::Broken { shown } => shown_part(bundle, shown),
        Reason::Missing { shown, .. } => shown_part(bundle, shown),
        _ => &bundle[..0],
    }
}
