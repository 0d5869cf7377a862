// The calls of any gate with a board of its N marks: judge a bundle in full, try a change, make it; and what is
// told of one mark. Each is the call over lists, and the ones that own their memory are those that are lent it.
#![tactic(auto)]

ghost use Rattle.std.specs.Prelude.{◌≡◌, ◌≤◌, true, length};
ghost use Rattle.parts.specs.Files.{new_file};
ghost use Rattle.bundle_layout.specs.Change.{output};
ghost use Rattle.mark_numbers.specs.Marks.{fresh_marks};
ghost use Rattle.boards.specs.Board.{marks_on};
ghost use Rattle.gate_marks.specs.Gate.{marks_of};
ghost use Rattle.gate_marks.specs.Again.{room_is_there};
ghost use Rattle.gate_calls.specs.Calls.{judgement, tried, change_made};
ghost use Rattle.gate_calls.specs.Lent.{judged_in, tried_in, made_in, output_in, judge_left, change_left};
ghost use Rattle.gate_calls.specs.Reasons.{reason_of};
ghost use Rattle.gate_lists.specs.Which.{gate_called};
ghost use Rattle.gate_boards.specs.Verdict.{verdict_of};

use boards::Board;
use gate_lists::{Which, judge_lists, make_lists, reason_lists, try_lists};
use reason_answer::Reason;

// How a call ends: a refusal or 0, the length of the bundle that was judged (0 if refused), the board.
#[derive(Clone, Copy)]
pub struct Verdict<const N: usize> {
    pub refusal: u32,
    pub length: usize,
    pub board: Board<N>,
}

// Judges a bundle in full in a lent workspace, whatever that holds. One that is too short for the gate is
// refused as 14, before all else.
pub fn judge_in<const N: usize>(which: Which, bundle: &[u8], work: &mut [u32]) -> Verdict<N>
    ensures value { result ≡ verdict_of (judged_in (gate_called which) bundle.now (length work.old) (fresh_marks N)) }
    ensures work_after { work.new ≡ judge_left (gate_called which) bundle.now result.refusal work.old }
{
    let mut board: Board<N> = boards::fresh();
    let made = judge_lists(
        which,
        bundle,
        work,
        &mut board.kinds,
        &mut board.places,
        &mut board.companions,
    );
    Verdict {
        refusal: made.refusal,
        length: made.length,
        board,
    }
}

// Judges a bundle in full, in a workspace of its own of W numbers.
pub fn judge<const N: usize, const W: usize>(which: Which, bundle: &[u8]) -> Verdict<N>
    requires marks { marks_of (gate_called which) ≡ N }
    requires room { room_is_there (gate_called which) W ≡ true }
    requires size { W ≤ 1048576 }
    ensures { result ≡ verdict_of (judgement (gate_called which) bundle.now) }
{
    let mut work = [0u32; W];
    judge_in(which, bundle, &mut work)
}

// Tries a change of file k, to new bytes or, where `present` is false, to none: what making it into an
// output long enough would answer. Nothing is written. The workspace is lent, as `judge_in` has it.
pub fn try_in<'a, const N: usize>(
    which: Which,
    bundle: &'a [u8],
    board: Board<N>,
    k: usize,
    present: bool,
    new: &'a [u8],
    work: &mut [u32],
) -> Verdict<N>
    ensures value { result ≡ verdict_of (tried_in (gate_called which) bundle.now k (new_file present new.now) (length work.old) (marks_on board.entry)) }
    ensures work_after { work.new ≡ change_left (gate_called which) bundle.now k (new_file present new.now) result.refusal work.old }
{
    let mut board = board;
    let made = try_lists(
        which,
        bundle,
        k,
        present,
        new,
        work,
        &mut board.kinds,
        &mut board.places,
        &mut board.companions,
    );
    Verdict {
        refusal: made.refusal,
        length: made.length,
        board,
    }
}

// Tries a change, in a workspace of its own of W numbers.
pub fn try_change<'a, const N: usize, const W: usize>(
    which: Which,
    bundle: &'a [u8],
    board: Board<N>,
    k: usize,
    present: bool,
    new: &'a [u8],
) -> Verdict<N>
    requires marks { marks_of (gate_called which) ≡ N }
    requires room { room_is_there (gate_called which) W ≡ true }
    requires size { W ≤ 1048576 }
    ensures { result ≡ verdict_of (tried (gate_called which) bundle.now k (new_file present new.now) (marks_on board.entry)) }
{
    let mut work = [0u32; W];
    try_in(which, bundle, board, k, present, new, &mut work)
}

// Makes a change in a lent workspace: the new bundle goes to the front of `out`, unless it is refused;
// where the workspace is too short, nothing is written.
pub fn make_in<'a, const N: usize>(
    which: Which,
    bundle: &'a [u8],
    board: Board<N>,
    k: usize,
    present: bool,
    new: &'a [u8],
    out: &mut [u8],
    work: &mut [u32],
) -> Verdict<N>
    ensures value { result ≡ verdict_of (made_in (gate_called which) bundle.now k (new_file present new.now) (length out.old) (length work.old) (marks_on board.entry)) }
    ensures out_after { out.new ≡ output_in (gate_called which) bundle.now k (new_file present new.now) (length work.old) (marks_on board.entry) out.old }
    ensures work_after { work.new ≡ change_left (gate_called which) bundle.now k (new_file present new.now) result.refusal work.old }
{
    let mut board = board;
    let made = make_lists(
        which,
        bundle,
        k,
        present,
        new,
        out,
        work,
        &mut board.kinds,
        &mut board.places,
        &mut board.companions,
    );
    Verdict {
        refusal: made.refusal,
        length: made.length,
        board,
    }
}

// Makes a change, in a workspace of its own of W numbers.
pub fn make_change<'a, const N: usize, const W: usize>(
    which: Which,
    bundle: &'a [u8],
    board: Board<N>,
    k: usize,
    present: bool,
    new: &'a [u8],
    out: &mut [u8],
) -> Verdict<N>
    requires marks { marks_of (gate_called which) ≡ N }
    requires room { room_is_there (gate_called which) W ≡ true }
    requires size { W ≤ 1048576 }
    ensures value { result ≡ verdict_of (change_made (gate_called which) bundle.now k (new_file present new.now) (marks_on board.entry) (length out.old)) }
    ensures out_after { out.new ≡ output (gate_called which).files bundle.now k (new_file present new.now) out.old }
{
    let mut work = [0u32; W];
    make_in(which, bundle, board, k, present, new, out, &mut work)
}

// What is told of a mark of a bundle, in a workspace of its own of W numbers.
pub fn reason<const W: usize>(which: Which, bundle: &[u8], mark: usize) -> Reason
    requires room { room_is_there (gate_called which) W ≡ true }
    requires size { W ≤ 1048576 }
    ensures { result ≡ reason_of (gate_called which) bundle.now mark }
{
    let mut work = [0u32; W];
    reason_lists(which, bundle, mark, &mut work)
}
