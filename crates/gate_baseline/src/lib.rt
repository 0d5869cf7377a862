// The baseline profile's calls with its board of 85 marks: judge a bundle in full, try a change, make it;
// and what is told of one mark. Each is the call over lists, and the ones that own their memory are those
// that are lent it.
#![tactic(auto, unfolding(crate::specs::Gate::verdict_of, gate_boards::specs::Verdict::verdict_of, gate_lists::specs::Which::gate_called, crate::specs::Board::fresh_board, crate::specs::Board::faults_of, crate::specs::Board::accepted_board, boards::specs::Board::faults_of, boards::specs::Board::accepted_board))]

ghost use Rattle.std.specs.Prelude.{◌≡◌, cond, ◌++◌, ◌≤◌, length, drop, leb};
ghost use Rattle.parts.specs.Files.{new_file};
ghost use Rattle.bundle_layout.specs.Change.{output};
ghost use Rattle.mark_numbers.specs.Marks.{fresh_marks};
ghost use Rattle.gate_calls.specs.Calls.{judgement, tried, change_made};
ghost use Rattle.gate_calls.specs.Lent.{judged_in, tried_in, made_in, output_in, judge_left, change_left};
ghost use Rattle.gate_calls.specs.Reasons.{reason_of, reason_asked, reason_left};
ghost use Rattle.baseline.specs.Baseline.{baseline};
ghost use Rattle.report.specs.Report.{report_of};
ghost use Rattle.gate_baseline.specs.Board.{marks_on, fresh_board, faults_of, accepted_board};
ghost use Rattle.gate_baseline.specs.Gate.{verdict_of};

use gate_lists::{Which, reason_lists};
use reason_answer::Reason;

// ---- The board

pub type Board = boards::Board<85>;

// A fresh board: every mark 'not judged'.
pub fn fresh() -> Board
    ensures { result ≡ fresh_board }
{
    boards::fresh()
}

// How many marks don't hold.
pub fn faults_on(board: Board) -> usize
    ensures { result ≡ faults_of board }
{
    boards::faults_on(board)
}

// A set is accepted if all of its marks hold.
pub fn is_accepted(board: Board) -> bool
    ensures { result ≡ accepted_board board }
{
    boards::is_accepted(board)
}

// Writes the text of a refusal, or with none that of a board, to the front of an output of at least
// 6,400 bytes, which holds every such text; answers its length.
pub fn report_board(refusal: u32, board: Board, out: &mut [u8]) -> usize
    ensures value { result ≡ cond (leb 6400 (length out.old)) (length (report_of refusal (marks_on board))) 0 }
    ensures out_after { out.new ≡ cond (leb 6400 (length out.old)) (report_of refusal (marks_on board) ++ drop (length (report_of refusal (marks_on board))) out.old) out.old }
    ensures upper_bound { result ≤ length out.old }
{
    boards::report_board(refusal, board, out)
}

// ---- The calls

// How a call ends: a refusal or 0, the length of the bundle that was judged (0 if refused), the board.
pub type Verdict = gate_boards::Verdict<85>;

// Judges a bundle in full in a lent workspace, whatever that holds. One of fewer than 794,702 numbers
// is refused as 14, before all else.
pub fn judge_in(bundle: &[u8], work: &mut [u32]) -> Verdict
    ensures value { result ≡ verdict_of (judged_in baseline bundle.now (length work.old) (fresh_marks 85)) }
    ensures work_after { work.new ≡ judge_left baseline bundle.now result.refusal work.old }
{
    gate_boards::judge_in(Which::Baseline, bundle, work)
}

// Judges a bundle in full.
pub fn judge(bundle: &[u8]) -> Verdict
    ensures { result ≡ verdict_of (judgement baseline bundle.now) }
{
    gate_boards::judge::<85, 794702>(Which::Baseline, bundle)
}

// Tries a change of file k, to new bytes or, where `present` is false, to none: what making it into an
// output long enough would answer. Nothing is written. The workspace is lent, as `judge_in` has it.
pub fn try_in<'a>(
    bundle: &'a [u8],
    board: Board,
    k: usize,
    present: bool,
    new: &'a [u8],
    work: &mut [u32],
) -> Verdict
    ensures value { result ≡ verdict_of (tried_in baseline bundle.now k (new_file present new.now) (length work.old) (marks_on board)) }
    ensures work_after { work.new ≡ change_left baseline bundle.now k (new_file present new.now) result.refusal work.old }
{
    gate_boards::try_in(Which::Baseline, bundle, board, k, present, new, work)
}

// Tries a change.
pub fn try_change<'a>(
    bundle: &'a [u8],
    board: Board,
    k: usize,
    present: bool,
    new: &'a [u8],
) -> Verdict
    ensures { result ≡ verdict_of (tried baseline bundle.now k (new_file present new.now) (marks_on board)) }
{
    gate_boards::try_change::<85, 794702>(Which::Baseline, bundle, board, k, present, new)
}

// Makes a change in a lent workspace: the new bundle goes to the front of `out`, unless it is refused;
// where the workspace is too short, nothing is written.
pub fn make_in<'a>(
    bundle: &'a [u8],
    board: Board,
    k: usize,
    present: bool,
    new: &'a [u8],
    out: &mut [u8],
    work: &mut [u32],
) -> Verdict
    ensures value { result ≡ verdict_of (made_in baseline bundle.now k (new_file present new.now) (length out.old) (length work.old) (marks_on board)) }
    ensures out_after { out.new ≡ output_in baseline bundle.now k (new_file present new.now) (length work.old) (marks_on board) out.old }
    ensures work_after { work.new ≡ change_left baseline bundle.now k (new_file present new.now) result.refusal work.old }
{
    gate_boards::make_in(Which::Baseline, bundle, board, k, present, new, out, work)
}

// Makes a change.
pub fn make_change<'a>(
    bundle: &'a [u8],
    board: Board,
    k: usize,
    present: bool,
    new: &'a [u8],
    out: &mut [u8],
) -> Verdict
    ensures value { result ≡ verdict_of (change_made baseline bundle.now k (new_file present new.now) (marks_on board) (length out.old)) }
    ensures out_after { out.new ≡ output 20 bundle.now k (new_file present new.now) out.old }
{
    gate_boards::make_change::<85, 794702>(Which::Baseline, bundle, board, k, present, new, out)
}

// What is told of a mark of a bundle, in a lent workspace, whatever that holds. One of fewer than 794,702
// numbers is refused as 14, before all else.
pub fn reason_in(bundle: &[u8], mark: usize, work: &mut [u32]) -> Reason
    ensures value { result ≡ reason_asked baseline bundle.now (length work.old) mark }
    ensures work_after { work.new ≡ reason_left baseline bundle.now mark result work.old }
{
    reason_lists(Which::Baseline, bundle, mark, work)
}

// What is told of a mark of a bundle.
pub fn reason(bundle: &[u8], mark: usize) -> Reason
    ensures { result ≡ reason_of baseline bundle.now mark }
{
    gate_boards::reason::<794702>(Which::Baseline, bundle, mark)
}
