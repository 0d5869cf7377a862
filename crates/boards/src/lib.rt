// The board of a gate with N marks: N kinds, N places and N companions.
#![tactic(auto, unfolding(crate::specs::Board::faults_of, crate::specs::Board::accepted_board))]

ghost use Rattle.std.specs.Prelude.{◌≡◌, cond, ◌++◌, ◌≤◌, length, drop, leb};
ghost use Rattle.mark_numbers.specs.Marks.{fresh_marks};
ghost use Rattle.report.specs.Report.{report_of, text_room};
ghost use Rattle.boards.specs.Board.{board_of, marks_on, faults_of, accepted_board};

use mark_numbers::count_faults;
use report::report;

#[derive(Clone, Copy)]
pub struct Board<const N: usize> {
    pub kinds: [u32; N],
    pub places: [usize; N],
    pub companions: [usize; N],
}

// A fresh board: every mark 'not judged'.
pub fn fresh<const N: usize>() -> Board<N>
    ensures { result ≡ board_of (fresh_marks N) }
{
    Board {
        kinds: [2; N],
        places: [0; N],
        companions: [0; N],
    }
}

// How many marks don't hold.
pub fn faults_on<const N: usize>(board: Board<N>) -> usize
    ensures { result ≡ faults_of board.entry }
{
    let kinds = board.kinds;
    count_faults(&kinds)
}

// A set is accepted if all of its marks hold.
pub fn is_accepted<const N: usize>(board: Board<N>) -> bool
    ensures { result ≡ accepted_board board.entry }
{
    faults_on(board) == 0
}

// Writes the text of a refusal, or with none that of a board, to the front of an output that has room for
// every such text; answers its length.
pub fn report_board<const N: usize>(refusal: u32, board: Board<N>, out: &mut [u8]) -> usize
    requires { N ≤ 999 }
    ensures value { result ≡ cond (leb (text_room N) (length out.old)) (length (report_of refusal (marks_on board.entry))) 0 }
    ensures out_after { out.new ≡ cond (leb (text_room N) (length out.old)) (report_of refusal (marks_on board.entry) ++ drop (length (report_of refusal (marks_on board.entry))) out.old) out.old }
    ensures upper_bound { result ≤ length out.old }
{
    let kinds = board.kinds;
    let places = board.places;
    let companions = board.companions;
    report(refusal, &kinds, &places, &companions, out)
}
