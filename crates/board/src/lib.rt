// The board of document 01: 81 kinds, 81 places and 81 companions.
#![tactic(auto, unfolding(crate::specs::Board::fresh_board, crate::specs::Board::faults_of, crate::specs::Board::accepted_board, boards::specs::Board::faults_of, boards::specs::Board::accepted_board))]

ghost use Rattle.std.specs.Prelude.{◌≡◌, cond, ◌++◌, ◌≤◌, length, drop, leb};
ghost use Rattle.report.specs.Report.{report_of};
ghost use Rattle.board.specs.Board.{marks_on, fresh_board, faults_of, accepted_board};

pub type Board = boards::Board<81>;

// A fresh board: every mark 'not judged'.
pub fn fresh() -> Board
    ensures { result ≡ fresh_board }
{
    boards::fresh()
}

// How many marks don't hold.
pub fn faults_on(board: Board) -> usize
    ensures { result ≡ faults_of board }
{
    boards::faults_on(board)
}

// A set is accepted if all of its marks hold.
pub fn is_accepted(board: Board) -> bool
    ensures { result ≡ accepted_board board }
{
    boards::is_accepted(board)
}

// Writes the text of a refusal, or with none that of a board, to the front of an output of at least
// 6,144 bytes, which holds every such text; answers its length.
pub fn report_board(refusal: u32, board: Board, out: &mut [u8]) -> usize
    ensures value { result ≡ cond (leb 6144 (length out.old)) (length (report_of refusal (marks_on board))) 0 }
    ensures out_after { out.new ≡ cond (leb 6144 (length out.old)) (report_of refusal (marks_on board) ++ drop (length (report_of refusal (marks_on board))) out.old) out.old }
    ensures upper_bound { result ≤ length out.old }
{
    boards::report_board(refusal, board, out)
}
