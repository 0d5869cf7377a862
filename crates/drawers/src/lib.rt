// Document 02, order 12, with a board: judge a drawer in full, ask for a file of it, try a change, make it in
// place. Each call is the one over lists, and the ones that own their memory are those that are lent it.
#![tactic(auto)]

ghost use Rattle.std.specs.Prelude.{◌≡◌, length};
ghost use Rattle.parts.specs.Files.{new_file};
ghost use Rattle.mark_numbers.specs.Marks.{fresh_marks};
ghost use Rattle.board.specs.Board.{marks_on};
ghost use Rattle.gate_calls.specs.Lent.{judge_left, change_left};
ghost use Rattle.schedule.specs.Schedule.{schedule};
ghost use Rattle.drawer_held.specs.Drawer.{part_held, state_held, drawer_made};
ghost use Rattle.drawer_calls.specs.Calls.{drawer_judged, drawer_changed};
ghost use Rattle.drawer_calls.specs.Lent.{drawer_judged_in, drawer_changed_in, drawer_made_in};
ghost use Rattle.drawers.specs.Drawers.{drawn_of};

use board::Board;
use bundle::FileState;
use drawer_held::{held_part, held_state};
use drawer_lists::{judge_drawer_lists, make_drawer_lists, try_drawer_lists};

// How a call ends: a refusal or 0, and the board.
#[derive(Clone, Copy)]
pub struct Drawn {
    pub refusal: u32,
    pub board: Board,
}

// File k as the part of the drawer itself; empty for an omitted file and a refusal.
pub fn drawer_file(drawer: &[u8], k: usize) -> &[u8]
    ensures { result.now ≡ part_held 20 drawer.now k }
{
    held_part(drawer, k)
}

// Which of the three that part stands for.
pub fn drawer_state(drawer: &[u8], k: usize) -> FileState
    ensures { result ≡ state_held 20 drawer.now k }
{
    held_state(drawer, k)
}

// Judges a drawer in full in a lent workspace, whatever that holds. One of fewer than 794,702 numbers is
// refused as 14, before all else.
pub fn drawer_judge_in(drawer: &[u8], work: &mut [u32]) -> Drawn
    ensures value { result ≡ drawn_of (drawer_judged_in schedule drawer.now (length work.old) (fresh_marks 81)) }
    ensures work_after { work.new ≡ judge_left schedule drawer.now result.refusal work.old }
{
    let mut kinds = [2u32; 81];
    let mut places = [0usize; 81];
    let mut companions = [0usize; 81];
    let refusal = judge_drawer_lists(drawer, work, &mut kinds, &mut places, &mut companions);
    let board = Board {
        kinds,
        places,
        companions,
    };
    Drawn { refusal, board }
}

// Judges a drawer in full.
pub fn drawer_judge(drawer: &[u8]) -> Drawn
    ensures { result ≡ drawn_of (drawer_judged schedule drawer.now) }
{
    let mut work = [0u32; 794702];
    drawer_judge_in(drawer, &mut work)
}

// Tries a change of file k, to new bytes or, where `present` is false, to none: what making it answers.
// Nothing is written. The workspace is lent, as `drawer_judge_in` has it.
pub fn drawer_try_in<'a>(
    drawer: &'a [u8],
    board: Board,
    k: usize,
    present: bool,
    new: &'a [u8],
    work: &mut [u32],
) -> Drawn
    ensures value { result ≡ drawn_of (drawer_changed_in schedule drawer.now k (new_file present new.now) (length work.old) (marks_on board)) }
    ensures work_after { work.new ≡ change_left schedule drawer.now k (new_file present new.now) result.refusal work.old }
{
    let mut kinds = board.kinds;
    let mut places = board.places;
    let mut companions = board.companions;
    let refusal = try_drawer_lists(
        drawer,
        k,
        present,
        new,
        work,
        &mut kinds,
        &mut places,
        &mut companions,
    );
    let board = Board {
        kinds,
        places,
        companions,
    };
    Drawn { refusal, board }
}

// Tries a change.
pub fn drawer_try<'a>(
    drawer: &'a [u8],
    board: Board,
    k: usize,
    present: bool,
    new: &'a [u8],
) -> Drawn
    ensures { result ≡ drawn_of (drawer_changed schedule drawer.now k (new_file present new.now) (marks_on board)) }
{
    let mut work = [0u32; 794702];
    drawer_try_in(drawer, board, k, present, new, &mut work)
}

// Makes a change in place in a lent workspace, unless it is refused; where the workspace is too short,
// nothing is written.
pub fn drawer_make_in(
    drawer: &mut [u8],
    board: Board,
    k: usize,
    present: bool,
    new: &[u8],
    work: &mut [u32],
) -> Drawn
    ensures value { result ≡ drawn_of (drawer_changed_in schedule drawer.old k (new_file present new.now) (length work.old) (marks_on board)) }
    ensures drawer_after { drawer.new ≡ drawer_made_in schedule drawer.old k (new_file present new.now) (length work.old) (marks_on board) }
    ensures work_after { work.new ≡ change_left schedule drawer.old k (new_file present new.now) result.refusal work.old }
{
    let mut kinds = board.kinds;
    let mut places = board.places;
    let mut companions = board.companions;
    let refusal = make_drawer_lists(
        drawer,
        k,
        present,
        new,
        work,
        &mut kinds,
        &mut places,
        &mut companions,
    );
    let board = Board {
        kinds,
        places,
        companions,
    };
    Drawn { refusal, board }
}

// Makes a change in place.
pub fn drawer_make(drawer: &mut [u8], board: Board, k: usize, present: bool, new: &[u8]) -> Drawn
    ensures value { result ≡ drawn_of (drawer_changed schedule drawer.old k (new_file present new.now) (marks_on board)) }
    ensures drawer_after { drawer.new ≡ drawer_made 20 drawer.old k (new_file present new.now) }
{
    let mut work = [0u32; 794702];
    drawer_make_in(drawer, board, k, present, new, &mut work)
}
