// Document 02, order 10, with boards: two desks, each judged on its own files joined with one set of
// calendars. Judge a desk in full, try a change, make it. Each call is the one over lists, and the ones that
// own their memory are those that are lent it.
#![tactic(auto)]

ghost use Rattle.std.specs.Prelude.{◌≡◌, length};
ghost use Rattle.parts.specs.Files.{new_file};
ghost use Rattle.mark_numbers.specs.Marks.{fresh_marks};
ghost use Rattle.board.specs.Board.{marks_on};
ghost use Rattle.schedule.specs.Schedule.{schedule};
ghost use Rattle.desks_calls.specs.Join.{judged_join};
ghost use Rattle.desks_calls.specs.Desks.{desks_answer, desks_output, long_enough};
ghost use Rattle.desks_calls.specs.Lent.{judged_join_in, desks_in, desks_output_in, join_left, desks_left};
ghost use Rattle.desks.specs.Desks.{desk_of, desks_of};

use board::Board;
use both_desks::{answer_lists, change_lists};
use desk_lists::judge_joined_lists;
use desks_calls::Whose;

// How a call ends for a desk: a refusal or 0, and its board.
#[derive(Clone, Copy)]
pub struct Desk {
    pub refusal: u32,
    pub board: Board,
}

// For both, with the length of the new bundle, 0 where none is written.
#[derive(Clone, Copy)]
pub struct Desks {
    pub a: Desk,
    pub b: Desk,
    pub size: usize,
}

// Judges a desk in full in a lent workspace, whatever that holds. One of fewer than 794,702 numbers is
// refused as 14, before all else.
pub fn judge_joined_in<'a>(desk: &'a [u8], shared: &'a [u8], work: &mut [u32]) -> Desk
    ensures value { result ≡ desk_of (judged_join_in schedule desk.now shared.now (length work.old) (fresh_marks 81)) }
    ensures work_after { work.new ≡ join_left schedule desk.now shared.now result.refusal work.old }
{
    let mut kinds = [2u32; 81];
    let mut places = [0usize; 81];
    let mut companions = [0usize; 81];
    let refusal = judge_joined_lists(desk, shared, work, &mut kinds, &mut places, &mut companions);
    let board = Board {
        kinds,
        places,
        companions,
    };
    Desk { refusal, board }
}

// Judges a desk in full.
pub fn judge_joined<'a>(desk: &'a [u8], shared: &'a [u8]) -> Desk
    ensures { result ≡ desk_of (judged_join schedule desk.now shared.now) }
{
    let mut work = [0u32; 794702];
    judge_joined_in(desk, shared, &mut work)
}

// Tries a change of file k, to new bytes or, where `present` is false, to none: what making it into an
// output long enough would answer. Nothing is written. The workspace is lent, as `judge_joined_in` has it.
pub fn try_desks_in<'a>(
    a: &'a [u8],
    b: &'a [u8],
    shared: &'a [u8],
    board_a: Board,
    board_b: Board,
    whose: Whose,
    k: usize,
    present: bool,
    new: &'a [u8],
    work: &mut [u32],
) -> Desks
    ensures value { result ≡ desks_of (desks_in schedule a.now b.now shared.now (length work.old) (marks_on board_a) (marks_on board_b) whose k (new_file present new.now) long_enough) }
    ensures work_after { work.new ≡ desks_left schedule a.now b.now shared.now whose k (new_file present new.now) long_enough result.a.refusal result.b.refusal work.old }
{
    let mut kinds_a = board_a.kinds;
    let mut places_a = board_a.places;
    let mut companions_a = board_a.companions;
    let mut kinds_b = board_b.kinds;
    let mut places_b = board_b.places;
    let mut companions_b = board_b.companions;
    let answer = answer_lists(
        a,
        b,
        shared,
        whose,
        k,
        present,
        new,
        1048576,
        work,
        &mut kinds_a,
        &mut places_a,
        &mut companions_a,
        &mut kinds_b,
        &mut places_b,
        &mut companions_b,
    );
    let after_a = Board {
        kinds: kinds_a,
        places: places_a,
        companions: companions_a,
    };
    let after_b = Board {
        kinds: kinds_b,
        places: places_b,
        companions: companions_b,
    };
    let desk_a = Desk {
        refusal: answer.a,
        board: after_a,
    };
    let desk_b = Desk {
        refusal: answer.b,
        board: after_b,
    };
    Desks {
        a: desk_a,
        b: desk_b,
        size: answer.size,
    }
}

// Tries a change.
pub fn try_desks<'a>(
    a: &'a [u8],
    b: &'a [u8],
    shared: &'a [u8],
    board_a: Board,
    board_b: Board,
    whose: Whose,
    k: usize,
    present: bool,
    new: &'a [u8],
) -> Desks
    ensures { result ≡ desks_of (desks_answer schedule a.now b.now shared.now (marks_on board_a) (marks_on board_b) whose k (new_file present new.now) long_enough) }
{
    let mut work = [0u32; 794702];
    try_desks_in(
        a, b, shared, board_a, board_b, whose, k, present, new, &mut work,
    )
}

// Makes a change in a lent workspace: the new bundle goes to the front of `out`, unless each desk that the
// change concerns is refused.
pub fn change_desks_in<'a>(
    a: &'a [u8],
    b: &'a [u8],
    shared: &'a [u8],
    board_a: Board,
    board_b: Board,
    whose: Whose,
    k: usize,
    present: bool,
    new: &'a [u8],
    out: &mut [u8],
    work: &mut [u32],
) -> Desks
    ensures value { result ≡ desks_of (desks_in schedule a.now b.now shared.now (length work.old) (marks_on board_a) (marks_on board_b) whose k (new_file present new.now) (length out.old)) }
    ensures out_after { out.new ≡ desks_output_in schedule a.now b.now shared.now (length work.old) (marks_on board_a) (marks_on board_b) whose k (new_file present new.now) out.old }
    ensures work_after { work.new ≡ desks_left schedule a.now b.now shared.now whose k (new_file present new.now) (length out.old) result.a.refusal result.b.refusal work.old }
{
    let mut kinds_a = board_a.kinds;
    let mut places_a = board_a.places;
    let mut companions_a = board_a.companions;
    let mut kinds_b = board_b.kinds;
    let mut places_b = board_b.places;
    let mut companions_b = board_b.companions;
    let answer = change_lists(
        a,
        b,
        shared,
        whose,
        k,
        present,
        new,
        out,
        work,
        &mut kinds_a,
        &mut places_a,
        &mut companions_a,
        &mut kinds_b,
        &mut places_b,
        &mut companions_b,
    );
    let after_a = Board {
        kinds: kinds_a,
        places: places_a,
        companions: companions_a,
    };
    let after_b = Board {
        kinds: kinds_b,
        places: places_b,
        companions: companions_b,
    };
    let desk_a = Desk {
        refusal: answer.a,
        board: after_a,
    };
    let desk_b = Desk {
        refusal: answer.b,
        board: after_b,
    };
    Desks {
        a: desk_a,
        b: desk_b,
        size: answer.size,
    }
}

// Makes a change.
pub fn change_desks<'a>(
    a: &'a [u8],
    b: &'a [u8],
    shared: &'a [u8],
    board_a: Board,
    board_b: Board,
    whose: Whose,
    k: usize,
    present: bool,
    new: &'a [u8],
    out: &mut [u8],
) -> Desks
    ensures value { result ≡ desks_of (desks_answer schedule a.now b.now shared.now (marks_on board_a) (marks_on board_b) whose k (new_file present new.now) (length out.old)) }
    ensures out_after { out.new ≡ desks_output schedule a.now b.now shared.now (marks_on board_a) (marks_on board_b) whose k (new_file present new.now) out.old }
{
    let mut work = [0u32; 794702];
    change_desks_in(
        a, b, shared, board_a, board_b, whose, k, present, new, out, &mut work,
    )
}
