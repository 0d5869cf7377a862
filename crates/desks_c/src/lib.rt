// The desks (document 02, order 10) for programs in other languages: numbers and lent lists in, a number
// out. A desk's board is three lists of 81. A try and a change answer 0, and put down what each desk is
// answered, or answer a fault of their own, 100 or 101, and write nothing.
#![tactic(auto)]

ghost use Rattle.std.specs.Prelude.{◌≡◌, length, set};
ghost use Rattle.mark_numbers.specs.Marks.{marks_in};
ghost use Rattle.schedule.specs.Schedule.{schedule};
ghost use Rattle.desks_calls.specs.Desks.{long_enough};
ghost use Rattle.desks_calls.specs.Lent.{judged_join_in, join_left};
ghost use Rattle.desks_c.specs.Calls.{whose_of, desks_call_fault, desks_called, refusals_left, size_left, work_called, desks_output_called};

use both_desks::{Refusals, answer_lists, change_lists};
use desk_lists::judge_joined_lists;
use desks_calls::Whose;

fn whose_of(number: u32) -> Whose
    ensures { result ≡ whose_of number }
{
    if number == 0 {
        return Whose::DeskA;
    }
    if number == 1 {
        return Whose::DeskB;
    }
    Whose::Calendars
}

// What is wrong with the numbers and lists of a call with a change, 100 or 101, or 0.
fn call_fault(refusals: &[u32], size: &[usize], whose: u32, present: u32) -> u32
    ensures { result ≡ desks_call_fault refusals.now size.now whose present }
{
    if refusals.len() != 2 {
        return 100;
    }
    if size.len() != 1 {
        return 100;
    }
    if 2 < whose {
        return 101;
    }
    if 1 < present {
        return 101;
    }
    0
}

// Puts down what each desk is answered.
fn put_answer(answer: Refusals, refusals: &mut [u32], size: &mut [usize])
    requires { (length refusals.old ≡ 2) × (length size.old ≡ 1) }
    ensures refusals_after { refusals.new ≡ set (set refusals.old 0 answer.a) 1 answer.b }
    ensures size_after { size.new ≡ set size.old 0 answer.size }
{
    refusals[0] = answer.a;
    refusals[1] = answer.b;
    size[0] = answer.size;
}

// Judges a desk's joined set in full: its refusal or 0; its marks go to the board.
#[unsafe(no_mangle)]
pub extern "C" fn knotsaddle_desk_judge<'a>(
    desk: &'a [u8],
    shared: &'a [u8],
    kinds: &mut [u32],
    places: &mut [usize],
    companions: &mut [usize],
    work: &mut [u32],
) -> u32
    ensures value { result ≡ (judged_join_in schedule desk.now shared.now (length work.old) (marks_in kinds.old places.old companions.old)).refusal }
    ensures board_after { marks_in kinds.new places.new companions.new ≡ (judged_join_in schedule desk.now shared.now (length work.old) (marks_in kinds.old places.old companions.old)).marks }
    ensures work_after { work.new ≡ join_left schedule desk.now shared.now result work.old }
{
    judge_joined_lists(desk, shared, work, kinds, places, companions)
}

// Tries a change of a file, to new bytes where `present` is 1 and to none where it is 0: of desk A's bundle
// where `whose` is 0, of B's where it is 1, of the calendars where it is 2. Both boards that were handed in
// give way to those that come back. `refusals` gets A's and B's, `size` the length that the new bundle would
// have.
#[unsafe(no_mangle)]
pub extern "C" fn knotsaddle_desks_try<'a>(
    a: &'a [u8],
    b: &'a [u8],
    shared: &'a [u8],
    kinds_a: &mut [u32],
    places_a: &mut [usize],
    companions_a: &mut [usize],
    kinds_b: &mut [u32],
    places_b: &mut [usize],
    companions_b: &mut [usize],
    whose: u32,
    file: usize,
    present: u32,
    new_bytes: &'a [u8],
    refusals: &mut [u32],
    size: &mut [usize],
    work: &mut [u32],
) -> u32
    ensures value { result ≡ desks_call_fault refusals.old size.old whose present }
    ensures board_a_after { marks_in kinds_a.new places_a.new companions_a.new ≡ (desks_called result a.now b.now shared.now (length work.old) (marks_in kinds_a.old places_a.old companions_a.old) (marks_in kinds_b.old places_b.old companions_b.old) whose file present new_bytes.now long_enough).a.marks }
    ensures board_b_after { marks_in kinds_b.new places_b.new companions_b.new ≡ (desks_called result a.now b.now shared.now (length work.old) (marks_in kinds_a.old places_a.old companions_a.old) (marks_in kinds_b.old places_b.old companions_b.old) whose file present new_bytes.now long_enough).b.marks }
    ensures refusals_after { refusals.new ≡ refusals_left result (desks_called result a.now b.now shared.now (length work.old) (marks_in kinds_a.old places_a.old companions_a.old) (marks_in kinds_b.old places_b.old companions_b.old) whose file present new_bytes.now long_enough) refusals.old }
    ensures size_after { size.new ≡ size_left result (desks_called result a.now b.now shared.now (length work.old) (marks_in kinds_a.old places_a.old companions_a.old) (marks_in kinds_b.old places_b.old companions_b.old) whose file present new_bytes.now long_enough) size.old }
    ensures work_after { work.new ≡ work_called result a.now b.now shared.now whose file present new_bytes.now long_enough (desks_called result a.now b.now shared.now (length work.old) (marks_in kinds_a.old places_a.old companions_a.old) (marks_in kinds_b.old places_b.old companions_b.old) whose file present new_bytes.now long_enough) work.old }
{
    let fault = call_fault(refusals, size, whose, present);
    if fault != 0 {
        return fault;
    }
    let answer = answer_lists(
        a,
        b,
        shared,
        whose_of(whose),
        file,
        present == 1,
        new_bytes,
        1048576,
        work,
        kinds_a,
        places_a,
        companions_a,
        kinds_b,
        places_b,
        companions_b,
    );
    put_answer(answer, refusals, size);
    0
}

// Makes a change, handed over as to `knotsaddle_desks_try`: the new bundle goes to the front of `out`, its
// length to `size`, unless each desk that it concerns is refused.
#[unsafe(no_mangle)]
pub extern "C" fn knotsaddle_desks_make<'a>(
    a: &'a [u8],
    b: &'a [u8],
    shared: &'a [u8],
    kinds_a: &mut [u32],
    places_a: &mut [usize],
    companions_a: &mut [usize],
    kinds_b: &mut [u32],
    places_b: &mut [usize],
    companions_b: &mut [usize],
    whose: u32,
    file: usize,
    present: u32,
    new_bytes: &'a [u8],
    out: &mut [u8],
    refusals: &mut [u32],
    size: &mut [usize],
    work: &mut [u32],
) -> u32
    ensures value { result ≡ desks_call_fault refusals.old size.old whose present }
    ensures board_a_after { marks_in kinds_a.new places_a.new companions_a.new ≡ (desks_called result a.now b.now shared.now (length work.old) (marks_in kinds_a.old places_a.old companions_a.old) (marks_in kinds_b.old places_b.old companions_b.old) whose file present new_bytes.now (length out.old)).a.marks }
    ensures board_b_after { marks_in kinds_b.new places_b.new companions_b.new ≡ (desks_called result a.now b.now shared.now (length work.old) (marks_in kinds_a.old places_a.old companions_a.old) (marks_in kinds_b.old places_b.old companions_b.old) whose file present new_bytes.now (length out.old)).b.marks }
    ensures refusals_after { refusals.new ≡ refusals_left result (desks_called result a.now b.now shared.now (length work.old) (marks_in kinds_a.old places_a.old companions_a.old) (marks_in kinds_b.old places_b.old companions_b.old) whose file present new_bytes.now (length out.old)) refusals.old }
    ensures size_after { size.new ≡ size_left result (desks_called result a.now b.now shared.now (length work.old) (marks_in kinds_a.old places_a.old companions_a.old) (marks_in kinds_b.old places_b.old companions_b.old) whose file present new_bytes.now (length out.old)) size.old }
    ensures out_after { out.new ≡ desks_output_called result a.now b.now shared.now (length work.old) (marks_in kinds_a.old places_a.old companions_a.old) (marks_in kinds_b.old places_b.old companions_b.old) whose file present new_bytes.now out.old }
    ensures work_after { work.new ≡ work_called result a.now b.now shared.now whose file present new_bytes.now (length out.old) (desks_called result a.now b.now shared.now (length work.old) (marks_in kinds_a.old places_a.old companions_a.old) (marks_in kinds_b.old places_b.old companions_b.old) whose file present new_bytes.now (length out.old)) work.old }
{
    let fault = call_fault(refusals, size, whose, present);
    if fault != 0 {
        return fault;
    }
    let answer = change_lists(
        a,
        b,
        shared,
        whose_of(whose),
        file,
        present == 1,
        new_bytes,
        out,
        work,
        kinds_a,
        places_a,
        companions_a,
        kinds_b,
        places_b,
        companions_b,
    );
    put_answer(answer, refusals, size);
    0
}
