// Both desks in one call (document 02, order 10), over what a caller lends: a workspace, and for each desk
// lists for its marks.
#![tactic(auto, unfolding(desks_calls::specs::Desks::seen_by_a, desks_calls::specs::Desks::seen_by_b, desks_calls::specs::Desks::bundle_changed, desks_calls::specs::Desks::is_written))]

ghost use Rattle.std.specs.Prelude.{◌≡◌, true, cond, ◌||◌, length, eqb};
ghost use Rattle.parts.specs.Files.{new_file};
ghost use Rattle.mark_numbers.specs.Marks.{marks_in};
ghost use Rattle.bundle_layout.specs.Bundle.{bundle_length};
ghost use Rattle.bundle_layout.specs.Change.{files_after, try_fault, output};
ghost use Rattle.schedule.specs.Schedule.{schedule};
ghost use Rattle.desks_calls.specs.Desks.{seen_by_a, seen_by_b, bundle_changed, is_written};
ghost use Rattle.desks_calls.specs.Lent.{desks_in, desks_output_in, desks_left};
ghost use Rattle.both_desks.specs.Refusals.{refusals_of};

use bundle::{make_bundle, try_bundle};
use desk_lists::desk_lists;
use desks_calls::{Seen, Whose};

// How a call ends for both: their refusals, each or 0, and the length of the new bundle, 0 where none is
// written.
#[derive(Clone, Copy)]
pub struct Refusals {
    pub a: u32,
    pub b: u32,
    pub size: usize,
}

fn seen_by_a(whose: Whose) -> Seen
    ensures { result ≡ seen_by_a whose }
{
    match whose {
        Whose::DeskA => Seen::Own,
        Whose::DeskB => Seen::Nothing,
        Whose::Calendars => Seen::Shared,
    }
}

fn seen_by_b(whose: Whose) -> Seen
    ensures { result ≡ seen_by_b whose }
{
    match whose {
        Whose::DeskA => Seen::Nothing,
        Whose::DeskB => Seen::Own,
        Whose::Calendars => Seen::Shared,
    }
}

// The bundle that is changed.
fn bundle_changed<'a>(whose: Whose, a: &'a [u8], b: &'a [u8], shared: &'a [u8]) -> &'a [u8]
    ensures { result.now ≡ bundle_changed whose a.now b.now shared.now }
{
    match whose {
        Whose::DeskA => a,
        Whose::DeskB => b,
        Whose::Calendars => shared,
    }
}

// Whether the new bundle is written, by the refusals of both desks.
fn is_written(whose: Whose, a: u32, b: u32) -> bool
    ensures { result ≡ is_written whose a b }
{
    match whose {
        Whose::DeskA => a == 0,
        Whose::DeskB => b == 0,
        Whose::Calendars => either_none(a, b),
    }
}

fn either_none(a: u32, b: u32) -> bool
    ensures { result ≡ eqb a 0 || eqb b 0 }
{
    a == 0 || b == 0
}

// How long the new bundle is, where it is written.
fn written_length<'a>(s: &'a [u8], k: usize, present: bool, new: &'a [u8], written: bool) -> usize
    requires { written ≡ true → try_fault 20 s.now k (new_file present new.now) ≡ 0 }
    ensures { result ≡ cond written (bundle_length 20 (files_after s.now k (new_file present new.now))) 0 }
{
    if !written {
        return 0;
    }
    try_bundle(s, 20, k, present, new).length
}

// Answers both desks, for an output of so many bytes; but for their marks nothing is written. With room for
// the longest bundle this tries the change.
pub fn answer_lists<'a>(
    a: &'a [u8],
    b: &'a [u8],
    shared: &'a [u8],
    whose: Whose,
    k: usize,
    present: bool,
    new: &'a [u8],
    room: usize,
    work: &mut [u32],
    kinds_a: &mut [u32],
    places_a: &mut [usize],
    companions_a: &mut [usize],
    kinds_b: &mut [u32],
    places_b: &mut [usize],
    companions_b: &mut [usize],
) -> Refusals
    ensures value { result ≡ refusals_of (desks_in schedule a.now b.now shared.now (length work.old) (marks_in kinds_a.old places_a.old companions_a.old) (marks_in kinds_b.old places_b.old companions_b.old) whose k (new_file present new.now) room) }
    ensures board_a_after { marks_in kinds_a.new places_a.new companions_a.new ≡ (desks_in schedule a.now b.now shared.now (length work.old) (marks_in kinds_a.old places_a.old companions_a.old) (marks_in kinds_b.old places_b.old companions_b.old) whose k (new_file present new.now) room).a.marks }
    ensures board_b_after { marks_in kinds_b.new places_b.new companions_b.new ≡ (desks_in schedule a.now b.now shared.now (length work.old) (marks_in kinds_a.old places_a.old companions_a.old) (marks_in kinds_b.old places_b.old companions_b.old) whose k (new_file present new.now) room).b.marks }
    ensures work_after { work.new ≡ desks_left schedule a.now b.now shared.now whose k (new_file present new.now) room result.a result.b work.old }
{
    let of_a = desk_lists(
        a,
        shared,
        seen_by_a(whose),
        k,
        present,
        new,
        room,
        work,
        kinds_a,
        places_a,
        companions_a,
    );
    let of_b = desk_lists(
        b,
        shared,
        seen_by_b(whose),
        k,
        present,
        new,
        room,
        work,
        kinds_b,
        places_b,
        companions_b,
    );
    let written = is_written(whose, of_a, of_b);
    let size = written_length(
        bundle_changed(whose, a, b, shared),
        k,
        present,
        new,
        written,
    );
    Refusals {
        a: of_a,
        b: of_b,
        size,
    }
}

// Writes the new bundle, where it has a length.
fn write_bundle<'a>(
    s: &'a [u8],
    k: usize,
    present: bool,
    new: &'a [u8],
    size: usize,
    out: &mut [u8],
)
    ensures { out.new ≡ cond (eqb size 0) out.old (output 20 s.now k (new_file present new.now) out.old) }
{
    if size == 0 {
        return;
    }
    make_bundle(s, 20, k, present, new, out);
}

// Makes the change: answers both desks, and writes the new bundle to the front of `out` unless each desk
// that it concerns is refused.
pub fn change_lists<'a>(
    a: &'a [u8],
    b: &'a [u8],
    shared: &'a [u8],
    whose: Whose,
    k: usize,
    present: bool,
    new: &'a [u8],
    out: &mut [u8],
    work: &mut [u32],
    kinds_a: &mut [u32],
    places_a: &mut [usize],
    companions_a: &mut [usize],
    kinds_b: &mut [u32],
    places_b: &mut [usize],
    companions_b: &mut [usize],
) -> Refusals
    ensures value { result ≡ refusals_of (desks_in schedule a.now b.now shared.now (length work.old) (marks_in kinds_a.old places_a.old companions_a.old) (marks_in kinds_b.old places_b.old companions_b.old) whose k (new_file present new.now) (length out.old)) }
    ensures board_a_after { marks_in kinds_a.new places_a.new companions_a.new ≡ (desks_in schedule a.now b.now shared.now (length work.old) (marks_in kinds_a.old places_a.old companions_a.old) (marks_in kinds_b.old places_b.old companions_b.old) whose k (new_file present new.now) (length out.old)).a.marks }
    ensures board_b_after { marks_in kinds_b.new places_b.new companions_b.new ≡ (desks_in schedule a.now b.now shared.now (length work.old) (marks_in kinds_a.old places_a.old companions_a.old) (marks_in kinds_b.old places_b.old companions_b.old) whose k (new_file present new.now) (length out.old)).b.marks }
    ensures out_after { out.new ≡ desks_output_in schedule a.now b.now shared.now (length work.old) (marks_in kinds_a.old places_a.old companions_a.old) (marks_in kinds_b.old places_b.old companions_b.old) whose k (new_file present new.now) out.old }
    ensures work_after { work.new ≡ desks_left schedule a.now b.now shared.now whose k (new_file present new.now) (length out.old) result.a result.b work.old }
{
    let answer = answer_lists(
        a,
        b,
        shared,
        whose,
        k,
        present,
        new,
        out.len(),
        work,
        kinds_a,
        places_a,
        companions_a,
        kinds_b,
        places_b,
        companions_b,
    );
    write_bundle(
        bundle_changed(whose, a, b, shared),
        k,
        present,
        new,
        answer.size,
        out,
    );
    answer
}
