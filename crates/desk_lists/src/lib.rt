// One desk judged on the joined set (document 02, order 10), over what a caller lends: a workspace, and
// lists for the marks. The set's files are read where they stand: the desk's own in its bundle, the
// calendars in theirs, and a changed file in the new bytes.
#![tactic(auto, unfolding(crate::specs::Seen::is_seen, desks_calls::specs::Join::or_else))]

ghost use Rattle.std.specs.Prelude.{◌≡◌, cond, List, ℕ, ◌+◌, ◌≤◌, ◌<◌, ◌/◌, length, ltb};
ghost use Rattle.parts.specs.Files.{new_file};
ghost use Rattle.standing.specs.Standing.{standing, standing_with};
ghost use Rattle.mark_numbers.specs.Marks.{marks_in};
ghost use Rattle.bundle_bytes.specs.Pieces.{changed};
ghost use Rattle.bundle_layout.specs.Bundle.{offset_at, length_at, is_omitted};
ghost use Rattle.gate_calls.specs.Calls.{changed_marks};
ghost use Rattle.gate_calls.specs.Lent.{lent_fault};
ghost use Rattle.gate_marks.specs.Again.{work_judged};
ghost use Rattle.gate_marks.specs.declared.Scope.TheVariants.{Change};
ghost use Rattle.schedule.specs.Schedule.{schedule};
ghost use Rattle.desks_calls.specs.Join.{joined_set, or_else, join_fault};
ghost use Rattle.desks_calls.specs.Desks.{sight_of};
ghost use Rattle.desks_calls.specs.Lent.{judged_join_in, desk_in, join_left, desk_left};
ghost use Rattle.desk_lists.specs.Seen.{is_seen};

use bundle::{is_omitted, length_at, offset_at};
use desk_refusals::{desk_fault, is_shared, join_fault};
use desks_calls::Seen;
use gate_lists::{Which, lent_fault};
use gate_marks::Scope;
use mark_numbers::make_fresh;
use schedule::schedule_marks;
use standing::place;

fn slice_number(absent: bool, number: usize) -> usize
    ensures { result ≡ cond absent 0 number }
{
    if absent { 0 } else { number }
}

// Puts down where file k of a bundle stands, by the number of the bundle's slice.
fn stand_file(s: &[u8], number: usize, k: usize, stand: &mut [usize])
    ensures { stand.new ≡ cond (ltb k (length stand.old / 3)) (standing_with stand.old k (cond (is_omitted s.now k) 0 number) (offset_at s.now k) (offset_at s.now k + length_at s.now k)) stand.old }
{
    let from = offset_at(s, k);
    let to = from + length_at(s, k);
    place(stand, k, slice_number(is_omitted(s, k), number), from, to);
}

// Puts down where the files of the joined set stand: the desk's in the first slice, the calendars in the
// second.
fn stand_join(desk: &[u8], shared: &[u8], stand: &mut [usize])
    requires { 20 ≤ length stand.old / 3 }
    ensures { (new : List ℕ) (i : ℕ) → i < 20 → standing desk.now shared.now new stand.new i ≡ joined_set desk.now shared.now i }
{
    for k in 0..20 {
        if is_shared(k) {
            stand_file(shared, 2, k, stand);
        } else {
            stand_file(desk, 1, k, stand);
        }
    }
}

// The refusal of a desk by the bundles, unless another fault comes before it.
fn join_refusal(desk: &[u8], shared: &[u8], fault: u32) -> u32
    ensures { result ≡ or_else fault (join_fault 20 desk.now shared.now) }
{
    if fault == 0 {
        join_fault(desk, shared)
    } else {
        fault
    }
}

// Judges a desk in full in a lent workspace, whatever that holds: its marks go to the lists.
pub fn judge_joined_lists<'a>(
    desk: &'a [u8],
    shared: &'a [u8],
    work: &mut [u32],
    kinds: &mut [u32],
    places: &mut [usize],
    companions: &mut [usize],
) -> u32
    ensures value { result ≡ (judged_join_in schedule desk.now shared.now (length work.old) (marks_in kinds.old places.old companions.old)).refusal }
    ensures board_after { marks_in kinds.new places.new companions.new ≡ (judged_join_in schedule desk.now shared.now (length work.old) (marks_in kinds.old places.old companions.old)).marks }
    ensures work_after { work.new ≡ join_left schedule desk.now shared.now result work.old }
{
    let fault = lent_fault(Which::Schedule, work.len(), kinds, places, companions);
    if fault == 100 {
        return 100;
    }
    let refusal = join_refusal(desk, shared, fault);
    if refusal != 0 {
        make_fresh(kinds, places, companions);
        return refusal;
    }
    let mut stand = [0usize; 96];
    stand_join(desk, shared, &mut stand);
    let none = &desk[..0];
    schedule_marks(
        desk,
        shared,
        none,
        &stand,
        Scope::Full,
        work,
        kinds,
        places,
        companions,
    );
    0
}

fn new_number(present: bool) -> usize
    ensures { result ≡ cond present 3 0 }
{
    if present { 3 } else { 0 }
}

// Judges again the marks that read file k, from the joined set as it stands after the change.
fn judge_again<'a>(
    desk: &'a [u8],
    shared: &'a [u8],
    k: usize,
    present: bool,
    new: &'a [u8],
    work: &mut [u32],
    kinds: &mut [u32],
    places: &mut [usize],
    companions: &mut [usize],
)
    requires no_lent_fault { lent_fault schedule (length work.old) (marks_in kinds.old places.old companions.old) ≡ 0 }
    requires k_bound { k < 20 }
    ensures board_after { marks_in kinds.new places.new companions.new ≡ changed_marks schedule k (changed (joined_set desk.now shared.now) k (new_file present new.now)) (marks_in kinds.old places.old companions.old) }
    ensures work_after { work.new ≡ work_judged schedule (Change k) (changed (joined_set desk.now shared.now) k (new_file present new.now)) work.old }
{
    let mut stand = [0usize; 96];
    stand_join(desk, shared, &mut stand);
    place(&mut stand, k, new_number(present), 0, new.len());
    schedule_marks(
        desk,
        shared,
        new,
        &stand,
        Scope::Change { file: k },
        work,
        kinds,
        places,
        companions,
    );
}

fn sees(seen: Seen) -> bool
    ensures { result ≡ is_seen seen }
{
    matches!(seen, Seen::Own | Seen::Shared)
}

// Answers one desk: its refusal or 0. The lists get its marks after a change that it sees, unless it is
// refused.
pub fn desk_lists<'a>(
    desk: &'a [u8],
    shared: &'a [u8],
    seen: Seen,
    k: usize,
    present: bool,
    new: &'a [u8],
    room: usize,
    work: &mut [u32],
    kinds: &mut [u32],
    places: &mut [usize],
    companions: &mut [usize],
) -> u32
    ensures value { result ≡ (desk_in schedule desk.now shared.now (sight_of seen k (new_file present new.now) room) (length work.old) (marks_in kinds.old places.old companions.old)).refusal }
    ensures board_after { marks_in kinds.new places.new companions.new ≡ (desk_in schedule desk.now shared.now (sight_of seen k (new_file present new.now) room) (length work.old) (marks_in kinds.old places.old companions.old)).marks }
    ensures work_after { work.new ≡ desk_left schedule desk.now shared.now (sight_of seen k (new_file present new.now) room) result work.old }
{
    let fault = lent_fault(Which::Schedule, work.len(), kinds, places, companions);
    if fault != 0 {
        return fault;
    }
    let refusal = desk_fault(desk, shared, seen, k, present, new, room);
    if refusal != 0 {
        return refusal;
    }
    if sees(seen) {
        judge_again(
            desk, shared, k, present, new, work, kinds, places, companions,
        );
        return 0;
    }
    0
}
