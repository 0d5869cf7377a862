// The calls over a drawer (document 02, order 12) and what else a caller lends: a workspace, and lists for
// the marks. The files are read where they stand in the drawer, and a changed one in the new bytes; a change
// is judged before it is made.
#![tactic(auto)]

ghost use Rattle.std.specs.Prelude.{◌≡◌, cond, List, ℕ, ◌≤◌, ◌<◌, ◌/◌, length, eqb};
ghost use Rattle.parts.specs.Files.{new_file};
ghost use Rattle.mark_numbers.specs.Marks.{marks_in};
ghost use Rattle.bundle_layout.specs.Change.{files_after};
ghost use Rattle.gate_calls.specs.Calls.{changed_marks};
ghost use Rattle.gate_calls.specs.Lent.{lent_fault, judge_left, change_left};
ghost use Rattle.gate_marks.specs.Again.{work_judged};
ghost use Rattle.gate_marks.specs.declared.Scope.TheVariants.{Change};
ghost use Rattle.gate_lists.specs.Stands.{stands_in};
ghost use Rattle.schedule.specs.Schedule.{schedule};
ghost use Rattle.drawer_held.specs.Drawer.{drawer_fault};
ghost use Rattle.drawer_calls.specs.Lent.{drawer_judged_in, drawer_changed_in, drawer_made_in};

use bundle::{is_omitted, length_at, offset_at};
use drawer_change::change_drawer;
use drawer_held::{change_fault, drawer_fault};
use gate_lists::{Which, lent_fault};
use gate_marks::Scope;
use mark_numbers::make_fresh;
use schedule::schedule_marks;
use standing::place;

fn slice_number(absent: bool, number: usize) -> usize
    ensures { result ≡ cond absent 0 number }
{
    if absent { 0 } else { number }
}

// Puts down where the files of a drawer stand, in the first slice.
fn stand_drawer(d: &[u8], stand: &mut [usize])
    requires { 20 ≤ length stand.old / 3 }
    ensures { stand.new ≡ stands_in d.now 20 stand.old }
{
    for k in 0..20 {
        let from = offset_at(d, k);
        let to = from + length_at(d, k);
        place(stand, k, slice_number(is_omitted(d, k), 1), from, to);
    }
}

// The refusal of a drawer, unless another fault comes before it.
fn refusal_of(d: &[u8], fault: u32) -> u32
    ensures { result ≡ cond (eqb fault 0) (drawer_fault 20 d.now) fault }
{
    if fault == 0 { drawer_fault(d) } else { fault }
}

// Judges a drawer in full in a lent workspace, whatever that holds: its marks go to the lists.
pub fn judge_drawer_lists(
    d: &[u8],
    work: &mut [u32],
    kinds: &mut [u32],
    places: &mut [usize],
    companions: &mut [usize],
) -> u32
    ensures value { result ≡ (drawer_judged_in schedule d.now (length work.old) (marks_in kinds.old places.old companions.old)).refusal }
    ensures board_after { marks_in kinds.new places.new companions.new ≡ (drawer_judged_in schedule d.now (length work.old) (marks_in kinds.old places.old companions.old)).marks }
    ensures work_after { work.new ≡ judge_left schedule d.now result work.old }
{
    let fault = lent_fault(Which::Schedule, work.len(), kinds, places, companions);
    if fault == 100 {
        return 100;
    }
    let refusal = refusal_of(d, fault);
    if refusal != 0 {
        make_fresh(kinds, places, companions);
        return refusal;
    }
    let mut stand = [0usize; 96];
    stand_drawer(d, &mut stand);
    let none = &d[..0];
    schedule_marks(
        d,
        none,
        none,
        &stand,
        Scope::Full,
        work,
        kinds,
        places,
        companions,
    );
    0
}

// Judges again the marks that read file k, from the files as they stand after the change.
fn judge_again<'a>(
    d: &'a [u8],
    k: usize,
    present: bool,
    new: &'a [u8],
    work: &mut [u32],
    kinds: &mut [u32],
    places: &mut [usize],
    companions: &mut [usize],
)
    requires no_lent_fault { lent_fault schedule (length work.old) (marks_in kinds.old places.old companions.old) ≡ 0 }
    requires k_bound { k < 20 }
    ensures board_after { marks_in kinds.new places.new companions.new ≡ changed_marks schedule k (files_after d.now k (new_file present new.now)) (marks_in kinds.old places.old companions.old) }
    ensures work_after { work.new ≡ work_judged schedule (Change k) (files_after d.now k (new_file present new.now)) work.old }
{
    let mut stand = [0usize; 96];
    stand_drawer(d, &mut stand);
    place(&mut stand, k, slice_number(!present, 2), 0, new.len());
    schedule_marks(
        d,
        new,
        new,
        &stand,
        Scope::Change { file: k },
        work,
        kinds,
        places,
        companions,
    );
}

// Tries a change of file k, to new bytes or, where `present` is false, to none: what making it answers.
pub fn try_drawer_lists<'a>(
    d: &'a [u8],
    k: usize,
    present: bool,
    new: &'a [u8],
    work: &mut [u32],
    kinds: &mut [u32],
    places: &mut [usize],
    companions: &mut [usize],
) -> u32
    ensures value { result ≡ (drawer_changed_in schedule d.now k (new_file present new.now) (length work.old) (marks_in kinds.old places.old companions.old)).refusal }
    ensures board_after { marks_in kinds.new places.new companions.new ≡ (drawer_changed_in schedule d.now k (new_file present new.now) (length work.old) (marks_in kinds.old places.old companions.old)).marks }
    ensures work_after { work.new ≡ change_left schedule d.now k (new_file present new.now) result work.old }
{
    let fault = lent_fault(Which::Schedule, work.len(), kinds, places, companions);
    if fault != 0 {
        return fault;
    }
    let refusal = change_fault(d, k, present, new);
    if refusal != 0 {
        return refusal;
    }
    judge_again(d, k, present, new, work, kinds, places, companions);
    0
}

// Makes a change in place, unless it is refused.
pub fn make_drawer_lists(
    d: &mut [u8],
    k: usize,
    present: bool,
    new: &[u8],
    work: &mut [u32],
    kinds: &mut [u32],
    places: &mut [usize],
    companions: &mut [usize],
) -> u32
    ensures value { result ≡ (drawer_changed_in schedule d.old k (new_file present new.now) (length work.old) (marks_in kinds.old places.old companions.old)).refusal }
    ensures board_after { marks_in kinds.new places.new companions.new ≡ (drawer_changed_in schedule d.old k (new_file present new.now) (length work.old) (marks_in kinds.old places.old companions.old)).marks }
    ensures d_after { d.new ≡ drawer_made_in schedule d.old k (new_file present new.now) (length work.old) (marks_in kinds.old places.old companions.old) }
    ensures work_after { work.new ≡ change_left schedule d.old k (new_file present new.now) result work.old }
{
    let refusal = try_drawer_lists(d, k, present, new, work, kinds, places, companions);
    if refusal == 0 {
        change_drawer(d, k, present, new);
    }
    refusal
}
