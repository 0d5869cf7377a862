// The calls with a list of entries, over what a caller lends but the list itself: its length comes in as
// a number, and the entries are left as numbers in the workspace, behind the cells.
#![tactic(auto)]

ghost use Rattle.std.specs.Prelude.{◌≡◌, ◌≤◌, cond, length, eqb, ltb};
ghost use Rattle.parts.specs.Files.{new_file};
ghost use Rattle.mark_numbers.specs.Marks.{marks_in};
ghost use Rattle.bundle_layout.specs.Bundle.{file_at};
ghost use Rattle.bundle_layout.specs.Change.{files_after};
ghost use Rattle.schedule.specs.Schedule.{schedule};
ghost use Rattle.gate_marks.specs.declared.Scope.TheVariants.{Full, Change};
ghost use Rattle.set_entries.specs.Entries.{set_entries};
ghost use Rattle.set_entries.specs.Work.{files_in, list_space_of, set_listed};
ghost use Rattle.gate_flat.specs.Listed.{list_fault, judge_listed, try_listed, make_listed, output_after, listed_of, list_left};
ghost use Rattle.gate_flat.specs.Code.{refused_by, counted_of, unless_refused};

use bundle::{Made, bundle_fault, try_bundle};
use gate_lists::{Which, judge_lists, make_lists, try_lists};
use gate_marks::Scope;
use mark_numbers::{have_length, make_fresh};
use set_entries::list_set;

// How a call with a list ends: a refusal or 0, the length of the bundle that was judged, and how many
// entries the list starts with; both 0 if refused.
#[derive(Clone, Copy)]
pub struct Listed {
    pub refusal: u32,
    pub length: usize,
    pub entries: usize,
}

fn refused(refusal: u32) -> Listed
    ensures { result ≡ refused_by refusal }
{
    Listed {
        refusal,
        length: 0,
        entries: 0,
    }
}

// 100 where a list of marks has another length than there are marks, 14 where the workspace is too
// short, or 0.
fn list_fault(lent: usize, kinds: &[u32], places: &[usize], companions: &[usize]) -> u32
    ensures { result ≡ list_fault schedule lent (marks_in kinds.now places.now companions.now) }
{
    if !have_length(81, kinds, places, companions) {
        return 100;
    }
    if lent < 1056846 {
        return 14;
    }
    0
}

// Writes the entries into the workspace, unless there is a refusal already; 8 where they are more than
// the list has room for. Answers the refusal, or 0, and how many entries there are.
fn list_unless<'a>(
    bundle: &'a [u8],
    scope: Scope,
    present: bool,
    new: &'a [u8],
    work: &mut [u32],
    room: usize,
    refusal: u32,
) -> Listed
    requires { list_space_of schedule ≤ length work.old }
    ensures value { result ≡ counted_of refusal (set_entries schedule scope (files_in bundle.now scope (new_file present new.now))) room }
    ensures work_after { work.new ≡ unless_refused refusal (set_listed schedule scope (files_in bundle.now scope (new_file present new.now)) work.old) work.old }
{
    if refusal != 0 {
        return refused(refusal);
    }
    let n = list_set(bundle, scope, present, new, work);
    if room < n {
        return refused(8);
    }
    Listed {
        refusal: 0,
        length: 0,
        entries: n,
    }
}

// Judges a bundle in full, with a list of so many places: its marks go to the lists, the entries of its
// records behind the cells in the workspace.
pub fn judge_flat(
    bundle: &[u8],
    work: &mut [u32],
    kinds: &mut [u32],
    places: &mut [usize],
    companions: &mut [usize],
    room: usize,
) -> Listed
    ensures value { result ≡ listed_of (set_entries schedule Full (file_at bundle.now)) (judge_listed schedule bundle.now (length work.old) room (marks_in kinds.old places.old companions.old)) }
    ensures board_after { marks_in kinds.new places.new companions.new ≡ (judge_listed schedule bundle.now (length work.old) room (marks_in kinds.old places.old companions.old)).marks }
    ensures work_after { work.new ≡ list_left schedule Full (file_at bundle.now) result.refusal work.old }
{
    let fault = list_fault(work.len(), kinds, places, companions);
    if fault == 100 {
        return refused(100);
    }
    if fault != 0 {
        make_fresh(kinds, places, companions);
        return refused(fault);
    }
    let none = &bundle[..0];
    let refusal = bundle_fault(bundle, 20);
    let counted = list_unless(bundle, Scope::Full, false, none, work, room, refusal);
    if counted.refusal != 0 {
        make_fresh(kinds, places, companions);
        return refused(counted.refusal);
    }
    let made = judge_lists(Which::Schedule, bundle, work, kinds, places, companions);
    Listed {
        refusal: made.refusal,
        length: made.length,
        entries: counted.entries,
    }
}

// Tries a change of file k, to new bytes or, where `present` is false, to none, with a list of so many
// places: the entries are those of the files that the touched marks read.
pub fn try_flat<'a>(
    bundle: &'a [u8],
    k: usize,
    present: bool,
    new: &'a [u8],
    work: &mut [u32],
    kinds: &mut [u32],
    places: &mut [usize],
    companions: &mut [usize],
    room: usize,
) -> Listed
    ensures value { result ≡ listed_of (set_entries schedule (Change k) (files_after bundle.now k (new_file present new.now))) (try_listed schedule bundle.now k (new_file present new.now) (length work.old) room (marks_in kinds.old places.old companions.old)) }
    ensures board_after { marks_in kinds.new places.new companions.new ≡ (try_listed schedule bundle.now k (new_file present new.now) (length work.old) room (marks_in kinds.old places.old companions.old)).marks }
    ensures work_after { work.new ≡ list_left schedule (Change k) (files_after bundle.now k (new_file present new.now)) result.refusal work.old }
{
    let fault = list_fault(work.len(), kinds, places, companions);
    if fault != 0 {
        return refused(fault);
    }
    let tried = try_bundle(bundle, 20, k, present, new);
    let counted = list_unless(
        bundle,
        Scope::Change { file: k },
        present,
        new,
        work,
        room,
        tried.refusal,
    );
    if counted.refusal != 0 {
        return refused(counted.refusal);
    }
    let made = try_lists(
        Which::Schedule,
        bundle,
        k,
        present,
        new,
        work,
        kinds,
        places,
        companions,
    );
    Listed {
        refusal: made.refusal,
        length: made.length,
        entries: counted.entries,
    }
}

// The refusal of a change that was tried, with 5 where the output is too short.
fn output_fault(tried: Made, room: usize) -> u32
    ensures { result ≡ cond (eqb tried.refusal 0) (cond (ltb room tried.length) 5 0) tried.refusal }
{
    let refusal = tried.refusal;
    if refusal != 0 {
        return refusal;
    }
    if room < tried.length {
        return 5;
    }
    0
}

// Makes a change: the new bundle goes to the front of `out`, unless it is refused.
pub fn make_flat<'a>(
    bundle: &'a [u8],
    k: usize,
    present: bool,
    new: &'a [u8],
    out: &mut [u8],
    work: &mut [u32],
    kinds: &mut [u32],
    places: &mut [usize],
    companions: &mut [usize],
    room: usize,
) -> Listed
    ensures value { result ≡ listed_of (set_entries schedule (Change k) (files_after bundle.now k (new_file present new.now))) (make_listed schedule bundle.now k (new_file present new.now) (length out.old) (length work.old) room (marks_in kinds.old places.old companions.old)) }
    ensures board_after { marks_in kinds.new places.new companions.new ≡ (make_listed schedule bundle.now k (new_file present new.now) (length out.old) (length work.old) room (marks_in kinds.old places.old companions.old)).marks }
    ensures out_after { out.new ≡ output_after schedule result.refusal (files_after bundle.now k (new_file present new.now)) out.old }
    ensures work_after { work.new ≡ list_left schedule (Change k) (files_after bundle.now k (new_file present new.now)) result.refusal work.old }
{
    let fault = list_fault(work.len(), kinds, places, companions);
    if fault != 0 {
        return refused(fault);
    }
    let tried = try_bundle(bundle, 20, k, present, new);
    let refusal = output_fault(tried, out.len());
    let counted = list_unless(
        bundle,
        Scope::Change { file: k },
        present,
        new,
        work,
        room,
        refusal,
    );
    if counted.refusal != 0 {
        return refused(counted.refusal);
    }
    let made = make_lists(
        Which::Schedule,
        bundle,
        k,
        present,
        new,
        out,
        work,
        kinds,
        places,
        companions,
    );
    Listed {
        refusal: made.refusal,
        length: made.length,
        entries: counted.entries,
    }
}
