// The calls of each gate over what a caller lends: a workspace, and lists for the marks.
#![tactic(auto)]

ghost use Rattle.std.specs.Prelude.{◌≡◌, cond, ◌+◌, ◌≤◌, ◌<◌, ◌/◌, length, eqb};
ghost use Rattle.parts.specs.Files.{new_file};
ghost use Rattle.standing.specs.Standing.{standing, start_standing};
ghost use Rattle.mark_numbers.specs.Marks.{marks_in};
ghost use Rattle.bundle_layout.specs.Bundle.{bundle_fault};
ghost use Rattle.bundle_layout.specs.Change.{files_after};
ghost use Rattle.gate_marks.specs.Gate.{marks_of};
ghost use Rattle.gate_marks.specs.Again.{workspace_of, can_judge, marks_after, work_afterwards};
ghost use Rattle.reason.specs.Reason.{reason_in, work_told};
ghost use Rattle.gate_calls.specs.Calls.{changed_marks};
ghost use Rattle.gate_calls.specs.Lent.{lent_fault, judged_in, tried_in, made_in, output_in, judge_left, change_left};
ghost use Rattle.gate_calls.specs.Reasons.{reason_asked, reason_left};
ghost use Rattle.gate_lists.specs.Which.{gate_called, made_of};
ghost use Rattle.gate_lists.specs.Stands.{stands_in};

use baseline::{baseline_marks, baseline_reason};
use bundle::{Made, bundle_fault, is_omitted, length_at, make_bundle, offset_at, try_bundle};
use contract::{contract_marks, contract_reason};
use gate_marks::Scope;
use mark_numbers::{have_length, make_fresh};
use reason_answer::Reason;
use schedule::{schedule_marks, schedule_reason};
use standing::place;

// The gates: document 01's, that of document 02's baseline profile, and that of its contract side.
#[derive(Clone, Copy)]
pub enum Which {
    Schedule,
    Baseline,
    Contract,
}

// How many files a set of the gate has.
pub fn file_count(which: Which) -> usize
    ensures { (result ≡ (gate_called which).files) × (result ≤ 32) }
{
    match which {
        Which::Schedule => 20,
        Which::Baseline => 20,
        Which::Contract => 4,
    }
}

pub fn mark_count(which: Which) -> usize
    ensures { result ≡ marks_of (gate_called which) }
{
    match which {
        Which::Schedule => 81,
        Which::Baseline => 85,
        Which::Contract => 19,
    }
}

// How many numbers a workspace takes.
pub fn workspace(which: Which) -> usize
    ensures { result ≡ workspace_of (gate_called which) }
{
    match which {
        Which::Schedule => 794702,
        Which::Baseline => 794702,
        Which::Contract => 188416,
    }
}

// 100 where a list has another length than there are marks, 14 where the workspace is too short, or 0.
pub fn lent_fault(
    which: Which,
    lent: usize,
    kinds: &[u32],
    places: &[usize],
    companions: &[usize],
) -> u32
    ensures { result ≡ lent_fault (gate_called which) lent (marks_in kinds.now places.now companions.now) }
{
    if !have_length(mark_count(which), kinds, places, companions) {
        return 100;
    }
    if lent < workspace(which) {
        return 14;
    }
    0
}

// Puts down where the first n files of a bundle stand, in the first slice.
fn stand_bundle(s: &[u8], n: usize, stand: &mut [usize])
    requires { n ≤ length stand.old / 3 }
    ensures { stand.new ≡ stands_in s.now n stand.old }
{
    let mut k = 0;
    while k < n {
        let from = offset_at(s, k);
        let to = from + length_at(s, k);
        place(stand, k, slice_number(is_omitted(s, k)), from, to);
        k += 1;
    }
}

fn slice_number(omitted: bool) -> usize
    ensures { result ≡ cond omitted 0 1 }
{
    if omitted {
        return 0;
    }
    1
}

// Judges the marks in scope of one of the gates, as `judge_files` has it.
fn judge_standing<'a>(
    which: Which,
    a: &'a [u8],
    b: &'a [u8],
    c: &'a [u8],
    stand: &[usize],
    scope: Scope,
    work: &mut [u32],
    kinds: &mut [u32],
    places: &mut [usize],
    companions: &mut [usize],
) -> bool
    ensures value { result ≡ can_judge (gate_called which) (length work.old) (marks_in kinds.old places.old companions.old) }
    ensures board_after { marks_in kinds.new places.new companions.new ≡ marks_after (gate_called which) scope (standing a.now b.now c.now stand.now) (length work.old) (marks_in kinds.old places.old companions.old) }
    ensures work_after { work.new ≡ work_afterwards (gate_called which) scope (standing a.now b.now c.now stand.now) (marks_in kinds.old places.old companions.old) work.old }
{
    match which {
        Which::Schedule => schedule_marks(a, b, c, stand, scope, work, kinds, places, companions),
        Which::Baseline => baseline_marks(a, b, c, stand, scope, work, kinds, places, companions),
        Which::Contract => contract_marks(a, b, c, stand, scope, work, kinds, places, companions),
    }
}

// The refusal of a bundle, unless another fault comes before it.
fn refusal_of(bundle: &[u8], n: usize, fault: u32) -> u32
    ensures { result ≡ cond (eqb fault 0) (bundle_fault n bundle.now) fault }
{
    if fault != 0 {
        return fault;
    }
    bundle_fault(bundle, n)
}

// Judges a bundle in full in a lent workspace, whatever that holds: its marks go to the lists.
pub fn judge_lists(
    which: Which,
    bundle: &[u8],
    work: &mut [u32],
    kinds: &mut [u32],
    places: &mut [usize],
    companions: &mut [usize],
) -> Made
    ensures value { result ≡ made_of (judged_in (gate_called which) bundle.now (length work.old) (marks_in kinds.old places.old companions.old)) }
    ensures board_after { marks_in kinds.new places.new companions.new ≡ (judged_in (gate_called which) bundle.now (length work.old) (marks_in kinds.old places.old companions.old)).marks }
    ensures work_after { work.new ≡ judge_left (gate_called which) bundle.now result.refusal work.old }
{
    let fault = lent_fault(which, work.len(), kinds, places, companions);
    if fault == 100 {
        return Made {
            refusal: 100,
            length: 0,
        };
    }
    let n = file_count(which);
    let refusal = refusal_of(bundle, n, fault);
    if refusal != 0 {
        make_fresh(kinds, places, companions);
        return Made { refusal, length: 0 };
    }
    let mut stand = [0usize; 96];
    stand_bundle(bundle, n, &mut stand);
    let none = &bundle[..0];
    judge_standing(
        which,
        bundle,
        none,
        none,
        &stand,
        Scope::Full,
        work,
        kinds,
        places,
        companions,
    );
    Made {
        refusal: 0,
        length: bundle.len(),
    }
}

// The marks after a change that is not refused, from the bundle and the new bytes.
fn judge_change<'a>(
    which: Which,
    bundle: &'a [u8],
    k: usize,
    present: bool,
    new: &'a [u8],
    made: Made,
    work: &mut [u32],
    kinds: &mut [u32],
    places: &mut [usize],
    companions: &mut [usize],
) -> Made
    requires no_lent_fault { lent_fault (gate_called which) (length work.old) (marks_in kinds.old places.old companions.old) ≡ 0 }
    requires k_bound { (made.refusal ≡ 0) → (k < (gate_called which).files) }
    ensures value { result ≡ made }
    ensures board_after { marks_in kinds.new places.new companions.new ≡ cond (eqb made.refusal 0) (changed_marks (gate_called which) k (files_after bundle.now k (new_file present new.now)) (marks_in kinds.old places.old companions.old)) (marks_in kinds.old places.old companions.old) }
    ensures work_after { work.new ≡ change_left (gate_called which) bundle.now k (new_file present new.now) made.refusal work.old }
{
    if made.refusal != 0 {
        return made;
    }
    let n = file_count(which);
    let mut stand = [0usize; 96];
    stand_bundle(bundle, n, &mut stand);
    place(&mut stand, k, new_number(present), 0, new.len());
    judge_standing(
        which,
        bundle,
        new,
        new,
        &stand,
        Scope::Change { file: k },
        work,
        kinds,
        places,
        companions,
    );
    made
}

fn new_number(present: bool) -> usize
    ensures { result ≡ cond present 2 0 }
{
    if present {
        return 2;
    }
    0
}

// Tries a change of file k, to new bytes or, where `present` is false, to none.
pub fn try_lists<'a>(
    which: Which,
    bundle: &'a [u8],
    k: usize,
    present: bool,
    new: &'a [u8],
    work: &mut [u32],
    kinds: &mut [u32],
    places: &mut [usize],
    companions: &mut [usize],
) -> Made
    ensures value { result ≡ made_of (tried_in (gate_called which) bundle.now k (new_file present new.now) (length work.old) (marks_in kinds.old places.old companions.old)) }
    ensures board_after { marks_in kinds.new places.new companions.new ≡ (tried_in (gate_called which) bundle.now k (new_file present new.now) (length work.old) (marks_in kinds.old places.old companions.old)).marks }
    ensures work_after { work.new ≡ change_left (gate_called which) bundle.now k (new_file present new.now) result.refusal work.old }
{
    let fault = lent_fault(which, work.len(), kinds, places, companions);
    if fault != 0 {
        return Made {
            refusal: fault,
            length: 0,
        };
    }
    let made = try_bundle(bundle, file_count(which), k, present, new);
    judge_change(
        which, bundle, k, present, new, made, work, kinds, places, companions,
    )
}

// Makes a change: the new bundle goes to the front of `out`, unless it is refused.
pub fn make_lists<'a>(
    which: Which,
    bundle: &'a [u8],
    k: usize,
    present: bool,
    new: &'a [u8],
    out: &mut [u8],
    work: &mut [u32],
    kinds: &mut [u32],
    places: &mut [usize],
    companions: &mut [usize],
) -> Made
    ensures value { result ≡ made_of (made_in (gate_called which) bundle.now k (new_file present new.now) (length out.old) (length work.old) (marks_in kinds.old places.old companions.old)) }
    ensures board_after { marks_in kinds.new places.new companions.new ≡ (made_in (gate_called which) bundle.now k (new_file present new.now) (length out.old) (length work.old) (marks_in kinds.old places.old companions.old)).marks }
    ensures out_after { out.new ≡ output_in (gate_called which) bundle.now k (new_file present new.now) (length work.old) (marks_in kinds.old places.old companions.old) out.old }
    ensures work_after { work.new ≡ change_left (gate_called which) bundle.now k (new_file present new.now) result.refusal work.old }
{
    let fault = lent_fault(which, work.len(), kinds, places, companions);
    if fault != 0 {
        return Made {
            refusal: fault,
            length: 0,
        };
    }
    let made = make_bundle(bundle, file_count(which), k, present, new, out);
    judge_change(
        which, bundle, k, present, new, made, work, kinds, places, companions,
    )
}

// What is told of a mark of one of the gates, as `reason_files` has it.
fn reason_standing<'a>(
    which: Which,
    a: &'a [u8],
    b: &'a [u8],
    c: &'a [u8],
    stand: &[usize],
    mark: usize,
    work: &mut [u32],
) -> Reason
    ensures value { result ≡ reason_in (gate_called which) (start_standing a.now b.now c.now stand.now) (standing a.now b.now c.now stand.now) (length work.old) mark }
    ensures work_after { work.new ≡ work_told (gate_called which) (standing a.now b.now c.now stand.now) mark work.old }
{
    match which {
        Which::Schedule => schedule_reason(a, b, c, stand, mark, work),
        Which::Baseline => baseline_reason(a, b, c, stand, mark, work),
        Which::Contract => contract_reason(a, b, c, stand, mark, work),
    }
}

// What is told of a mark of a bundle, in a lent workspace, whatever that holds.
pub fn reason_lists(which: Which, bundle: &[u8], mark: usize, work: &mut [u32]) -> Reason
    ensures value { result ≡ reason_asked (gate_called which) bundle.now (length work.old) mark }
    ensures work_after { work.new ≡ reason_left (gate_called which) bundle.now mark result work.old }
{
    if work.len() < workspace(which) {
        return Reason::Refused { refusal: 14 };
    }
    let n = file_count(which);
    let fault = bundle_fault(bundle, n);
    if fault != 0 {
        return Reason::Refused { refusal: fault };
    }
    let mut stand = [0usize; 96];
    stand_bundle(bundle, n, &mut stand);
    let none = &bundle[..0];
    reason_standing(which, bundle, none, none, &stand, mark, work)
}
