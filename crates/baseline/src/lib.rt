// The gate of the baseline profile: document 01's files, judged by its rules and by four further ones.
#![tactic(auto)]

ghost use Rattle.std.specs.Prelude.{◌≡◌, length};
ghost use Rattle.standing.specs.Standing.{standing, start_standing};
ghost use Rattle.mark_numbers.specs.Marks.{marks_in};
ghost use Rattle.gate_marks.specs.Again.{can_judge, marks_after, work_afterwards};
ghost use Rattle.reason.specs.Reason.{reason_in, work_told};
ghost use Rattle.baseline.specs.Baseline.{baseline};

use baseline_rules::baseline_rows;
use gate_marks::Scope;
use reason_answer::Reason;
use schedule::{marks_by, reason_by};

// Judges the marks in scope from the files that stand in three slices and puts them over those of the
// lists. Answers whether it could: it takes a workspace of 794,702 numbers and lists of 85 marks.
pub fn baseline_marks<'a>(
    a: &'a [u8],
    b: &'a [u8],
    c: &'a [u8],
    stand: &[usize],
    scope: Scope,
    work: &mut [u32],
    kinds: &mut [u32],
    places: &mut [usize],
    companions: &mut [usize],
) -> bool
    ensures value { result ≡ can_judge baseline (length work.old) (marks_in kinds.old places.old companions.old) }
    ensures board_after { marks_in kinds.new places.new companions.new ≡ marks_after baseline scope (standing a.now b.now c.now stand.now) (length work.old) (marks_in kinds.old places.old companions.old) }
    ensures work_after { work.new ≡ work_afterwards baseline scope (standing a.now b.now c.now stand.now) (marks_in kinds.old places.old companions.old) work.old }
{
    let rules = baseline_rows();
    marks_by(
        &rules, a, b, c, stand, scope, work, kinds, places, companions,
    )
}

// What is told of a mark, from the files that stand in three slices.
pub fn baseline_reason<'a>(
    a: &'a [u8],
    b: &'a [u8],
    c: &'a [u8],
    stand: &[usize],
    mark: usize,
    work: &mut [u32],
) -> Reason
    ensures value { result ≡ reason_in baseline (start_standing a.now b.now c.now stand.now) (standing a.now b.now c.now stand.now) (length work.old) mark }
    ensures work_after { work.new ≡ work_told baseline (standing a.now b.now c.now stand.now) mark work.old }
{
    let rules = baseline_rows();
    reason_by(&rules, a, b, c, stand, mark, work)
}
