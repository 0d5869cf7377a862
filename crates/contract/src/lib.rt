// The contract side's gate: the marks of a set of Subcontractors, WBS, OBS and ControlAccounts, wherever
// these stand, and what is told of one.
#![tactic(auto)]

ghost use Rattle.std.specs.Prelude.{◌≡◌, length};
ghost use Rattle.standing.specs.Standing.{standing, start_standing};
ghost use Rattle.mark_numbers.specs.Marks.{marks_in};
ghost use Rattle.gate_marks.specs.Again.{can_judge, marks_after, work_afterwards};
ghost use Rattle.reason.specs.Reason.{reason_in, work_told};
ghost use Rattle.contract.specs.Contract.{contract, contract_forms};

use contract_fields::{contract_field_names, contract_field_rows};
use contract_rules::contract_rule_rows;
use gate_marks::{Scope, judge_files};
use reason::reason_files;
use reason_answer::Reason;

// The form of a file that is an array of records.
const RECORDS: u32 = 0;

const OPTIONAL: u32 = 0;

// Two numbers a file: its form, and whether it must be there.
const FILE_FORMS: [u32; 8] = [
    RECORDS, // 0 Subcontractors
    OPTIONAL, RECORDS, // 1 WBS
    OPTIONAL, RECORDS, // 2 OBS
    OPTIONAL, RECORDS, // 3 ControlAccounts
    OPTIONAL,
];

fn contract_forms() -> [u32; 8]
    ensures { result ≡ contract_forms }
{
    FILE_FORMS
}

// Judges the marks in scope from the files that stand in three slices and puts them over those of the
// lists. Answers whether it could: it takes a workspace of 188,416 numbers and lists of 19 marks. No file
// is a fixed text and no rule names a value, so nothing is lent for these.
pub fn contract_marks<'a>(
    a: &'a [u8],
    b: &'a [u8],
    c: &'a [u8],
    stand: &[usize],
    scope: Scope,
    work: &mut [u32],
    kinds: &mut [u32],
    places: &mut [usize],
    companions: &mut [usize],
) -> bool
    ensures value { result ≡ can_judge contract (length work.old) (marks_in kinds.old places.old companions.old) }
    ensures board_after { marks_in kinds.new places.new companions.new ≡ marks_after contract scope (standing a.now b.now c.now stand.now) (length work.old) (marks_in kinds.old places.old companions.old) }
    ensures work_after { work.new ≡ work_afterwards contract scope (standing a.now b.now c.now stand.now) (marks_in kinds.old places.old companions.old) work.old }
{
    let forms = contract_forms();
    let fields = contract_field_rows();
    let names = contract_field_names();
    let rules = contract_rule_rows();
    let values = [0u32; 1];
    let none = &a[..0];
    judge_files(
        a,
        b,
        c,
        stand,
        &forms,
        &fields,
        &names,
        none,
        &rules,
        &values[..0],
        none,
        scope,
        work,
        kinds,
        places,
        companions,
    )
}

// What is told of a mark, from the files that stand in three slices.
pub fn contract_reason<'a>(
    a: &'a [u8],
    b: &'a [u8],
    c: &'a [u8],
    stand: &[usize],
    mark: usize,
    work: &mut [u32],
) -> Reason
    ensures value { result ≡ reason_in contract (start_standing a.now b.now c.now stand.now) (standing a.now b.now c.now stand.now) (length work.old) mark }
    ensures work_after { work.new ≡ work_told contract (standing a.now b.now c.now stand.now) mark work.old }
{
    let forms = contract_forms();
    let fields = contract_field_rows();
    let names = contract_field_names();
    let rules = contract_rule_rows();
    let values = [0u32; 1];
    let none = &a[..0];
    reason_files(
        a,
        b,
        c,
        stand,
        &forms,
        &fields,
        &names,
        none,
        &rules,
        &values[..0],
        none,
        mark,
        work,
    )
}
