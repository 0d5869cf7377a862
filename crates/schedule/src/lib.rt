// Document 01's gate: the marks of a set of 20 files, wherever these stand, and what is told of one;
// and the same by other rules over the same files.
#![tactic(auto)]

ghost use Rattle.std.specs.Prelude.{◌≡◌, length};
ghost use Rattle.standing.specs.Standing.{standing, start_standing};
ghost use Rattle.mark_numbers.specs.Marks.{marks_in};
ghost use Rattle.gate_marks.specs.Again.{can_judge, marks_after, work_afterwards};
ghost use Rattle.reason.specs.Reason.{reason_in, work_told};
ghost use Rattle.schedule.specs.Schedule.{schedule, file_forms};
ghost use Rattle.schedule.specs.Lent.{gate_by};

use gate_marks::{Scope, judge_files};
use reason::reason_files;
use reason_answer::Reason;
use schedule_rules::rule_rows;
use table_fields::{field_names, field_rows, file_type, value_places, value_texts};

// The forms of a file: an array of records, one object, or a fixed text.
const RECORDS: u32 = 0;

const SINGLE: u32 = 1;

const FIXED: u32 = 2;

const OPTIONAL: u32 = 0;

const REQUIRED: u32 = 1;

// Two numbers a file: its form, and whether it must be there.
const FILE_FORMS: [u32; 40] = [
    FIXED, // 0 FileType.txt
    REQUIRED, SINGLE, // 1 DatasetMetadata
    REQUIRED, SINGLE, // 2 SourceSoftwareMetadata
    OPTIONAL, SINGLE, // 3 ProjectScheduleData
    REQUIRED, RECORDS, // 4 ProjectCustomFieldDefinitions
    OPTIONAL, RECORDS, // 5 ProjectCustomFieldValues
    OPTIONAL, RECORDS, // 6 Calendars
    OPTIONAL, RECORDS, // 7 CalendarWorkshifts
    OPTIONAL, RECORDS, // 8 CalendarExceptions
    OPTIONAL, RECORDS, // 9 Tasks
    OPTIONAL, RECORDS, // 10 TaskScheduleData
    OPTIONAL, RECORDS, // 11 TaskCustomFieldDefinitions
    OPTIONAL, RECORDS, // 12 TaskCustomFieldValues
    OPTIONAL, RECORDS, // 13 TaskConstraints
    OPTIONAL, RECORDS, // 14 TaskRelationships
    OPTIONAL, RECORDS, // 15 TaskOutlineStructure
    OPTIONAL, RECORDS, // 16 Resources
    OPTIONAL, RECORDS, // 17 ResourceCustomFieldDefinitions
    OPTIONAL, RECORDS, // 18 ResourceCustomFieldValues
    OPTIONAL, RECORDS, // 19 ResourceAssignments
    OPTIONAL,
];

pub fn file_forms() -> [u32; 40]
    ensures { result ≡ file_forms }
{
    FILE_FORMS
}

// Judges the marks in scope by the rules that are lent, from the files that stand in three slices, and
// puts them over those of the lists. Answers whether it could.
pub fn marks_by<'a>(
    rules: &[u32],
    a: &'a [u8],
    b: &'a [u8],
    c: &'a [u8],
    stand: &[usize],
    scope: Scope,
    work: &mut [u32],
    kinds: &mut [u32],
    places: &mut [usize],
    companions: &mut [usize],
) -> bool
    ensures value { result ≡ can_judge (gate_by rules.now) (length work.old) (marks_in kinds.old places.old companions.old) }
    ensures board_after { marks_in kinds.new places.new companions.new ≡ marks_after (gate_by rules.now) scope (standing a.now b.now c.now stand.now) (length work.old) (marks_in kinds.old places.old companions.old) }
    ensures work_after { work.new ≡ work_afterwards (gate_by rules.now) scope (standing a.now b.now c.now stand.now) (marks_in kinds.old places.old companions.old) work.old }
{
    let forms = file_forms();
    let fields = field_rows();
    let names = field_names();
    let fixed = file_type();
    let values = value_places();
    let texts = value_texts();
    judge_files(
        a, b, c, stand, &forms, &fields, &names, &fixed, rules, &values, &texts, scope, work,
        kinds, places, companions,
    )
}

// The same by document 01's rules: it takes a workspace of 794,702 numbers and lists of 81 marks.
pub fn schedule_marks<'a>(
    a: &'a [u8],
    b: &'a [u8],
    c: &'a [u8],
    stand: &[usize],
    scope: Scope,
    work: &mut [u32],
    kinds: &mut [u32],
    places: &mut [usize],
    companions: &mut [usize],
) -> bool
    ensures value { result ≡ can_judge schedule (length work.old) (marks_in kinds.old places.old companions.old) }
    ensures board_after { marks_in kinds.new places.new companions.new ≡ marks_after schedule scope (standing a.now b.now c.now stand.now) (length work.old) (marks_in kinds.old places.old companions.old) }
    ensures work_after { work.new ≡ work_afterwards schedule scope (standing a.now b.now c.now stand.now) (marks_in kinds.old places.old companions.old) work.old }
{
    let rules = rule_rows();
    marks_by(
        &rules, a, b, c, stand, scope, work, kinds, places, companions,
    )
}

// What is told of a mark by the rules that are lent, from the files that stand in three slices.
pub fn reason_by<'a>(
    rules: &[u32],
    a: &'a [u8],
    b: &'a [u8],
    c: &'a [u8],
    stand: &[usize],
    mark: usize,
    work: &mut [u32],
) -> Reason
    ensures value { result ≡ reason_in (gate_by rules.now) (start_standing a.now b.now c.now stand.now) (standing a.now b.now c.now stand.now) (length work.old) mark }
    ensures work_after { work.new ≡ work_told (gate_by rules.now) (standing a.now b.now c.now stand.now) mark work.old }
{
    let forms = file_forms();
    let fields = field_rows();
    let names = field_names();
    let fixed = file_type();
    let values = value_places();
    let texts = value_texts();
    reason_files(
        a, b, c, stand, &forms, &fields, &names, &fixed, rules, &values, &texts, mark, work,
    )
}

// The same by document 01's rules.
pub fn schedule_reason<'a>(
    a: &'a [u8],
    b: &'a [u8],
    c: &'a [u8],
    stand: &[usize],
    mark: usize,
    work: &mut [u32],
) -> Reason
    ensures value { result ≡ reason_in schedule (start_standing a.now b.now c.now stand.now) (standing a.now b.now c.now stand.now) (length work.old) mark }
    ensures work_after { work.new ≡ work_told schedule (standing a.now b.now c.now stand.now) mark work.old }
{
    let rules = rule_rows();
    reason_by(&rules, a, b, c, stand, mark, work)
}
