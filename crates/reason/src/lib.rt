// What is told of one mark, for any gate and wherever its files stand: it is judged with the marks of the
// files that it reads, and where a rule is broken the field that decides is found and where its value
// stands.
#![tactic(auto)]

ghost use Rattle.std.specs.Prelude.{◌≡◌, true, cond, ◌+◌, ◌-◌, ◌*◌, ◌/◌, ◌<◌, length};
ghost use Rattle.standing.specs.Standing.{standing, start_standing};
ghost use Rattle.mark_numbers.specs.Marks.{marks_in, mark_in, have_length};
ghost use Rattle.rule_cells.specs.Cells.{table, cell_of};
ghost use Rattle.rule_shape.specs.Rule.{first_file_of, rule_from};
ghost use Rattle.rule_reason.specs.Reason.{searched_in};
ghost use Rattle.reason_answer.specs.declared.Reason.TheVariants.{Refused};
ghost use Rattle.gate_marks.specs.declared.Scope.{Scope};
ghost use Rattle.gate_marks.specs.Gate.{gate_from};
ghost use Rattle.gate_marks.specs.Again.{room_is_there, work_judged};
ghost use Rattle.reason.specs.Reason.{value_start, value_length, shown_of, broken_by, is_readable, lowest_of, unread_of, told_of, reason_at, reason_in, work_told};
ghost use Rattle.reason.specs.Code.{kinds_in, table_found};

use found_marks::width_of;
use gate_marks::{Scope, cells_in, judge_files};
use mark_numbers::{Mark, kind_at, mark_in};
use reason_answer::{Reason, Shown};
use rule_cells::{is_given, start_of};
use rule_reason::{Searched, deciding_field, searched_in};
use rule_shape::{first_file, rule_count, second_file};
use standing::{part_standing, start_standing};
use table_rows::cell_at;

// ---- A rule that is broken

fn less(a: usize, b: usize) -> usize
    ensures { result ≡ a - b }
{
    if a < b {
        return 0;
    }
    a - b
}

// Where the value of field k of record r ends; 0 for null.
fn end_of(cells: &[u32], width: usize, r: usize, k: usize) -> usize
    ensures { result ≡ cell_of cells.now width r (2 * k + 1) }
{
    if 4096 < r {
        return 0;
    }
    if 128 < width {
        return 0;
    }
    if 64 <= k {
        return 0;
    }
    cell_at(cells, width, r, 2 * k + 1) as usize
}

// Where the value of field k of record r starts in the bundle, in which its file starts at an offset; 0
// for null.
fn value_start(offset: usize, cells: &[u32], width: usize, r: usize, k: usize) -> usize
    requires { offset < 9223372036854775808 }
    ensures { result ≡ value_start offset cells.now width r k }
{
    if is_given(cells, width, r, k) {
        return offset + start_of(cells, width, r, k);
    }
    0
}

// Its length; 0 for null.
fn value_length(cells: &[u32], width: usize, r: usize, k: usize) -> usize
    ensures { result ≡ value_length cells.now width r k }
{
    if is_given(cells, width, r, k) {
        return less(end_of(cells, width, r, k), start_of(cells, width, r, k));
    }
    0
}

// What is shown of rule i, which is broken, from the table that it judges.
fn shown_in(
    rules: &[u32],
    i: usize,
    found: Mark,
    offset: usize,
    s: &[u8],
    cells: &[u32],
    width: usize,
) -> Shown
    requires { offset < 9223372036854775808 }
    ensures { result ≡ shown_of (rule_from rules.now i) offset (table s.now cells.now width 0) found }
{
    let r = less(found.place, 1);
    let field = deciding_field(rules, i, s, cells, width, r);
    let start = value_start(offset, cells, width, r, field);
    let length = value_length(cells, width, r, field);
    Shown {
        file: first_file(rules, i),
        record: found.place,
        companion: found.companion,
        field,
        start,
        length,
    }
}

// What is shown of rule i, from files that have been read.
fn shown_of<'a>(
    a: &'a [u8],
    b: &'a [u8],
    c: &'a [u8],
    stand: &[usize],
    forms: &[u32],
    fields: &[u32],
    rules: &[u32],
    i: usize,
    found: Mark,
    work: &[u32],
) -> Shown
    ensures { result ≡ shown_of (rule_from rules.now i) (start_standing a.now b.now c.now stand.now (first_file_of (rule_from rules.now i))) (table_found forms.now fields.now (standing a.now b.now c.now stand.now) work.now (first_file_of (rule_from rules.now i))) found }
{
    let file = first_file(rules, i);
    let offset = start_standing(a, b, c, stand, file);
    let s = part_standing(a, b, c, stand, file);
    let cells = cells_in(forms, fields, work, file);
    let width = width_of(forms, fields, file);
    shown_in(rules, i, found, offset, s, cells, width)
}

// A missing target names the table searched.
fn broken_by(rules: &[u32], i: usize, shown: Shown) -> Reason
    ensures { result ≡ broken_by (searched_in (rule_from rules.now i)) shown }
{
    let searched = searched_in(rules, i);
    match searched {
        Searched::In { file } => Reason::Missing {
            shown,
            searched: file,
        },
        Searched::Nowhere => Reason::Broken { shown },
    }
}

// ---- A rule that is not judged

// Whether file k is one of n files and holds, by the kinds of their marks.
fn is_readable(n: usize, kinds: &[u32], k: usize) -> bool
    ensures { result ≡ is_readable n (kinds_in kinds.now) k }
{
    if n <= k {
        return false;
    }
    kind_at(kinds, k) == 0
}

fn lowest_of(n: usize, kinds: &[u32], low: usize, high: usize) -> usize
    ensures { result ≡ lowest_of (is_readable n (kinds_in kinds.now)) low high }
{
    if is_readable(n, kinds, low) {
        return high;
    }
    low
}

// The lowest-numbered file that rule i reads and that can't be read.
fn unread_of(n: usize, kinds: &[u32], rules: &[u32], i: usize) -> usize
    ensures { result ≡ unread_of n (kinds_in kinds.now) (rule_from rules.now i) }
{
    let first = first_file(rules, i);
    let second = second_file(rules, i);
    if second < first {
        return lowest_of(n, kinds, second, first);
    }
    lowest_of(n, kinds, first, second)
}

// ---- Any mark

// What is told of a mark from lists in which it and those of the files that it reads stand, and from the
// cells of these files.
fn told_of<'a>(
    a: &'a [u8],
    b: &'a [u8],
    c: &'a [u8],
    stand: &[usize],
    forms: &[u32],
    fields: &[u32],
    rules: &[u32],
    mark: usize,
    work: &[u32],
    kinds: &[u32],
    places: &[usize],
    companions: &[usize],
) -> Reason
    ensures { result ≡ told_of (length forms.now / 2) mark (rule_from rules.now (mark - length forms.now / 2)) (start_standing a.now b.now c.now stand.now (first_file_of (rule_from rules.now (mark - length forms.now / 2)))) (kinds_in kinds.now) (table_found forms.now fields.now (standing a.now b.now c.now stand.now) work.now (first_file_of (rule_from rules.now (mark - length forms.now / 2)))) (mark_in (marks_in kinds.now places.now companions.now) mark) }
{
    let n = forms.len() / 2;
    let found = mark_in(kinds, places, companions, mark);
    if found.kind == 0 {
        return Reason::Holds;
    }
    if mark < n {
        return Reason::OwnMark {
            kind: found.kind,
            place: found.place,
            companion: found.companion,
        };
    }
    let i = mark - n;
    if found.kind == 2 {
        return Reason::NotJudged {
            file: unread_of(n, kinds, rules, i),
        };
    }
    let shown = shown_of(a, b, c, stand, forms, fields, rules, i, found, work);
    broken_by(rules, i, shown)
}

// Judges a mark and those of the files that it reads, into lists of as many marks as there are, and
// tells of it.
fn told_judged<'a>(
    a: &'a [u8],
    b: &'a [u8],
    c: &'a [u8],
    stand: &[usize],
    forms: &[u32],
    fields: &[u32],
    names: &[u8],
    fixed: &[u8],
    rules: &[u32],
    values: &[u32],
    texts: &[u8],
    mark: usize,
    work: &mut [u32],
    kinds: &mut [u32],
    places: &mut [usize],
    companions: &mut [usize],
) -> Reason
    requires { (have_length (length forms.now / 2 + length rules.now / 9) (marks_in kinds.old places.old companions.old) ≡ true) × (mark < length forms.now / 2 + length rules.now / 9) }
    ensures value { result ≡ cond (room_is_there (gate_from forms.now fields.now names.now fixed.now rules.now values.now texts.now) (length work.old)) (reason_at (gate_from forms.now fields.now names.now fixed.now rules.now values.now texts.now) (start_standing a.now b.now c.now stand.now) (standing a.now b.now c.now stand.now) mark) (Refused 14) }
    ensures work_after { work.new ≡ cond (room_is_there (gate_from forms.now fields.now names.now fixed.now rules.now values.now texts.now) (length work.old)) (work_judged (gate_from forms.now fields.now names.now fixed.now rules.now values.now texts.now) (Scope.Mark mark) (standing a.now b.now c.now stand.now) work.old) work.old }
{
    let scope = Scope::Mark { mark };
    if judge_files(
        a, b, c, stand, forms, fields, names, fixed, rules, values, texts, scope, work, kinds,
        places, companions,
    ) {
        return told_of(
            a, b, c, stand, forms, fields, rules, mark, work, kinds, places, companions,
        );
    }
    Reason::Refused { refusal: 14 }
}

// What is told of a mark of the gate that the tables describe, from the files that stand in three
// slices: 7 for a number that is no mark's, 14 for a workspace that is too short. Starts count in the
// slice in which the file stands.
pub fn reason_files<'a>(
    a: &'a [u8],
    b: &'a [u8],
    c: &'a [u8],
    stand: &[usize],
    forms: &[u32],
    fields: &[u32],
    names: &[u8],
    fixed: &[u8],
    rules: &[u32],
    values: &[u32],
    texts: &[u8],
    mark: usize,
    work: &mut [u32],
) -> Reason
    ensures value { result ≡ reason_in (gate_from forms.now fields.now names.now fixed.now rules.now values.now texts.now) (start_standing a.now b.now c.now stand.now) (standing a.now b.now c.now stand.now) (length work.old) mark }
    ensures work_after { work.new ≡ work_told (gate_from forms.now fields.now names.now fixed.now rules.now values.now texts.now) (standing a.now b.now c.now stand.now) mark work.old }
{
    let marks = forms.len() / 2 + rule_count(rules);
    if marks <= mark {
        return Reason::Refused { refusal: 7 };
    }
    if 128 < marks {
        return Reason::Refused { refusal: 14 };
    }
    let mut kinds = [0u32; 128];
    let mut places = [0usize; 128];
    let mut companions = [0usize; 128];
    told_judged(
        a,
        b,
        c,
        stand,
        forms,
        fields,
        names,
        fixed,
        rules,
        values,
        texts,
        mark,
        work,
        &mut kinds[..marks],
        &mut places[..marks],
        &mut companions[..marks],
    )
}
