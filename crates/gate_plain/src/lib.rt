// The plain engine in one call, to compare with: every mark by itself, from the bytes of the files that it
// reads, and every rule that searches by comparing each record with all others. It keeps no cells from
// one mark to the next and no order of the records.
#![tactic(auto)]

ghost use Rattle.std.specs.Prelude.{◌≡◌, true, ◌+◌, ◌/◌, ◌≤◌, length, take};
ghost use Rattle.mark_numbers.specs.Marks.{marks_in, have_length};
ghost use Rattle.rule_shape.specs.Rule.{rule_from, first_file_of, second_file_of};
ghost use Rattle.bundle_layout.specs.Bundle.{file_at};
ghost use Rattle.gate_marks.specs.Gate.{gate_from, expected_in};
ghost use Rattle.gate_marks.specs.Work.{read_of};
ghost use Rattle.gate_marks.specs.Marks.{rule_mark, mark_at, full_marks};
ghost use Rattle.gate_marks.specs.Code.{room_in};
ghost use Rattle.gate_calls.specs.Calls.{judgement};
ghost use Rattle.schedule.specs.Schedule.{schedule};
ghost use Rattle.gate.specs.Gate.{verdict_of};

use board::{Board, fresh};
use bundle::{bundle_fault, is_omitted, part_at};
use found_marks::width_of;
use gate::Verdict;
use gate_marks::{read_own, room_of};
use mark_numbers::{Mark, put_mark};
use plain_rules::plain_break;
use rule_shape::{first_file, rule_count, second_file};
use rules::{is_judged, mark_of};
use schedule::file_forms;
use schedule_rules::rule_rows;
use table_fields::{field_names, field_rows, file_type, value_places, value_texts};
use table_file::FileRead;

// Reads file k of a bundle into the front of a list of cells.
fn read_plain(
    bundle: &[u8],
    forms: &[u32],
    fields: &[u32],
    names: &[u8],
    fixed: &[u8],
    k: usize,
    cells: &mut [u32],
) -> FileRead
    requires { 524288 ≤ length cells.old }
    ensures value { result ≡ (read_of (expected_in forms.now fields.now names.now fixed.now k) (file_at bundle.now k)).read }
    ensures cells_after { take (room_in forms.now fields.now k) cells.new ≡ (read_of (expected_in forms.now fields.now names.now fixed.now k) (file_at bundle.now k)).cells }
{
    let there = !is_omitted(bundle, k);
    let s = part_at(bundle, k);
    let room = room_of(forms, fields, k);
    read_own(forms, fields, names, fixed, k, there, s, &mut cells[..room])
}

// Rule i from the two files that it reads.
fn rule_plain(
    bundle: &[u8],
    forms: &[u32],
    fields: &[u32],
    names: &[u8],
    fixed: &[u8],
    rules: &[u32],
    values: &[u32],
    texts: &[u8],
    i: usize,
    cells: &mut [u32],
    u_cells: &mut [u32],
) -> Mark
    requires { (524288 ≤ length cells.old) × (524288 ≤ length u_cells.old) }
    ensures { result ≡ rule_mark (gate_from forms.now fields.now names.now fixed.now rules.now values.now texts.now) (rule_from rules.now i) (file_at bundle.now (first_file_of (rule_from rules.now i))) (file_at bundle.now (second_file_of (rule_from rules.now i))) }
{
    let first = first_file(rules, i);
    let second = second_file(rules, i);
    let read = read_plain(bundle, forms, fields, names, fixed, first, cells);
    let u_read = read_plain(bundle, forms, fields, names, fixed, second, u_cells);
    let judged = is_judged(read.kind, u_read.kind);
    let room = room_of(forms, fields, first);
    let u_room = room_of(forms, fields, second);
    let found = plain_break(
        rules,
        i,
        part_at(bundle, first),
        &cells[..room],
        width_of(forms, fields, first),
        read.records,
        part_at(bundle, second),
        &u_cells[..u_room],
        width_of(forms, fields, second),
        u_read.records,
        values,
        texts,
    );
    mark_of(judged, found)
}

// Mark m of n files' marks and those of the rules.
fn mark_plain(
    bundle: &[u8],
    forms: &[u32],
    fields: &[u32],
    names: &[u8],
    fixed: &[u8],
    rules: &[u32],
    values: &[u32],
    texts: &[u8],
    m: usize,
    cells: &mut [u32],
    u_cells: &mut [u32],
) -> Mark
    requires { (524288 ≤ length cells.old) × (524288 ≤ length u_cells.old) }
    ensures { result ≡ mark_at (gate_from forms.now fields.now names.now fixed.now rules.now values.now texts.now) m (file_at bundle.now) }
{
    let n = forms.len() / 2;
    if m < n {
        let read = read_plain(bundle, forms, fields, names, fixed, m, cells);
        return Mark {
            kind: read.kind,
            place: read.place,
            companion: read.companion,
        };
    }
    let i = m - n;
    if n <= first_file(rules, i) {
        return Mark {
            kind: 2,
            place: 0,
            companion: 0,
        };
    }
    if n <= second_file(rules, i) {
        return Mark {
            kind: 2,
            place: 0,
            companion: 0,
        };
    }
    rule_plain(
        bundle, forms, fields, names, fixed, rules, values, texts, i, cells, u_cells,
    )
}

// Every mark, into lists of just as many.
fn put_plain(
    bundle: &[u8],
    forms: &[u32],
    fields: &[u32],
    names: &[u8],
    fixed: &[u8],
    rules: &[u32],
    values: &[u32],
    texts: &[u8],
    cells: &mut [u32],
    u_cells: &mut [u32],
    kinds: &mut [u32],
    places: &mut [usize],
    companions: &mut [usize],
)
    requires { (524288 ≤ length cells.old) × (524288 ≤ length u_cells.old) × (have_length (length forms.now / 2 + length rules.now / 9) (marks_in kinds.old places.old companions.old) ≡ true) }
    ensures { marks_in kinds.new places.new companions.new ≡ full_marks (gate_from forms.now fields.now names.now fixed.now rules.now values.now texts.now) (file_at bundle.now) }
{
    let marks = forms.len() / 2 + rule_count(rules);
    let mut m = 0;
    while m < marks {
        let mark = mark_plain(
            bundle, forms, fields, names, fixed, rules, values, texts, m, cells, u_cells,
        );
        put_mark(m, mark, kinds, places, companions);
        m += 1;
    }
}

// Every mark of document 01's gate.
fn put_schedule(
    bundle: &[u8],
    cells: &mut [u32],
    u_cells: &mut [u32],
    kinds: &mut [u32],
    places: &mut [usize],
    companions: &mut [usize],
)
    requires { (524288 ≤ length cells.old) × (524288 ≤ length u_cells.old) × (have_length 81 (marks_in kinds.old places.old companions.old) ≡ true) }
    ensures { marks_in kinds.new places.new companions.new ≡ full_marks schedule (file_at bundle.now) }
{
    let forms = file_forms();
    let fields = field_rows();
    let names = field_names();
    let fixed = file_type();
    let rules = rule_rows();
    let values = value_places();
    let texts = value_texts();
    put_plain(
        bundle, &forms, &fields, &names, &fixed, &rules, &values, &texts, cells, u_cells, kinds,
        places, companions,
    );
}

// Judges a bundle in full by the plain engine: it answers what `gate::judge` answers.
pub fn judge_plain(bundle: &[u8]) -> Verdict
    ensures { result ≡ verdict_of (judgement schedule bundle.now) }
{
    let refusal = bundle_fault(bundle, 20);
    if refusal != 0 {
        return Verdict {
            refusal,
            length: 0,
            board: fresh(),
        };
    }
    let mut kinds = [2u32; 81];
    let mut places = [0usize; 81];
    let mut companions = [0usize; 81];
    let mut cells = [0u32; 524288];
    let mut u_cells = [0u32; 524288];
    put_schedule(
        bundle,
        &mut cells,
        &mut u_cells,
        &mut kinds,
        &mut places,
        &mut companions,
    );
    let board = Board {
        kinds,
        places,
        companions,
    };
    Verdict {
        refusal: 0,
        length: bundle.len(),
        board,
    }
}
