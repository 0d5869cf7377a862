// The text of the marks that a gate gives a bundle, with the reason beside each that doesn't hold.
#![tactic(auto)]

ghost use Rattle.std.specs.Prelude.{◌≡◌, true, cond, [], ◌≤◌, length, take, eqb};
ghost use Rattle.output.specs.Output.{output_at, put};
ghost use Rattle.text_place.specs.Place.{spot_at, count_where};
ghost use Rattle.parts.specs.Files.{bytes_of};
ghost use Rattle.bundle_layout.specs.Bundle.{file_at};
ghost use Rattle.mark_numbers.specs.Marks.{marks_in, list_of};
ghost use Rattle.gate_calls.specs.Reasons.{reason_of};
ghost use Rattle.gate_marks.specs.Gate.{marks_of};
ghost use Rattle.gate_marks.specs.Again.{workspace_of};
ghost use Rattle.gate_lists.specs.Which.{gate_called};
ghost use Rattle.reason_text.specs.Sentence.{file_slots, own_slots, shown_slots, sentence_number, slots_of, sentence_of};
ghost use Rattle.reason_text.specs.Text.{is_silent, line_with, reason_line, reason_lines, keeper_of, keeper_at, kept_line, kept_lines, keepers_of, marks_text, reasons_text, reasons_in, front_put};

use bundle::part_at;
use gate::value_shown;
use gate_lists::{Which, file_count, judge_lists, mark_count, reason_lists, workspace};
use mark_numbers::{Mark, kind_at, mark_in};
use output::put_byte;
use reason_answer::{Reason, Shown};
use report::{put_counted, put_last, put_numbers};
use text_place::line_and_column;
use wording::{Slots, kind_sentence, put_sentence, rule_sentence};

// No gate has more marks.
const MOST_MARKS: usize = 96;

// The numbers of the sentences that no mark or kind gives.
const NOT_JUDGED: usize = 83;

const KEEPS_MANY: usize = 84;

const KEEPS_ONE: usize = 85;

const NOTHING: usize = 86;

// ---- The sentence beside a mark

fn sentence_number(which: Which, m: usize, told: Reason) -> usize
    ensures { result ≡ sentence_number which m told }
{
    match told {
        Reason::Refused { .. } => NOTHING,
        Reason::Holds => NOTHING,
        Reason::NotJudged { .. } => NOT_JUDGED,
        Reason::OwnMark { kind, .. } => kind_sentence(which, kind),
        Reason::Broken { .. } => rule_sentence(which, m),
        Reason::Missing { .. } => rule_sentence(which, m),
    }
}

fn file_slots(file: usize, n: usize) -> Slots
    ensures { result ≡ file_slots file n }
{
    Slots {
        file,
        record: n,
        companion: 0,
        field: 0,
        searched: 0,
        line: 0,
        column: 0,
    }
}

// Of a file's own mark.
fn own_slots(bundle: &[u8], file: usize, place: usize, companion: usize) -> Slots
    ensures { result ≡ own_slots file companion (spot_at (bytes_of (file_at bundle.now file)) place) }
{
    let spot = line_and_column(part_at(bundle, file), place);
    Slots {
        file,
        record: companion,
        companion: 0,
        field: 0,
        searched: 0,
        line: spot.line,
        column: spot.column,
    }
}

// Of a rule that is broken.
fn shown_slots(shown: Shown, searched: usize) -> Slots
    ensures { result ≡ shown_slots shown searched }
{
    Slots {
        file: shown.file,
        record: shown.record,
        companion: shown.companion,
        field: shown.field,
        searched,
        line: 0,
        column: 0,
    }
}

fn slots_of(bundle: &[u8], m: usize, told: Reason) -> Slots
    ensures { result ≡ slots_of bundle.now m told }
{
    match told {
        Reason::Refused { .. } => file_slots(0, 0),
        Reason::Holds => file_slots(0, 0),
        Reason::NotJudged { file } => file_slots(file, 0),
        Reason::OwnMark {
            place,
            companion,
            ..
        } => own_slots(bundle, m, place, companion),
        Reason::Broken { shown } => shown_slots(shown, 0),
        Reason::Missing { shown, searched } => shown_slots(shown, searched),
    }
}

// Puts the sentence, as all functions below put what they make.
fn put_told(which: Which, out: &mut [u8], at: usize, bundle: &[u8], m: usize, told: Reason) -> usize
    ensures { output_at out.new result ≡ put (output_at out.old at) (sentence_of which bundle.now m told) }
{
    let slots = slots_of(bundle, m, told);
    let value = value_shown(bundle, told);
    let n = sentence_number(which, m, told);
    put_sentence(which, out, at, n, slots, value)
}

// ---- The lines of the marks

fn is_silent(grouped: bool, kind: u32) -> bool
    ensures { result ≡ is_silent grouped kind }
{
    if kind == 0 {
        return true;
    }
    if grouped {
        return kind == 2;
    }
    false
}

fn put_line(
    which: Which,
    out: &mut [u8],
    at: usize,
    bundle: &[u8],
    m: usize,
    mark: Mark,
    told: Reason,
) -> usize
    ensures { output_at out.new result ≡ put (output_at out.old at) (line_with which bundle.now m mark told) }
{
    let space = put_numbers(out, at, m, mark);
    let sentence = put_byte(out, space, b' ');
    let feed = put_told(which, out, sentence, bundle, m, told);
    put_byte(out, feed, b'\n')
}

// What is told of a mark, in a workspace that is long enough.
fn reason_of(which: Which, bundle: &[u8], m: usize, work: &mut [u32]) -> Reason
    requires { workspace_of (gate_called which) ≤ length work.old }
    ensures { result ≡ reason_of (gate_called which) bundle.now m }
{
    reason_lists(which, bundle, m, work)
}

fn put_mark(
    which: Which,
    out: &mut [u8],
    at: usize,
    bundle: &[u8],
    grouped: bool,
    m: usize,
    mark: Mark,
    work: &mut [u32],
) -> usize
    requires { workspace_of (gate_called which) ≤ length work.old }
    ensures { output_at out.new result ≡ put (output_at out.old at) (reason_line which grouped bundle.now m mark) }
{
    if is_silent(grouped, mark.kind) {
        return at;
    }
    let told = reason_of(which, bundle, m, work);
    put_line(which, out, at, bundle, m, mark, told)
}

fn put_lines(
    which: Which,
    out: &mut [u8],
    at: usize,
    bundle: &[u8],
    grouped: bool,
    kinds: &[u32],
    places: &[usize],
    companions: &[usize],
    work: &mut [u32],
) -> usize
    requires { workspace_of (gate_called which) ≤ length work.old }
    ensures { output_at out.new result ≡ put (output_at out.old at) (reason_lines which grouped bundle.now (marks_in kinds.now places.now companions.now) (length kinds.now)) }
{
    let mut end = at;
    let mut m = 0;
    while m < kinds.len() {
        let mark = mark_in(kinds, places, companions, m);
        end = put_mark(which, out, end, bundle, grouped, m, mark, work);
        m += 1;
    }
    end
}

// ---- The files that keep marks from being judged

fn keeper_of(none: usize, told: Reason) -> usize
    ensures { result ≡ keeper_of none told }
{
    match told {
        Reason::NotJudged { file } => file,
        _ => none,
    }
}

// The file that keeps a mark of a kind from being judged; for none, how many files there are.
fn keeper_at(which: Which, bundle: &[u8], m: usize, kind: u32, work: &mut [u32]) -> usize
    requires { workspace_of (gate_called which) ≤ length work.old }
    ensures { result ≡ cond (eqb kind 2) (keeper_of (gate_called which).files (reason_of (gate_called which) bundle.now m)) (gate_called which).files }
{
    let none = file_count(which);
    if kind == 2 {
        return keeper_of(none, reason_of(which, bundle, m, work));
    }
    none
}

fn find_keepers(
    which: Which,
    bundle: &[u8],
    kinds: &[u32],
    places: &[usize],
    companions: &[usize],
    work: &mut [u32],
    keepers: &mut [usize],
)
    requires { workspace_of (gate_called which) ≤ length work.old }
    ensures { keepers.new ≡ list_of (keeper_at (gate_called which) bundle.now (marks_in kinds.now places.now companions.now)) (length keepers.old) }
{
    let mut m = 0;
    while m < keepers.len() {
        let mark = mark_in(kinds, places, companions, m);
        keepers[m] = keeper_at(which, bundle, m, mark.kind, work);
        m += 1;
    }
}

fn one_where_same(keeper: usize, file: usize) -> usize
    ensures { (result ≡ cond (eqb keeper file) 1 0) × (result ≤ 1) }
{
    if keeper == file {
        return 1;
    }
    0
}

// How many marks a file keeps.
fn count_kept(keepers: &[usize], file: usize) -> usize
    ensures { result ≡ count_where (λ keeper. eqb keeper file) keepers.now }
{
    let mut found = 0;
    let mut i = 0;
    while i < keepers.len() {
        found += one_where_same(keepers[i], file);
        i += 1;
    }
    found
}

fn kept_sentence(n: usize) -> usize
    ensures { result ≡ cond (eqb n 1) 85 84 }
{
    if n == 1 {
        return KEEPS_ONE;
    }
    KEEPS_MANY
}

// The line of a file that keeps n marks.
fn put_kept(which: Which, out: &mut [u8], at: usize, file: usize, n: usize) -> usize
    ensures { output_at out.new result ≡ put (output_at out.old at) (kept_line which file n) }
{
    if n == 0 {
        return at;
    }
    let feed = put_sentence(which, out, at, kept_sentence(n), file_slots(file, n), b"");
    put_byte(out, feed, b'\n')
}

fn put_keepers(which: Which, out: &mut [u8], at: usize, keepers: &[usize], files: usize) -> usize
    ensures { output_at out.new result ≡ put (output_at out.old at) (kept_lines which keepers.now files) }
{
    let mut end = at;
    let mut file = 0;
    while file < files {
        end = put_kept(which, out, end, file, count_kept(keepers, file));
        file += 1;
    }
    end
}

// ---- The whole text

// The lines of the files that keep marks from being judged, where marks are grouped, by way of a list
// for as many numbers as there are marks.
fn put_groups(
    which: Which,
    out: &mut [u8],
    at: usize,
    bundle: &[u8],
    grouped: bool,
    kinds: &[u32],
    places: &[usize],
    companions: &[usize],
    work: &mut [u32],
    keepers: &mut [usize],
) -> usize
    requires enough_workspace { workspace_of (gate_called which) ≤ length work.old }
    requires keepers_len { length keepers.old ≡ length kinds.now }
    ensures { output_at out.new result ≡ put (output_at out.old at) (cond grouped (kept_lines which (keepers_of (gate_called which) bundle.now (marks_in kinds.now places.now companions.now)) (gate_called which).files) []) }
{
    if !grouped {
        return at;
    }
    find_keepers(which, bundle, kinds, places, companions, work, keepers);
    let files = file_count(which);
    put_keepers(which, out, at, keepers, files)
}

fn put_marks(
    which: Which,
    out: &mut [u8],
    bundle: &[u8],
    grouped: bool,
    kinds: &[u32],
    places: &[usize],
    companions: &[usize],
    work: &mut [u32],
    keepers: &mut [usize],
) -> usize
    requires enough_workspace { workspace_of (gate_called which) ≤ length work.old }
    requires keepers_len { length keepers.old ≡ length kinds.now }
    ensures { output_at out.new result ≡ put (output_at out.old 0) (marks_text which grouped bundle.now (marks_in kinds.now places.now companions.now)) }
{
    let lines = put_counted(out, 0, b"marks ", kinds.len());
    let groups = put_lines(
        which, out, lines, bundle, grouped, kinds, places, companions, work,
    );
    let last = put_groups(
        which, out, groups, bundle, grouped, kinds, places, companions, work, keepers,
    );
    put_last(out, last, kinds)
}

// Puts the text by way of lists for the marks and for the files that keep them from being judged, each
// of as many numbers as the gate has marks.
fn put_answer(
    which: Which,
    out: &mut [u8],
    bundle: &[u8],
    grouped: bool,
    work: &mut [u32],
    kinds: &mut [u32],
    places: &mut [usize],
    companions: &mut [usize],
    keepers: &mut [usize],
) -> usize
    requires enough_workspace { workspace_of (gate_called which) ≤ length work.old }
    requires lists_len { (length kinds.old ≡ marks_of (gate_called which)) × (length places.old ≡ marks_of (gate_called which)) × (length companions.old ≡ marks_of (gate_called which)) × (length keepers.old ≡ marks_of (gate_called which)) }
    ensures { output_at out.new result ≡ put (output_at out.old 0) (reasons_text which grouped bundle.now) }
{
    let made = judge_lists(which, bundle, work, kinds, places, companions);
    if made.refusal != 0 {
        return put_counted(out, 0, b"bundle ", made.refusal as usize);
    }
    put_marks(
        which, out, bundle, grouped, kinds, places, companions, work, keepers,
    )
}

fn few_marks(which: Which) -> usize
    ensures { (result ≡ marks_of (gate_called which)) × (result ≤ 96) }
{
    mark_count(which)
}

// Puts the text of a bundle to the front of an output, as far as there is room, and answers how much
// stands there. The workspace is lent, whatever it holds; one that is too short for the gate is refused
// as 14.
pub fn reasons(
    which: Which,
    bundle: &[u8],
    grouped: bool,
    work: &mut [u32],
    out: &mut [u8],
) -> usize
    ensures value { result ≡ length (take (length out.old) (reasons_in which grouped bundle.now (length work.old))) }
    ensures out_after { out.new ≡ front_put (reasons_in which grouped bundle.now (length work.old)) out.old }
{
    if work.len() < workspace(which) {
        return put_counted(out, 0, b"bundle ", 14);
    }
    let n = few_marks(which);
    let mut kinds = [2u32; MOST_MARKS];
    let mut places = [0usize; MOST_MARKS];
    let mut companions = [0usize; MOST_MARKS];
    let mut keepers = [0usize; MOST_MARKS];
    put_answer(
        which,
        out,
        bundle,
        grouped,
        work,
        &mut kinds[..n],
        &mut places[..n],
        &mut companions[..n],
        &mut keepers[..n],
    )
}
