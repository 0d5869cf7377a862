// The gates for programs in other languages: numbers and lent lists in, a number out. The first number
// says which gate. A board is three lists of as many numbers as it has marks. A call whose lists have
// other lengths than they must have answers 100 and writes nothing. Judging, trying, making and telling a reason are done in the lent workspace `work`: one that
// is too short is refused as 14, and what they leave in it may be lent again.
#![tactic(auto)]

ghost use Rattle.std.specs.Prelude.{◌≡◌, ◌++◌, length, drop, set};
ghost use Rattle.mark_numbers.specs.Marks.{marks_in, faults_in};
ghost use Rattle.reason_numbers.specs.Numbers.{told_numbers};
ghost use Rattle.bundle_bytes.specs.Pieces.{written};
ghost use Rattle.bundle_layout.specs.Put.{empty_bundle};
ghost use Rattle.gate_calls.specs.Lent.{judge_left, change_left};
ghost use Rattle.gate_calls.specs.Reasons.{refusal_of, reason_left};
ghost use Rattle.gate_c.specs.Calls.{unless_refused, which_of, gate_numbered, board_fault, judge_called, call_fault, file_handed, try_called, make_called, output_called, size_after, text_called, fresh_called, file_fault, present_number, file_place, empty_of, name_of, length_in};
ghost use Rattle.gate_c.specs.Reasons.{reason_called, field_named};

use bundle::{Made, is_omitted, length_at, lookup_fault, offset_at};
use bundle_bytes::put_part;
use gate_lists::{Which, file_count, judge_lists, make_lists, mark_count, reason_lists, try_lists};
use gate_names::{put_field_of, put_file_of};
use mark_numbers::{count_faults, have_length, make_fresh};
use parts::part;
use reason_answer::Reason;
use reason_numbers::put_reason;
use report::report;

// ---- The gates by their numbers: 0 is document 01's, 1 its baseline profile, 2 the contract side. Every
// call that asks for a number refuses any other as 103.

fn which_of(gate: u32) -> Which
    ensures { result ≡ which_of gate }
{
    if gate == 2 {
        return Which::Contract;
    }
    if gate == 1 {
        return Which::Baseline;
    }
    Which::Schedule
}

// 103 for a number that is no gate's, 100 where a list has another length than the gate has marks, or 0.
fn board_fault(gate: u32, kinds: &[u32], places: &[usize], companions: &[usize]) -> u32
    ensures { result ≡ board_fault gate (marks_in kinds.now places.now companions.now) }
{
    if 2 < gate {
        return 103;
    }
    let n = mark_count(which_of(gate));
    if !have_length(n, kinds, places, companions) {
        return 100;
    }
    0
}

// What is wrong with the numbers and lists of a call with a change, 103, 100 or 101, or 0.
fn call_fault(
    gate: u32,
    kinds: &[u32],
    places: &[usize],
    companions: &[usize],
    size: &[usize],
    present: u32,
) -> u32
    ensures { result ≡ call_fault gate (marks_in kinds.now places.now companions.now) size.now present }
{
    let fault = board_fault(gate, kinds, places, companions);
    if fault != 0 {
        return fault;
    }
    if size.len() != 1 {
        return 100;
    }
    if 1 < present {
        return 101;
    }
    0
}

// Puts down how long the new bundle is, unless the change is refused; answers the refusal.
fn put_size(made: Made, size: &mut [usize]) -> u32
    requires { length size.old ≡ 1 }
    ensures value { result ≡ made.refusal }
    ensures size_after { size.new ≡ unless_refused made.refusal (set size.old 0 made.length) size.old }
{
    let refusal = made.refusal;
    if refusal != 0 {
        return refusal;
    }
    size[0] = made.length;
    0
}

// Judges a bundle in full: the refusal or 0; its marks go to the board.
#[unsafe(no_mangle)]
pub extern "C" fn knotsaddle_judge(
    gate: u32,
    bundle: &[u8],
    kinds: &mut [u32],
    places: &mut [usize],
    companions: &mut [usize],
    work: &mut [u32],
) -> u32
    ensures value { result ≡ (judge_called gate bundle.now (length work.old) (marks_in kinds.old places.old companions.old)).refusal }
    ensures board_after { marks_in kinds.new places.new companions.new ≡ (judge_called gate bundle.now (length work.old) (marks_in kinds.old places.old companions.old)).marks }
    ensures work_after { work.new ≡ judge_left (gate_numbered gate) bundle.now result work.old }
{
    if 2 < gate {
        return 103;
    }
    judge_lists(which_of(gate), bundle, work, kinds, places, companions).refusal
}

// Tries a change of a file, to new bytes where `present` is 1 and to none where it is 0; the board that
// was handed in gives way to the one that comes back. `size` gets the length that the new bundle would
// have.
#[unsafe(no_mangle)]
pub extern "C" fn knotsaddle_try<'a>(
    gate: u32,
    bundle: &'a [u8],
    kinds: &mut [u32],
    places: &mut [usize],
    companions: &mut [usize],
    file: usize,
    present: u32,
    new_bytes: &'a [u8],
    size: &mut [usize],
    work: &mut [u32],
) -> u32
    ensures value { result ≡ (try_called gate bundle.now file present new_bytes.now size.old (length work.old) (marks_in kinds.old places.old companions.old)).refusal }
    ensures board_after { marks_in kinds.new places.new companions.new ≡ (try_called gate bundle.now file present new_bytes.now size.old (length work.old) (marks_in kinds.old places.old companions.old)).marks }
    ensures size_after { size.new ≡ size_after (try_called gate bundle.now file present new_bytes.now size.old (length work.old) (marks_in kinds.old places.old companions.old)) size.old }
    ensures work_after { work.new ≡ change_left (gate_numbered gate) bundle.now file (file_handed present new_bytes.now) result work.old }
{
    let fault = call_fault(gate, kinds, places, companions, size, present);
    if fault != 0 {
        return fault;
    }
    let tried = try_lists(
        which_of(gate),
        bundle,
        file,
        present == 1,
        new_bytes,
        work,
        kinds,
        places,
        companions,
    );
    put_size(tried, size)
}

// Makes a change, handed over as to `knotsaddle_try`: the new bundle goes to the front of `out`, its
// length to `size`.
#[unsafe(no_mangle)]
pub extern "C" fn knotsaddle_make<'a>(
    gate: u32,
    bundle: &'a [u8],
    kinds: &mut [u32],
    places: &mut [usize],
    companions: &mut [usize],
    file: usize,
    present: u32,
    new_bytes: &'a [u8],
    out: &mut [u8],
    size: &mut [usize],
    work: &mut [u32],
) -> u32
    ensures value { result ≡ (make_called gate bundle.now file present new_bytes.now (length out.old) size.old (length work.old) (marks_in kinds.old places.old companions.old)).refusal }
    ensures board_after { marks_in kinds.new places.new companions.new ≡ (make_called gate bundle.now file present new_bytes.now (length out.old) size.old (length work.old) (marks_in kinds.old places.old companions.old)).marks }
    ensures out_after { out.new ≡ output_called gate bundle.now file present new_bytes.now out.old size.old (length work.old) (marks_in kinds.old places.old companions.old) }
    ensures size_after { size.new ≡ size_after (make_called gate bundle.now file present new_bytes.now (length out.old) size.old (length work.old) (marks_in kinds.old places.old companions.old)) size.old }
    ensures work_after { work.new ≡ change_left (gate_numbered gate) bundle.now file (file_handed present new_bytes.now) result work.old }
{
    let fault = call_fault(gate, kinds, places, companions, size, present);
    if fault != 0 {
        return fault;
    }
    let made = make_lists(
        which_of(gate),
        bundle,
        file,
        present == 1,
        new_bytes,
        out,
        work,
        kinds,
        places,
        companions,
    );
    put_size(made, size)
}

// Writes the text of a refusal, or with none that of a board, to the front of `out`, and answers its
// length.
#[unsafe(no_mangle)]
pub extern "C" fn knotsaddle_report(
    gate: u32,
    refusal: u32,
    kinds: &[u32],
    places: &[usize],
    companions: &[usize],
    out: &mut [u8],
) -> usize
    ensures value { result ≡ length (text_called gate refusal (marks_in kinds.now places.now companions.now) (length out.old)) }
    ensures out_after { out.new ≡ text_called gate refusal (marks_in kinds.now places.now companions.now) (length out.old) ++ drop (length (text_called gate refusal (marks_in kinds.now places.now companions.now) (length out.old))) out.old }
{
    if board_fault(gate, kinds, places, companions) != 0 {
        return 0;
    }
    report(refusal, kinds, places, companions, out)
}

// Makes every mark of a board 'not judged'.
#[unsafe(no_mangle)]
pub extern "C" fn knotsaddle_fresh(
    gate: u32,
    kinds: &mut [u32],
    places: &mut [usize],
    companions: &mut [usize],
) -> u32
    ensures value { result ≡ board_fault gate (marks_in kinds.old places.old companions.old) }
    ensures board_after { marks_in kinds.new places.new companions.new ≡ fresh_called gate (marks_in kinds.old places.old companions.old) }
{
    let fault = board_fault(gate, kinds, places, companions);
    if fault != 0 {
        return fault;
    }
    make_fresh(kinds, places, companions);
    0
}

// Whether a file of a bundle is there, as a number.
fn present_number(bundle: &[u8], file: usize) -> u32
    ensures { result ≡ present_number bundle.now file }
{
    if is_omitted(bundle, file) {
        return 0;
    }
    1
}

// The refusal of a question for a file, with lists for the answer.
fn file_fault(gate: u32, bundle: &[u8], file: usize, present: &[u32], place: &[usize]) -> u32
    ensures { result ≡ file_fault gate bundle.now file present.now place.now }
{
    if 2 < gate {
        return 103;
    }
    if present.len() != 1 {
        return 100;
    }
    if place.len() != 2 {
        return 100;
    }
    lookup_fault(bundle, file_count(which_of(gate)), file)
}

// Asks for a file by number: its refusal or 0. `present` gets 1 if the file is there and 0 if it is
// omitted, `place` the start and the length of its part of the bundle.
#[unsafe(no_mangle)]
pub extern "C" fn knotsaddle_file(
    gate: u32,
    bundle: &[u8],
    file: usize,
    present: &mut [u32],
    place: &mut [usize],
) -> u32
    ensures value { result ≡ file_fault gate bundle.now file present.old place.old }
    ensures present_after { present.new ≡ unless_refused result (set present.old 0 (present_number bundle.now file)) present.old }
    ensures place_after { place.new ≡ unless_refused result (file_place bundle.now file place.old) place.old }
{
    let answer = file_fault(gate, bundle, file, present, place);
    if answer != 0 {
        return answer;
    }
    let there = present_number(bundle, file);
    let start = offset_at(bundle, file);
    let length = length_at(bundle, file);
    present[0] = there;
    place[0] = start;
    place[1] = length;
    0
}

// The bundle with no files, of a gate with twenty.
fn empty_bundle() -> [u8; 164]
    ensures { result ≡ empty_bundle 20 }
{
    let mut bundle = [0u8; 164];
    bundle[0] = 20;
    bundle
}

// That of the contract side, with four.
fn empty_contract() -> [u8; 36]
    ensures { result ≡ empty_bundle 4 }
{
    let mut bundle = [0u8; 36];
    bundle[0] = 4;
    bundle
}

// Writes a text to the front of an output, where there is room; answers its length.
fn put_front(out: &mut [u8], text: &[u8]) -> usize
    ensures value { result ≡ length_in out.old text.now }
    ensures out_after { out.new ≡ written out.old 0 text.now }
{
    if out.len() < text.len() {
        return 0;
    }
    put_part(out, 0, text);
    text.len()
}

// Writes the bundle with no files to the front of `out` and answers its length; 0 and nothing written
// for a number that is no gate's and where `out` is shorter.
#[unsafe(no_mangle)]
pub extern "C" fn knotsaddle_empty(gate: u32, out: &mut [u8]) -> usize
    ensures value { result ≡ length_in out.old (empty_of gate) }
    ensures out_after { out.new ≡ written out.old 0 (empty_of gate) }
{
    if 2 < gate {
        return 0;
    }
    if gate == 2 {
        let four = empty_contract();
        return put_front(out, &four);
    }
    let bundle = empty_bundle();
    put_front(out, &bundle)
}

// How many marks of these kinds don't hold.
#[unsafe(no_mangle)]
pub extern "C" fn knotsaddle_faults(kinds: &[u32]) -> usize
    ensures { result ≡ faults_in kinds.now }
{
    count_faults(kinds)
}

// Writes the name of a file to the front of `out` and answers its length; 0 and nothing written for a
// number that is no gate's or no file's and where `out` is shorter.
#[unsafe(no_mangle)]
pub extern "C" fn knotsaddle_file_name(gate: u32, file: usize, out: &mut [u8]) -> usize
    ensures value { result ≡ length_in out.old (name_of gate file) }
    ensures out_after { out.new ≡ written out.old 0 (name_of gate file) }
{
    if 2 < gate {
        return 0;
    }
    let mut name = [0u8; 36];
    let end = put_file_of(which_of(gate), &mut name, 0, file);
    put_front(out, part(&name, 0, end))
}

// ---- The reason of a mark

fn refusal_of(told: Reason) -> u32
    ensures { result ≡ refusal_of told }
{
    match told {
        Reason::Refused { refusal } => refusal,
        Reason::Holds => 0,
        Reason::NotJudged { file: _ } => 0,
        Reason::OwnMark {
            kind: _,
            place: _,
            companion: _,
        } => 0,
        Reason::Broken { shown: _ } => 0,
        Reason::Missing {
            shown: _,
            searched: _,
        } => 0,
    }
}

// What is told of a mark of a bundle: the refusal or 0; `told` gets its nine numbers.
#[unsafe(no_mangle)]
pub extern "C" fn knotsaddle_reason(
    gate: u32,
    bundle: &[u8],
    mark: usize,
    told: &mut [usize],
    work: &mut [u32],
) -> u32
    ensures value { result ≡ refusal_of (reason_called gate bundle.now mark told.old (length work.old)) }
    ensures told_after { told.new ≡ unless_refused result (told_numbers (reason_called gate bundle.now mark told.old (length work.old))) told.old }
    ensures work_after { work.new ≡ reason_left (gate_numbered gate) bundle.now mark (reason_called gate bundle.now mark told.old (length work.old)) work.old }
{
    if 2 < gate {
        return 103;
    }
    if told.len() != 9 {
        return 100;
    }
    let reason = reason_lists(which_of(gate), bundle, mark, work);
    let refused = refusal_of(reason);
    if refused != 0 {
        return refused;
    }
    put_reason(reason, told);
    0
}

// Writes the name of a field of a file, both by their numbers, to the front of `out` and answers its
// length; 0 and nothing written where there is no such gate or field and where `out` is shorter.
#[unsafe(no_mangle)]
pub extern "C" fn knotsaddle_field_name(
    gate: u32,
    file: usize,
    field: usize,
    out: &mut [u8],
) -> usize
    ensures value { result ≡ length_in out.old (field_named gate file field) }
    ensures out_after { out.new ≡ written out.old 0 (field_named gate file field) }
{
    if 2 < gate {
        return 0;
    }
    let mut name = [0u8; 36];
    let end = put_field_of(which_of(gate), &mut name, 0, file, field);
    put_front(out, part(&name, 0, end))
}
