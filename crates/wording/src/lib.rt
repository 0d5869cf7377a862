// The sentence that a scheduler reads beside a mark: which one, and what stands in its slots.
#![tactic(auto)]

ghost use Rattle.std.specs.Prelude.{◌≡◌, ◌+◌, ◌-◌, cond, [], get_or, ltb, eqb};
ghost use Rattle.output.specs.Output.{output_at, put};
ghost use Rattle.wording.specs.Sentences.{sentences, contract_sentences, sentence_at, of_rule, kind_among, of_kind};
ghost use Rattle.wording.specs.Wording.{value_text, companion_text, spot_text, slot_text, filled};
ghost use Rattle.wording.specs.Flat.{all_sentences, sentence_start, all_contract, contract_start};

use cut_value::cut_length;
use gate_lists::Which;
use gate_names::{put_field_of, put_file_of, put_table_of};
use output::{put_byte, put_number, put_text};
use parts::part;

mod words;

// What stands in the slots of a sentence, but for the value.
#[derive(Clone, Copy)]
pub struct Slots {
    // the file that the sentence is about
    pub file: usize,
    pub record: usize,
    // the record that goes with it; 0 for none
    pub companion: usize,
    // the deciding field, counted within its table
    pub field: usize,
    // the file of the table searched
    pub searched: usize,
    // where the place of a file's own mark stands in the file
    pub line: usize,
    pub column: usize,
}

fn sentences() -> [u8; 9368]
    ensures { result ≡ all_sentences }
{
    words::SENTENCES
}

// Where a sentence starts among them; over 85, their length.
fn sentence_start(n: usize) -> usize
    ensures { result ≡ sentence_start n }
{
    if n < 86 {
        return words::STARTS[n];
    }
    words::STARTS[86]
}

// Those of the contract side.
fn contract_sentences() -> [u8; 1853]
    ensures { result ≡ all_contract }
{
    words::CONTRACT_SENTENCES
}

fn contract_start(n: usize) -> usize
    ensures { result ≡ contract_start n }
{
    if n < 16 {
        return words::CONTRACT_STARTS[n];
    }
    words::CONTRACT_STARTS[16]
}

// The number of the sentence of a rule of the gate, by its mark.
pub fn rule_sentence(which: Which, mark: usize) -> usize
    ensures { result ≡ of_rule which mark }
{
    match which {
        Which::Schedule => less_20(mark),
        Which::Baseline => less_20(mark),
        Which::Contract => contract_rule(mark),
    }
}

fn less_20(mark: usize) -> usize
    ensures { result ≡ mark - 20 }
{
    if mark < 20 {
        return 0;
    }
    mark - 20
}

fn contract_rule(mark: usize) -> usize
    ensures { result ≡ cond (ltb mark 19) (mark + 96) 86 }
{
    if mark < 19 {
        return mark + 96;
    }
    86
}

// That of a file's own mark, by its kind.
pub fn kind_sentence(which: Which, kind: u32) -> usize
    ensures { result ≡ of_kind which kind }
{
    match which {
        Which::Schedule => kind_among(kind),
        Which::Baseline => kind_among(kind),
        Which::Contract => contract_kind(kind),
    }
}

fn kind_among(kind: u32) -> usize
    ensures { result ≡ kind_among kind }
{
    if kind < 30 {
        return kind as usize + 55;
    }
    kind as usize + 48
}

fn contract_kind(kind: u32) -> usize
    ensures { result ≡ cond (eqb kind 12) 115 (kind_among kind) }
{
    if kind == 12 {
        return 115;
    }
    kind_among(kind)
}

// A value; all functions from here on put what they make into an output as `output` does.
pub fn put_value(out: &mut [u8], at: usize, value: &[u8]) -> usize
    ensures { output_at out.new result ≡ put (output_at out.old at) (value_text value.now) }
{
    if value.len() == 0 {
        return put_text(out, at, b"null");
    }
    let cut = cut_length(value);
    let next = put_text(out, at, part(value, 0, cut));
    if cut < value.len() {
        return put_text(out, next, b"...");
    }
    next
}

fn put_companion(out: &mut [u8], at: usize, companion: usize) -> usize
    ensures { output_at out.new result ≡ put (output_at out.old at) (companion_text companion) }
{
    if companion == 0 {
        return put_text(out, at, b"none");
    }
    let next = put_text(out, at, b"record ");
    put_number(out, next, companion)
}

fn put_spot(out: &mut [u8], at: usize, line: usize, column: usize) -> usize
    ensures { output_at out.new result ≡ put (output_at out.old at) (spot_text line column) }
{
    let first = put_text(out, at, b"line ");
    let behind = put_number(out, first, line);
    let second = put_text(out, behind, b", column ");
    put_number(out, second, column)
}

// One sign of a sentence.
fn put_sign(which: Which, out: &mut [u8], at: usize, sign: u8, slots: Slots, value: &[u8]) -> usize
    ensures { output_at out.new result ≡ put (output_at out.old at) (slot_text which slots value.now sign) }
{
    if sign == b'@' {
        return put_table_of(which, out, at, slots.file);
    }
    if sign == b'!' {
        return put_file_of(which, out, at, slots.file);
    }
    if sign == b'#' {
        return put_number(out, at, slots.record);
    }
    if sign == b'$' {
        return put_field_of(which, out, at, slots.file, slots.field);
    }
    if sign == b'%' {
        return put_value(out, at, value);
    }
    if sign == b'&' {
        return put_companion(out, at, slots.companion);
    }
    if sign == b'^' {
        return put_table_of(which, out, at, slots.searched);
    }
    if sign == b'~' {
        return put_spot(out, at, slots.line, slots.column);
    }
    put_byte(out, at, sign)
}

fn put_filled(
    which: Which,
    out: &mut [u8],
    at: usize,
    sentence: &[u8],
    slots: Slots,
    value: &[u8],
) -> usize
    ensures { output_at out.new result ≡ put (output_at out.old at) (filled which slots value.now sentence.now) }
{
    let mut end = at;
    for sign in sentence {
        end = put_sign(which, out, end, *sign, slots, value);
    }
    end
}

// One of the first list, with its slots filled for the gate; nothing for a number over 85.
fn put_common(
    which: Which,
    out: &mut [u8],
    at: usize,
    n: usize,
    slots: Slots,
    value: &[u8],
) -> usize
    ensures { output_at out.new result ≡ put (output_at out.old at) (filled which slots value.now (get_or sentences n [])) }
{
    if 85 < n {
        return at;
    }
    let sentences = sentences();
    let sentence = part(&sentences, sentence_start(n), sentence_start(n + 1));
    put_filled(which, out, at, sentence, slots, value)
}

// One of the contract side's; nothing for a number over 15.
fn put_contract(
    which: Which,
    out: &mut [u8],
    at: usize,
    n: usize,
    slots: Slots,
    value: &[u8],
) -> usize
    ensures { output_at out.new result ≡ put (output_at out.old at) (filled which slots value.now (get_or contract_sentences n [])) }
{
    if 15 < n {
        return at;
    }
    let sentences = contract_sentences();
    let sentence = part(&sentences, contract_start(n), contract_start(n + 1));
    put_filled(which, out, at, sentence, slots, value)
}

// A sentence by its number, with its slots filled for the gate; nothing for a number that has none.
pub fn put_sentence(
    which: Which,
    out: &mut [u8],
    at: usize,
    n: usize,
    slots: Slots,
    value: &[u8],
) -> usize
    ensures { output_at out.new result ≡ put (output_at out.old at) (filled which slots value.now (sentence_at n)) }
{
    if n < 100 {
        return put_common(which, out, at, n, slots, value);
    }
    put_contract(which, out, at, n - 100, slots, value)
}
