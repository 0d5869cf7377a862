// A string read whole, with the first character that breaks a rule of its type, in one pass.
#![tactic(auto, unfolding(json_bytes::specs::Reads::within, crate::specs::Text::white_space, crate::specs::Text::blanks, crate::specs::Text::barred, crate::specs::Text::is_white, crate::specs::Text::spaces_of, crate::specs::Text::wrong_space, crate::specs::Text::outside_id, crate::specs::Text::rule_broken, crate::specs::Text::none, crate::specs::Text::wrong_here, crate::specs::Text::first_wrong, crate::specs::Text::closes_at, crate::specs::Run::is_graphic, crate::specs::Run::edge_behind, crate::specs::Eight::first_byte))]

ghost use Rattle.std.specs.Prelude.{◌≡◌, ◌≤◌, true, ◌||◌, length};
ghost use Rattle.json_text.specs.Eight.{odd_bytes, no_space_bytes, stop_bytes, first_byte};
ghost use Rattle.json_text.specs.Run.{is_graphic, run_end, plain_end, edge_behind, Words};
ghost use Rattle.json_text.specs.Text.{barred, in_runs, is_white, wrong_space, outside_id, rule_broken, wrong_here, first_wrong, closes_at, text_read};
ghost use Rattle.json_text.specs.Escape.{PlainEscape};

use json_bytes::{Fault, Reading, byte_at, eight_at, is_within};
use json_chars::{Step, step_at};

// The three types of text, each with its rules.
#[derive(Clone, Copy)]
pub enum TextType {
    Text,
    String,
    StringID,
}

// The first wrong character (what may not change: the theorems of json_meaning on `wrong_at` have rule 0 for none): the rule it breaks (1 barred control, 2 whitespace, 3 outside the ID
// set, 4 unpaired surrogate; 0 where no character is wrong) and the place of its first byte.
#[derive(Clone, Copy)]
pub struct Wrong {
    pub rule: u32,
    pub place: usize,
}

#[derive(Clone, Copy)]
pub struct TextRead {
    pub reading: Reading,
    pub wrong: Wrong,
}

// ---- The characters that count as whitespace: the first and the last code of each run, in order

// Unicode's White_Space list, 25 codes.
const WHITE_SPACE: [[u32; 2]; 10] = [
    [0x9, 0xD],
    [0x20, 0x20],
    [0x85, 0x85],
    [0xA0, 0xA0],
    [0x1680, 0x1680],
    [0x2000, 0x200A],
    [0x2028, 0x2029],
    [0x202F, 0x202F],
    [0x205F, 0x205F],
    [0x3000, 0x3000],
];

// Tab, line feed, carriage return and space.
const BLANKS: [[u32; 2]; 3] = [[0x9, 0xA], [0xD, 0xD], [0x20, 0x20]];

fn in_runs(runs: &[[u32; 2]], c: u32) -> bool
    ensures { result ≡ in_runs runs.now c }
{
    for run in runs {
        if is_within(run[0], run[1], c) {
            return true;
        }
    }
    false
}

// The type chooses the set.
#[tactic(auto, unfolding(crate::specs::Text::is_white, crate::specs::Text::spaces_of, crate::specs::Text::in_runs, crate::specs::Text::white_space, crate::specs::Text::blanks))]
fn is_white(ty: TextType, c: u32) -> bool
    ensures { result ≡ is_white ty c }
{
    match ty {
        TextType::Text => false,
        TextType::String => in_runs(&WHITE_SPACE, c),
        TextType::StringID => in_runs(&BLANKS, c),
    }
}

// ---- The rules of a character
fn is_barred(c: u32) -> bool
    ensures { result ≡ barred c }
{
    is_within(0, 8, c) || is_within(0xB, 0xC, c) || is_within(0xE, 0x1F, c) || c == 0x7F
}

fn is_wrong_space(ty: TextType, c: u32, edge: bool) -> bool
    ensures { result ≡ wrong_space ty c edge }
{
    is_white(ty, c) && (edge || c != 32)
}

fn is_outside(ty: TextType, c: u32) -> bool
    ensures { result ≡ outside_id ty c }
{
    match ty {
        TextType::Text | TextType::String => false,
        TextType::StringID => !is_within(0x20, 0x7E, c),
    }
}

// The rule that a character breaks, 0 for none; at an edge no space may stand. Nearly all characters
// are from U+0021 to U+007E, which break none, and are told first.
fn rule_of(ty: TextType, c: u32, edge: bool) -> u32
    ensures { result ≡ rule_broken ty c edge }
{
    if is_within(0x21, 0x7E, c) {
        return 0;
    }
    if is_barred(c) {
        return 1;
    }
    if is_wrong_space(ty, c, edge) {
        return 2;
    }
    if is_outside(ty, c) {
        return 3;
    }
    if is_within(0xD800, 0xDFFF, c) {
        return 4;
    }
    0
}

// Whether a character that ends at `next` stands at an edge: behind another edge or a space, or
// right before the closing quote.
fn is_edge(edge: bool, s: &[u8], next: usize) -> bool
    ensures { result ≡ (edge || closes_at s.now next) }
{
    edge || byte_at(s, next) == 34
}

// The earlier wrong character, or else the one at i where it breaks a rule.
fn first_of(earlier: Wrong, rule: u32, i: usize) -> Wrong
    ensures { result ≡ first_wrong earlier (wrong_here rule i) }
{
    if 0 < earlier.rule {
        earlier
    } else if 0 < rule {
        Wrong { rule, place: i }
    } else {
        Wrong { rule: 0, place: 0 }
    }
}

// Whether a byte is a character by itself that breaks no rule of any type: U+0021 to U+007E but the quote
// and the backslash. Most bytes are over the quote, and two tests tell them.
fn is_graphic(b: u8) -> bool
    ensures { result ≡ is_graphic b }
{
    b != 92 && (is_within(0x23, 0x7E, b as u32) || b == 33)
}

// The first place from i on that does not hold such a byte, byte by byte.
fn bytes_end(s: &[u8], i: usize) -> usize
    ensures { result ≡ run_end s.now i }
{
    for k in i..s.len() {
        if !is_graphic(s[k]) {
            return k;
        }
    }
    i.max(s.len())
}

// Which bytes of a number are no such bytes: the highest bit of each that is none. The sums are of the seven lower
// bits of each byte, so that none carries into the next; they reach the highest bit at 0x7F, from 0x21 on, and at all
// but the quote or the backslash.
pub fn odd_bytes(x: u64) -> u64
    ensures { result ≡ odd_bytes x }
{
    let y = x & 0x7F7F7F7F7F7F7F7F;
    let over = y + 0x0101010101010101;
    let graphic = y + 0x5F5F5F5F5F5F5F5F;
    let no_quote = (y ^ 0x2222222222222222) + 0x7F7F7F7F7F7F7F7F;
    let no_slash = (y ^ 0x5C5C5C5C5C5C5C5C) + 0x7F7F7F7F7F7F7F7F;
    ((x | over) | (((graphic & no_quote) & no_slash) ^ 0x8080808080808080)) & 0x8080808080808080
}

// Which bytes of a number are no spaces: the highest bit of each that is none.
fn no_space_bytes(x: u64) -> u64
    ensures { result ≡ no_space_bytes x }
{
    let differs = (x & 0x7F7F7F7F7F7F7F7F) ^ 0x2020202020202020;
    let over = differs + 0x7F7F7F7F7F7F7F7F;
    (x | over) & 0x8080808080808080
}

// Which bytes of a number stop words with single spaces between them: the highest bit of each that is no such byte and
// no space right before one. What follows the last byte isn't known: a space there is not flagged.
fn stop_bytes(x: u64) -> u64
    ensures { result ≡ stop_bytes x }
{
    let odd = odd_bytes(x);
    odd & ((odd / 256) | no_space_bytes(x))
}

// Which byte of a number, from 0, holds its lowest bit; 8 for the number 0.
pub fn first_byte(x: u64) -> usize
    ensures { result ≡ first_byte x }
{
    (u64::trailing_zeros(x) as usize) / 8
}

// As odd_bytes, but only the lowest flag is right, which is cheaper: a sum that carries and a difference that borrows do
// so out of a byte that has a flag, and only flags above it may be wrong.
fn lowest_odd(x: u64) -> u64
    ensures { first_byte result ≡ first_byte (odd_bytes x) }
{
    let low = std::num::wrapping_sub_u64(x, 0x2121212121212121);
    let high = std::num::wrapping_add_u64(x, 0x0101010101010101);
    let quote = std::num::wrapping_sub_u64(x ^ 0x2222222222222222, 0x0101010101010101);
    let slash = std::num::wrapping_sub_u64(x ^ 0x5C5C5C5C5C5C5C5C, 0x0101010101010101);
    ((((x | low) | high) | quote) | slash) & 0x8080808080808080
}

// The first place from i on that does not hold such a byte: eight bytes at a time while there are eight and one more,
// as most bytes of a file stand in runs. Many IDs have eight characters, so a quote is asked for behind eight bytes.
pub fn run_end(s: &[u8], i: usize) -> usize
    ensures { result ≡ run_end s.now i }
{
    if s.len() <= i {
        return i;
    }
    let mut j = i;
    while j + 8 < s.len() {
        let odd = lowest_odd(eight_at(s, j));
        if odd != 0 {
            return j + first_byte(odd);
        }
        j += 8;
        if s[j] == 34 {
            return j;
        }
    }
    bytes_end(s, j)
}

// The place of the closing quote of the string whose opening quote stands at `at`, where only such bytes
// stand between the two, and one at least: they are its characters, and it breaks no rule. 0 for any other.
pub fn plain_end(s: &[u8], at: usize) -> usize
    ensures { result ≡ plain_end s.now at }
{
    if byte_at(s, at) != 34 {
        return 0;
    }
    let j = run_end(s, at + 1);
    if j <= at + 1 {
        return 0;
    }
    if byte_at(s, j) == 34 {
        return j;
    }
    0
}

// A place from i on that does not hold such a byte, and up to which such bytes and single spaces between them stand:
// eight bytes at a time while there are eight, of which the last is looked at again, with the one behind it. A space
// at i itself is not passed, as an edge may stand there.
fn words_end(s: &[u8], i: usize) -> usize
    requires { i ≤ length s.now }
    ensures { Words s.now i result }
{
    if byte_at(s, i) == 32 {
        return i;
    }
    let mut k = i;
    while k + 8 <= s.len() {
        let stop = stop_bytes(eight_at(s, k));
        if stop != 0 {
            return k + first_byte(stop);
        }
        k += 7;
    }
    bytes_end(s, k)
}

// Behind words of such bytes there is no edge.
fn is_edge_behind(edge: bool, i: usize, j: usize) -> bool
    ensures { result ≡ edge_behind edge i j }
{
    edge && j <= i
}

// Whether an escape stands at j whose character breaks no rule of any type: `\u0030` to `\u007e`, a digit over 9
// written small. What is no such escape is left to a step.
fn is_plain_escape(s: &[u8], j: usize) -> bool
    ensures { result ≡ true → PlainEscape s.now j }
{
    if s.len() < j {
        return false;
    }
    let &[b'\\', b'u', b'0', b'0', third, last, ..] = &s[j..] else {
        return false;
    };
    is_within(51, 55, third as u32)
        && (is_within(48, 57, last as u32)
            || is_within(97, 101, last as u32)
            || (last == 102 && third != 55))
}

// The string whose opening quote stands at `at`: the place behind its closing quote or its fault,
// and its first character that breaks a rule of the type. Most bytes are in words with single spaces between them,
// and most others in a plain escape: none of these needs a step.
pub fn read_text(s: &[u8], at: usize, ty: TextType) -> TextRead
    ensures { result ≡ text_read ty s.now at }
{
    let mut wrong = Wrong { rule: 0, place: 0 };
    if byte_at(s, at) != 34 {
        return TextRead {
            reading: Err(Fault {
                kind: 11,
                place: at,
            }),
            wrong,
        };
    }
    let mut i = at + 1;
    let mut edge = true;
    loop {
        let j = words_end(s, i);
        if byte_at(s, j) == 34 {
            let end = j + 1;
            return TextRead {
                reading: Ok(end),
                wrong,
            };
        }
        if is_plain_escape(s, j) {
            edge = false;
            i = j + 6;
        } else {
            match step_at(s, j) {
                Step::Char { code, next } => {
                    let near = is_edge(is_edge_behind(edge, i, j), s, next);
                    wrong = first_of(wrong, rule_of(ty, code, near), j);
                    edge = code == 32;
                    i = next;
                }
                Step::Close => {
                    return TextRead {
                        reading: Ok(j + 1),
                        wrong,
                    };
                }
                Step::Bad { kind, place } => {
                    return TextRead {
                        reading: Err(Fault { kind, place }),
                        wrong,
                    };
                }
            }
        }
    }
}
