// Whether two strings have the same characters, walked side by side where they stand: of any
// length, in one slice or two, escapes decoded on the way, with no copy.
#![tactic(auto, unfolding(json_bytes::specs::Reads::within, crate::specs::Same::cased_as, crate::specs::Same::is_plain, crate::specs::Walk::beginning, crate::specs::Walk::is_end, crate::specs::Walk::pair_of))]

ghost use Rattle.std.specs.Prelude.{◌≡◌, ◌≤◌, length};
ghost use Rattle.json_chars.specs.Chars.{chars_at};
ghost use Rattle.json_same.specs.Same.{cased_as, same_as, is_plain};
ghost use Rattle.json_same.specs.Walk.{Alike, beginning, is_end, pair_of, run_from};

use json_bytes::{byte_at, eight_at, is_within};
use json_chars::{Step, step_at};
use json_text::{first_byte, odd_bytes};

// How letters are compared: names as they are, IDs and enumeration values with A–Z folded to a–z.
#[derive(Clone, Copy)]
pub enum Case {
    Kept,
    Folded,
}

// A character as it is compared.
fn cased(case: Case, code: u32) -> u32
    ensures { result ≡ cased_as case code }
{
    match case {
        Case::Folded if is_within(65, 90, code) => code + 32,
        _ => code,
    }
}

// Where the characters begin of the string whose opening quote stands at a place: behind it; and
// where no quote stands there, at the slice's end, which holds no character.
pub fn beginning_of(s: &[u8], at: usize) -> usize
    ensures { result ≡ beginning s.now at }
{
    if byte_at(s, at) == 34 {
        at + 1
    } else {
        s.len()
    }
}

// Whether a step came to the end of a string's characters.
fn is_end(step: Step) -> bool
    ensures { result ≡ is_end step }
{
    match step {
        Step::Char { .. } => false,
        Step::Close | Step::Bad { .. } => true,
    }
}

// Whether a byte stands for itself inside a string: no quote, no escape, no part of a sequence. Most
// bytes are over 34, the quote, and two tests tell them.
pub fn is_plain(b: u32) -> bool
    ensures { result ≡ is_plain b }
{
    b != 92 && (is_within(35, 127, b) || (b != 34 && is_within(32, 127, b)))
}

// Two bytes side by side, a character beginning at each.
#[derive(Clone, Copy)]
enum Pair {
    // Both stand for themselves, and are the same as they are compared.
    Same,
    // Both stand for themselves, and are not the same.
    Apart,
    // One of them does not.
    Other,
}

// What two bytes are to each other. Equal ones come first: they are the most, and need no folding.
fn pair_of(case: Case, p: u32, q: u32) -> Pair
    ensures { result ≡ pair_of case p q }
{
    if p == q {
        if is_plain(p) { Pair::Same } else { Pair::Other }
    } else if is_plain(p) && is_plain(q) {
        let same = cased(case, p) == cased(case, q);
        if same { Pair::Same } else { Pair::Apart }
    } else {
        Pair::Other
    }
}

// How far two strings go side by side from a character of each on: over how many bytes, to a place where a step has to
// tell what stands there, or to the end of a slice; none where they come to two bytes that are apart.
fn run_of(s: &[u8], t: &[u8], case: Case) -> Option<usize>
    ensures { result ≡ run_from case 0 s.now t.now }
{
    let n = s.len().min(t.len());
    for k in 0..n {
        match pair_of(case, u32::from(s[k]), u32::from(t[k])) {
            Pair::Same => {}
            Pair::Apart => return None,
            Pair::Other => return Some(k),
        }
    }
    Some(n)
}

// How many of the next eight bytes are the same in both and stand for themselves: those before the
// first in which the two differ, or that is odd; a space is. 0 where either has not so many left.
pub fn alike_at(a: &[u8], x: usize, b: &[u8], y: usize) -> usize
    requires { (x ≤ length a.now) × (y ≤ length b.now) }
    ensures { Alike a.now x b.now y result }
{
    if a.len() < x + 8 || b.len() < y + 8 {
        return 0;
    }
    let p = eight_at(a, x);
    first_byte((p ^ eight_at(b, y)) | odd_bytes(p))
}

// Whether the strings at two places have the same characters. A turn passes up to eight bytes that
// are the same at once, as many as a short ID has; a run of bytes goes on from there.
pub fn same_text(a: &[u8], i: usize, b: &[u8], j: usize, case: Case) -> bool
    ensures { result ≡ same_as case (chars_at a.now i) (chars_at b.now j) }
{
    let mut x = beginning_of(a, i);
    let mut y = beginning_of(b, j);
    loop {
        let m = alike_at(a, x, b, y);
        x += m;
        y += m;
        // Most strings end here: asked for at once, their closing quote saves a run and a step.
        if byte_at(a, x) == 34 {
            return is_end(step_at(b, y));
        }
        let Some(n) = run_of(&a[x..], &b[y..], case) else {
            return false;
        };
        x += n;
        y += n;
        let Step::Char { code, next } = step_at(a, x) else {
            return is_end(step_at(b, y));
        };
        let Step::Char {
            code: other,
            next: behind,
        } = step_at(b, y)
        else {
            return false;
        };
        if cased(case, code) != cased(case, other) {
            return false;
        }
        x = next;
        y = behind;
    }
}

// Whether the characters of the string at a place are those of a word.
pub fn text_is(s: &[u8], at: usize, word: &[u8], case: Case) -> bool
    ensures { result ≡ same_as case (chars_at s.now at) word.now }
{
    let mut i = beginning_of(s, at);
    let mut k = 0;
    loop {
        let Some(n) = run_of(&s[i..], &word[k..], case) else {
            return false;
        };
        i += n;
        k += n;
        let Step::Char { code, next } = step_at(s, i) else {
            return word.len() <= k;
        };
        if word.len() <= k {
            return false;
        }
        if cased(case, code) != cased(case, byte_at(word, k) as u32) {
            return false;
        }
        i = next;
        k += 1;
    }
}
