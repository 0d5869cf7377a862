// The sum of a key where it stands: a 32-bit number that is the same for two strings that are the
// same text, and that seldom is for two that are not. No copy is made: escapes are decoded on the way.
#![tactic(auto, unfolding(json_bytes::specs::Reads::within, json_same::specs::Same::cased_as, crate::specs::Sum::sum_with))]

ghost use Rattle.std.specs.Prelude.{◌≡◌};
ghost use Rattle.json_same.specs.Same.{cased_as};
ghost use Rattle.json_same.specs.Walk.{beginning};
ghost use Rattle.json_same.specs.declared.Case.TheVariants.{Folded};
ghost use Rattle.key_sum.specs.Sum.{sum_with, key_sum};

use json_bytes::{byte_at, is_within};
use json_chars::{Step, step_at};
use json_same::is_plain;

// The sum with one character more, or with another sum.
pub fn sum_with(sum: u32, c: u32) -> u32
    ensures { result ≡ sum_with sum c }
{
    sum.wrapping_mul(31).wrapping_add(c)
}

// A character with A–Z folded to a–z, as IDs are compared.
pub fn folded(code: u32) -> u32
    ensures { result ≡ cased_as Folded code }
{
    if is_within(65, 90, code) {
        code + 32
    } else {
        code
    }
}

// Where the characters begin of the string whose opening quote stands at a place: behind it; and
// where no quote stands there, at the slice's end, which holds no character.
pub fn beginning_of(s: &[u8], at: usize) -> usize
    ensures { result ≡ beginning s.now at }
{
    json_same::beginning_of(s, at)
}

// The sum of the string whose opening quote stands at a place; 0 where none stands there. A string
// that breaks off, or has a fault, is summed up to there, as it is compared up to there. Most bytes
// stand for themselves, and need no step.
pub fn key_sum(s: &[u8], at: usize) -> u32
    ensures { result ≡ key_sum s.now at }
{
    let mut i = beginning_of(s, at);
    let mut sum = 0;
    loop {
        let b = byte_at(s, i) as u32;
        if is_plain(b) {
            sum = sum_with(sum, folded(b));
            i += 1;
        } else {
            let Step::Char { code, next } = step_at(s, i) else {
                return sum;
            };
            sum = sum_with(sum, folded(code));
            i = next;
        }
    }
}
