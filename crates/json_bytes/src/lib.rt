// What every reader of a file's bytes stands on: a byte at a place, or eight of them, the answer of a
// reader, and the two simplest readers.
#![tactic(auto, unfolding(crate::specs::Reads::within, crate::specs::Reads::is_space, crate::specs::Reads::spaces_end, crate::specs::Reads::literal_at, crate::specs::Ascii::codes))]

ghost use Rattle.std.specs.Prelude.{◌≡◌, ◌+◌, ◌≤◌, ◌<◌, length};
ghost use Rattle.json_bytes.specs.Eight.{packed_at, eight_at};
ghost use Rattle.json_bytes.specs.Reads.{byte_at, within, is_space, spaces_end, literal_at, spelled_at};

// What is wrong with a file, and where: the kind is the number that document 01, "Marks 0 to 19", gives it, which the
// C interface hands on as it is.
#[derive(Clone, Copy)]
pub struct Fault {
    pub kind: u32,
    pub place: usize,
}

// What reading a token gives: the place behind it, or its fault.
pub type Reading = Result<usize, Fault>;

// The byte at a place, and 0 past the end: no JSON text holds a 0, so that a file that is cut off
// fails where its next byte is looked at.
pub fn byte_at(s: &[u8], i: usize) -> u8
    ensures { result ≡ byte_at s.now i }
{
    if i < s.len() { s[i] } else { 0 }
}

// ---- Eight bytes at once
fn wide(b: u8) -> u64
    ensures { (result ≡ b) × (result < 256) }
{
    b as u64
}

// Four bytes as one number, the first the lowest.
fn four_at(s: &[u8], i: usize) -> u64
    requires { i + 4 ≤ length s.now }
    ensures { (result ≡ packed_at 4 s.now i) × (result < 4294967296) }
{
    wide(s[i]) + wide(s[i + 1]) * 256 + wide(s[i + 2]) * 65536 + wide(s[i + 3]) * 16777216
}

// Eight of them, from i on, as one number. Read so, they are one load. That they are there is the caller's to know: a test
// here would be made again in each turn of the loops that go by eights.
pub fn eight_at(s: &[u8], i: usize) -> u64
    requires { i + 8 ≤ length s.now }
    ensures { result ≡ eight_at s.now i }
{
    four_at(s, i) + four_at(s, i + 4) * 4294967296
}

// ---- The simplest tests and readers

// Whether a number lies from lo to hi, both included.
pub fn is_within(lo: u32, hi: u32, x: u32) -> bool
    ensures { result ≡ within lo hi x }
{
    (lo..=hi).contains(&x)
}

fn is_space(b: u8) -> bool
    ensures { result ≡ is_space b }
{
    b == b'\t' || b == b'\n' || b == b'\r' || b == b' '
}

// The first place from `at` on that no space byte holds.
pub fn skip_spaces(s: &[u8], at: usize) -> usize
    ensures { result ≡ spaces_end s.now at }
{
    for i in at..s.len() {
        if !is_space(s[i]) {
            return i;
        }
    }
    at.max(s.len())
}

// A word letter by letter: whole behind its last, or 11 at the first byte that differs.
fn word_at(s: &[u8], at: usize, word: &[u8]) -> Reading
    requires { at < length s.now }
    ensures { result ≡ spelled_at s.now at word.now }
{
    for (k, letter) in word.iter().enumerate() {
        if byte_at(s, at + k) != *letter {
            return Err(Fault {
                kind: 11,
                place: at + k,
            });
        }
    }
    Ok(at + word.len())
}

// A literal: true, false or null whole, or 11 at the first byte that differs.
pub fn literal_at(s: &[u8], at: usize) -> Reading
    ensures { result ≡ literal_at s.now at }
{
    match byte_at(s, at) {
        b't' => word_at(s, at, b"true"),
        b'f' => word_at(s, at, b"false"),
        b'n' => word_at(s, at, b"null"),
        _ => Err(Fault {
            kind: 11,
            place: at,
        }),
    }
}
