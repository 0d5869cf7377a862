// What the programs share that answer cases of the tests: bytes in and out, and boards, files and reasons
// as numbers. All numbers are little-endian u32. No contract can say what comes from outside or goes
// there, and nothing but a test reads the rest: so the functions here are proved to be safe and to end,
// and what they write is what the tests compare.
#![tactic(auto)]

ghost use Rattle.std.specs.Prelude.{◌%◌, ◌≡◌};

use board::Board;
use bundle::FileState;
use bundle_bytes::{put_word, word_at};
use mark_numbers::{Mark, mark_in, put_mark};
use parts::part;
use program_io::{Host, fill, write_out};
use reason_answer::{Reason, Shown};

// No gate has more marks.
const MOST_MARKS: usize = 96;

// ---- Bytes in and out

// Fills the front of a buffer, where it is long enough.
pub fn fill_front(rt: &impl Host, buf: &mut [u8], n: usize) -> bool {
    n <= buf.len() && fill(&mut rt.input(), &mut buf[..n])
}

pub fn write_part(rt: &impl Host, bytes: &[u8]) -> bool {
    bytes.is_empty() || write_out(rt, bytes)
}

// The lowest 32 bits of a number.
pub fn low(x: usize) -> u32
    ensures { result ≡ x % 4294967296 }
{
    (x % 4294967296) as u32
}

pub fn write_number(rt: &impl Host, x: u32) -> bool {
    let mut out = [0u8; 4];
    put_word(&mut out, 0, x);
    write_out(rt, &out)
}

fn pattern(seed: usize, i: usize) -> u8 {
    ((seed % 256 + i % 256 * 7) % 256) as u8
}

// Puts a pattern into an output, by which a test sees what was written over it.
pub fn lay(out: &mut [u8], seed: usize) {
    for (i, byte) in out.iter_mut().enumerate() {
        *byte = pattern(seed, i);
    }
}

// ---- Boards

// Takes the lists of a board from three numbers for each mark, as many as there is room for.
pub fn get_marks(bytes: &[u8], kinds: &mut [u32], places: &mut [usize], companions: &mut [usize]) {
    for m in 0..MOST_MARKS {
        let mark = Mark {
            kind: word_at(bytes, 12 * m),
            place: word_at(bytes, 12 * m + 4) as usize,
            companion: word_at(bytes, 12 * m + 8) as usize,
        };
        put_mark(m, mark, kinds, places, companions);
    }
}

// Puts them as three numbers for each mark behind the first twelve bytes, which are for what else is answered.
pub fn put_marks(out: &mut [u8], kinds: &[u32], places: &[usize], companions: &[usize]) {
    for m in 0..MOST_MARKS {
        let mark = mark_in(kinds, places, companions, m);
        put_word(out, 12 * m + 12, mark.kind);
        put_word(out, 12 * m + 16, low(mark.place));
        put_word(out, 12 * m + 20, low(mark.companion));
    }
}

pub fn read_board(rt: &impl Host) -> Board {
    let mut bytes = [0u8; 972];
    let mut kinds = [0u32; 81];
    let mut places = [0usize; 81];
    let mut companions = [0usize; 81];
    fill(&mut rt.input(), &mut bytes);
    get_marks(&bytes, &mut kinds, &mut places, &mut companions);
    Board {
        kinds,
        places,
        companions,
    }
}

// Writes a refusal, or 0, and a board.
pub fn write_board(rt: &impl Host, refusal: u32, board: Board) -> bool {
    let mut out = [0u8; 984];
    let kinds = board.kinds;
    let places = board.places;
    let companions = board.companions;
    put_marks(&mut out, &kinds, &places, &companions);
    put_word(&mut out, 8, refusal);
    write_part(rt, part(&out, 8, 984))
}

// The same with a length between them.
pub fn write_sized(rt: &impl Host, refusal: u32, length: usize, board: Board) -> bool {
    write_number(rt, refusal) && write_board(rt, low(length), board)
}

// ---- A file, and a reason

fn state_number(state: FileState) -> u32 {
    match state {
        FileState::Present => 0,
        FileState::Omitted => 1,
        FileState::Refused { number: _ } => 2,
    }
}

fn state_refusal(state: FileState) -> u32 {
    match state {
        FileState::Present | FileState::Omitted => 0,
        FileState::Refused { number } => number,
    }
}

// Writes what a lookup of a file answers: 0 for present, 1 for omitted or 2 for refused, the refusal, the length
// and the file.
pub fn write_file(rt: &impl Host, state: FileState, file: &[u8]) -> bool {
    let mut out = [0u8; 12];
    put_word(&mut out, 0, state_number(state));
    put_word(&mut out, 4, state_refusal(state));
    put_word(&mut out, 8, low(file.len()));
    write_out(rt, &out) && write_part(rt, file)
}

fn put_record(out: &mut [u8], tag: u32, shown: Shown) {
    put_word(out, 0, tag);
    put_word(out, 4, low(shown.file));
    put_word(out, 8, low(shown.record));
    put_word(out, 12, low(shown.companion));
}

fn put_field(out: &mut [u8], shown: Shown, searched: usize) {
    put_word(out, 16, low(shown.field));
    put_word(out, 20, low(shown.start));
    put_word(out, 24, low(shown.length));
    put_word(out, 28, low(searched));
}

fn put_shown(out: &mut [u8], tag: u32, shown: Shown, searched: usize) {
    put_record(out, tag, shown);
    put_field(out, shown, searched);
}

// Puts a number behind its tag.
fn put_told(out: &mut [u8], tag: u32, number: u32) {
    put_word(out, 0, tag);
    put_word(out, 4, number);
}

fn put_own_mark(out: &mut [u8], kind: u32, place: usize, companion: usize) {
    put_told(out, 3, kind);
    put_word(out, 8, low(place));
    put_word(out, 12, low(companion));
}

fn put_reason(out: &mut [u8], reason: Reason) {
    match reason {
        Reason::Refused { refusal } => put_told(out, 0, refusal),
        Reason::Holds => put_told(out, 1, 0),
        Reason::NotJudged { file } => put_told(out, 2, low(file)),
        Reason::OwnMark {
            kind,
            place,
            companion,
        } => put_own_mark(out, kind, place, companion),
        Reason::Broken { shown } => put_shown(out, 4, shown, 0),
        Reason::Missing { shown, searched } => put_shown(out, 5, shown, searched),
    }
}

// Writes a reason as nine numbers: 0 and the refusal; 1 for a mark that holds; 2 and the unreadable file; 3, kind,
// place and companion; 4 or, for a missing target, 5, then file, record, companion, field, start, length and the
// file searched; 0 for the rest.
pub fn write_reason(rt: &impl Host, reason: Reason) -> bool {
    let mut out = [0u8; 36];
    put_reason(&mut out, reason);
    write_out(rt, &out)
}
