// Answers cases of the table layer, so that a test can ask the compiled code thousands of them in
// one run. A case on standard input is three little-endian u32 (file number, 1 if the file is
// present, length) and the file's bytes; its answer on standard output is five little-endian u64
// (kind, place, companion, records, n) and the n cells of the records, each a little-endian u32. The
// program ends where the input does, and at a case that is too long or of no file.
#![tactic(auto)]

ghost use Rattle.std.specs.Prelude.{◌+◌, ◌*◌, ◌≤◌, length};

use bundle_bytes::{put_word, word_at};
use program_io::{Host, fill, put_long, write_out};
use table_fields::{field_names, field_rows, file_type};
use table_file::{FIXED, RECORDS, SINGLE, read_file};
use table_rows::{field_count, first_field, rows_after};

// A file's mark, the number of its records, and the number of its table's fields.
#[derive(Clone, Copy)]
struct Answer {
    kind: u64,
    place: u64,
    companion: u64,
    records: usize,
    count: usize,
}

// What stands before the n bytes of a case.
#[derive(Clone, Copy)]
struct Header {
    file: usize,
    present: bool,
    n: usize,
}

// FileType.txt is a fixed text, files 1 to 3 hold an object each, and the others records.
fn form_of(file: usize) -> u32 {
    match file {
        0 => FIXED,
        1..=3 => SINGLE,
        _ => RECORDS,
    }
}

fn is_required(file: usize) -> bool {
    matches!(file, 0 | 1 | 3)
}

fn answer_of(
    file: usize,
    present: bool,
    s: &[u8],
    rows: &[u32],
    names: &[u8],
    cells: &mut [u32],
) -> Answer {
    let own = rows_after(rows, first_field(rows, file));
    let count = field_count(rows, file);
    let form = form_of(file);
    let text = file_type();
    let read = read_file(
        form,
        is_required(file),
        present,
        s,
        &text,
        own,
        names,
        count,
        cells,
    );
    Answer {
        kind: read.kind as u64,
        place: read.place as u64,
        companion: read.companion as u64,
        records: read.records,
        count,
    }
}

// What stands before the next case; none where the input ends.
fn read_header(rt: &impl Host) -> Option<Header> {
    let mut bytes = [0u8; 12];
    if !fill(&mut rt.input(), &mut bytes) {
        return None;
    }
    Some(Header {
        file: word_at(&bytes, 0) as usize,
        present: word_at(&bytes, 4) == 1,
        n: word_at(&bytes, 8) as usize,
    })
}

// The answer to the next case, whose bytes go to the front of a buffer; none where the input ends, or at a case that
// is too long or of no file.
fn next_answer(
    rt: &impl Host,
    rows: &[u32],
    names: &[u8],
    buf: &mut [u8],
    cells: &mut [u32],
) -> Option<Answer> {
    let Header { file, present, n } = read_header(rt)?;
    if 19 < file || buf.len() < n || !fill(&mut rt.input(), &mut buf[..n]) {
        return None;
    }
    Some(answer_of(file, present, &buf[..n], rows, names, cells))
}

// Writes the first n cells into four bytes each.
fn put_cells(out: &mut [u8], at: usize, cells: &[u32], n: usize)
    requires { (n ≤ length cells.now) × (at + 4 * n ≤ length out.old) }
{
    for k in 0..n {
        put_word(out, at + 4 * k, cells[k]);
    }
}

// How many cells an answer has: none where that were more than `most`, or than 4,096 records of 23
// fields have. No right answer has more.
fn cell_count(records: usize, count: usize, most: usize) -> usize
    ensures { (result ≤ most) × (result ≤ 188416) }
{
    if 4096 < records || 23 < count {
        return 0;
    }
    let n = records * (2 * count);
    if most < n { 0 } else { n }
}

// Writes an answer, of at most 753,704 bytes, and gives the place behind it.
fn put_answer(out: &mut [u8], at: usize, answer: Answer, cells: &[u32]) -> usize
    requires { at + 753704 ≤ length out.old }
    ensures { (at + 40 ≤ result) × (result ≤ length out.old) }
{
    let n = cell_count(answer.records, answer.count, cells.len());
    put_long(out, at, answer.kind);
    put_long(out, at + 8, answer.place);
    put_long(out, at + 16, answer.companion);
    put_long(out, at + 24, answer.records as u64);
    put_long(out, at + 32, n as u64);
    put_cells(out, at + 40, cells, n);
    at + 40 + 4 * n
}

// Answers as many cases as the output surely has room for and writes the answers; whether to go on.
fn answer_some(
    rt: &impl Host,
    rows: &[u32],
    names: &[u8],
    buf: &mut [u8],
    cells: &mut [u32],
    out: &mut [u8],
) -> bool {
    let mut used = 0;
    while used + 753704 <= out.len() {
        match next_answer(rt, rows, names, buf, cells) {
            Some(answer) => {
                used = put_answer(out, used, answer, cells);
            }
            None => {
                write_out(rt, &out[..used]);
                return false;
            }
        }
    }
    write_out(rt, &out[..used])
}

// A proved loop has to end, and nothing says that the input does. So the loop counts its turns
// down, from a number that no run uses up.
fn answer_all(
    rt: &impl Host,
    rows: &[u32],
    names: &[u8],
    buf: &mut [u8],
    cells: &mut [u32],
    out: &mut [u8],
) {
    let mut turns = u64::MAX;
    while turns > 0 && answer_some(rt, rows, names, buf, cells, out) {
        turns -= 1;
    }
}

fn main(rt: HostRuntime) {
    let rows = field_rows();
    let names = field_names();
    let mut buf = [0u8; 1048576];
    let mut cells = [0u32; 188416];
    let mut out = [0u8; 1048576];
    answer_all(&rt, &rows, &names, &mut buf, &mut cells, &mut out);
}
