// A file of a set: its own mark, the number of its records, and where each value of each record
// stands, found in one pass.
#![tactic(auto, unfolding(crate::specs::Table::companion_of, crate::specs::Table::names_record, crate::specs::Table::end_of_file, crate::specs::Table::single_read, crate::specs::File::fixed_read, crate::specs::File::omitted, json_bytes::specs::Reads::within))]

ghost use Rattle.std.specs.Prelude.{◌≡◌, true, false, cond, ◌≤◌, ◌<◌, length};
ghost use Rattle.parts.specs.Files.{new_file};
ghost use Rattle.table_rows.specs.Rows.{fields_from};
ghost use Rattle.table_name.specs.Guess.{names_apart};
ghost use Rattle.table_record.specs.Record.{cells_filled};
ghost use Rattle.table_record.specs.Required.{required_from};
ghost use Rattle.table_file.specs.Table.{table_read, end_of_file, single_read, single_at, element_at, elements_from, array_at, read_table, companion_of};
ghost use Rattle.table_file.specs.File.{omitted, fixed_read, file_of, expected_from};

use json_bytes::{Fault, Reading, byte_at, skip_spaces};
use table_name::{Next, fill_hints, first_in, names_apart, next_after, same_bytes};
use table_record::{fill_required, read_record};
use table_value::not_object_at;

// The forms of a file. Any other number is that of a fixed text too. No enum (what may not change): `read_file` takes
// any number, and its contract speaks of each.
pub const RECORDS: u32 = 0;

pub const SINGLE: u32 = 1;

pub const FIXED: u32 = 2;

// The mark of a file, kind 0 and place 0 where it holds, and how many records it then has. The mark's
// third number is its companion: the record that a fault of a record's kind stands in. No Result (what may not
// change): the clauses of `read_table` and `read_file` name these four numbers.
#[derive(Clone, Copy)]
pub struct FileRead {
    pub kind: u32,
    pub place: usize,
    pub records: usize,
    pub companion: usize,
}

// The third number of a fault in the record of this number: kinds 13 to 18 and 30 to 34 name it, any
// other has 0.
fn companion_of(kind: u32, number: usize) -> usize
    ensures { result ≡ companion_of kind number }
{
    match kind {
        13..=18 | 30..=34 => number,
        _ => 0,
    }
}

// Behind the file's value, which ends at `at`, only spaces may stand.
fn end_of_file(s: &[u8], at: usize, records: usize) -> FileRead
    ensures { result ≡ end_of_file s.now at records }
{
    let place = skip_spaces(s, at);
    if place < s.len() {
        return FileRead {
            kind: 11,
            place,
            records: 0,
            companion: 0,
        };
    }
    FileRead {
        kind: 0,
        place: 0,
        records,
        companion: 0,
    }
}

// The mark of a file whose value is one token, read with this answer.
fn single_of(s: &[u8], reading: Reading) -> FileRead
    ensures { result ≡ single_read s.now reading }
{
    match reading {
        Ok(end) => end_of_file(s, end, 1),
        Err(Fault { kind, place }) => FileRead {
            kind,
            place,
            records: 0,
            companion: companion_of(kind, 1),
        },
    }
}

// The element at `at` of a table of which r records have been read.
fn element_at(
    s: &[u8],
    at: usize,
    rows: &[u32],
    names: &[u8],
    count: usize,
    hints: &[u8],
    required: &[u8],
    cells: &mut [u32],
    r: usize,
) -> Reading
    requires hinted_names_apart { 0 < length hints.now → names_apart rows.now names.now count ≡ true }
    requires required_of_rows { count ≤ 64 → required.now ≡ required_from rows.now count 0 }
    ensures { cells_filled cells.new result ≡ element_at (fields_from rows.now names.now count 0) s.now at cells.old r }
{
    if byte_at(s, at) != b'{' {
        return not_object_at(s, at);
    }
    if 4096 <= r {
        return Err(Fault {
            kind: 20,
            place: at,
        });
    }
    // A record of so many fields has no room anywhere; told here, where its cells would start is
    // a number that fits.
    if 64 < count {
        return Err(Fault {
            kind: 99,
            place: at,
        });
    }
    read_record(
        s,
        at,
        rows,
        names,
        count,
        hints,
        required,
        cells,
        r * (2 * count),
    )
}

// The elements from `from` on, up to the closing bracket and the end of the file; of a singleton the one object at
// `from`, up to the end of the file. Both go through one loop, so that reading a record is called from one place: there
// it is put in place by the compiler, and no record pays for a call.
fn read_elements(
    s: &[u8],
    from: usize,
    rows: &[u32],
    names: &[u8],
    count: usize,
    hints: &[u8],
    required: &[u8],
    cells: &mut [u32],
    single: bool,
) -> FileRead
    requires from_inside { single ≡ false → (0 < from) × (from ≤ length s.now) }
    requires hinted_names_apart { 0 < length hints.now → names_apart rows.now names.now count ≡ true }
    requires required_of_rows { count ≤ 64 → required.now ≡ required_from rows.now count 0 }
    ensures { table_read cells.new result ≡ cond single (single_at (fields_from rows.now names.now count 0) s.now cells.old from) (elements_from (length s.now) (fields_from rows.now names.now count 0) s.now from cells.old 0) }
{
    let mut at = from;
    let mut r = 0;
    loop {
        match element_at(s, at, rows, names, count, hints, required, cells, r) {
            Ok(end) => {
                if single {
                    return end_of_file(s, end, 1);
                }
                match next_after(s, end, b']') {
                    Next::More { at: next } => {
                        at = next;
                        r += 1;
                    }
                    Next::Ends { at: last } => {
                        return end_of_file(s, last + 1, r + 1);
                    }
                    Next::Neither { at: place } => {
                        return FileRead {
                            kind: 11,
                            place,
                            records: 0,
                            companion: 0,
                        };
                    }
                }
            }
            Err(Fault { kind, place }) => {
                return FileRead {
                    kind,
                    place,
                    records: 0,
                    companion: companion_of(kind, r + 1),
                };
            }
        }
    }
}

// The same. Which fields must hold a value is put down once for all elements, and whether the names are told
// apart by their bytes is found out once, with the hints, which say by three bytes of a name which field it is
// likely to be. Where the names are not told apart, there are no hints, and nothing is guessed.
fn read_hinted(
    s: &[u8],
    from: usize,
    rows: &[u32],
    names: &[u8],
    count: usize,
    cells: &mut [u32],
) -> FileRead
    requires { (0 < from) × (from ≤ length s.now) }
    ensures { table_read cells.new result ≡ elements_from (length s.now) (fields_from rows.now names.now count 0) s.now from cells.old 0 }
{
    let mut required = [0u8; 64];
    let n = fill_required(rows, count, &mut required);
    if !names_apart(rows, names, count) {
        return read_elements(
            s,
            from,
            rows,
            names,
            count,
            b"",
            &required[..n],
            cells,
            false,
        );
    }
    let mut hints = [255u8; 256];
    fill_hints(rows, names, count, &mut hints);
    read_elements(
        s,
        from,
        rows,
        names,
        count,
        &hints,
        &required[..n],
        cells,
        false,
    )
}

// A singleton. It is one record, for which it doesn't pay to find out whether the names are told apart
// by their bytes: it has no hints.
fn read_single(
    s: &[u8],
    at: usize,
    rows: &[u32],
    names: &[u8],
    count: usize,
    cells: &mut [u32],
) -> FileRead
    ensures { table_read cells.new result ≡ single_at (fields_from rows.now names.now count 0) s.now cells.old at }
{
    let mut required = [0u8; 64];
    let n = fill_required(rows, count, &mut required);
    read_elements(s, at, rows, names, count, b"", &required[..n], cells, true)
}

// A table of records.
fn read_array(
    s: &[u8],
    at: usize,
    rows: &[u32],
    names: &[u8],
    count: usize,
    cells: &mut [u32],
) -> FileRead
    ensures { table_read cells.new result ≡ array_at (fields_from rows.now names.now count 0) s.now cells.old at }
{
    if byte_at(s, at) != b'[' {
        return single_of(s, not_object_at(s, at));
    }
    match first_in(s, at, b']') {
        Next::More { at: first } => read_hinted(s, first, rows, names, count, cells),
        Next::Ends { at: last } => end_of_file(s, last + 1, 0),
        Next::Neither { at: place } => FileRead {
            kind: 11,
            place,
            records: 0,
            companion: 0,
        },
    }
}

// A table, or a singleton, with the `count` fields that rows and names describe. The cells of its
// records stand one record behind the other; a record that has no room in them is 99.
pub fn read_table(
    single: bool,
    s: &[u8],
    rows: &[u32],
    names: &[u8],
    count: usize,
    cells: &mut [u32],
) -> FileRead
    ensures value { result ≡ (read_table single (fields_from rows.now names.now count 0) s.now cells.old).read }
    ensures cells_after { cells.new ≡ (read_table single (fields_from rows.now names.now count 0) s.now cells.old).cells }
{
    let at = skip_spaces(s, 0);
    if single {
        return read_single(s, at, rows, names, count, cells);
    }
    read_array(s, at, rows, names, count, cells)
}

// A file that is to be a fixed text: 22 where it is not exactly that.
fn fixed_file(s: &[u8], text: &[u8]) -> FileRead
    ensures { result ≡ fixed_read text.now s.now }
{
    if same_bytes(s, text) {
        return FileRead {
            kind: 0,
            place: 0,
            records: 0,
            companion: 0,
        };
    }
    FileRead {
        kind: 22,
        place: 0,
        records: 0,
        companion: 0,
    }
}

// An omitted file: 21 where it is required; any other holds and has no records.
fn omitted_file(required: bool) -> FileRead
    ensures { result ≡ omitted required }
{
    if required {
        return FileRead {
            kind: 21,
            place: 0,
            records: 0,
            companion: 0,
        };
    }
    FileRead {
        kind: 0,
        place: 0,
        records: 0,
        companion: 0,
    }
}

// A file of a form, with the `count` fields that rows and names describe, or with the text that it is
// to be: its mark, and its cells.
pub fn read_file(
    form: u32,
    required: bool,
    present: bool,
    s: &[u8],
    text: &[u8],
    rows: &[u32],
    names: &[u8],
    count: usize,
    cells: &mut [u32],
) -> FileRead
    ensures value { result ≡ (file_of (expected_from form required text.now (fields_from rows.now names.now count 0)) (new_file present s.now) cells.old).read }
    ensures cells_after { cells.new ≡ (file_of (expected_from form required text.now (fields_from rows.now names.now count 0)) (new_file present s.now) cells.old).cells }
{
    if !present {
        return omitted_file(required);
    }
    if form == RECORDS {
        return read_table(false, s, rows, names, count, cells);
    }
    if form == SINGLE {
        return read_table(true, s, rows, names, count, cells);
    }
    fixed_file(s, text)
}
