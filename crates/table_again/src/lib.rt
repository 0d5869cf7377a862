// A table of a set read once more, for whoever needs the number of its records beside its cells.
#![tactic(auto)]

ghost use Rattle.std.specs.Prelude.{◌≡◌, length};
ghost use Rattle.table_again.specs.Again.{file_read_again};

use bundle::{is_omitted, part_at};
use gate_marks::clear;
use table_fields::{field_names, field_rows};
use table_file::{FileRead, read_file};
use table_rows::{field_count, first_field, rows_after};

// The form of a file that is an array of records.
const RECORDS: u32 = 0;

// Reads file k of a bundle into lent cells, whatever these held; answers its mark and the number of its
// records.
pub fn read_again(bundle: &[u8], k: usize, cells: &mut [u32]) -> FileRead
    ensures value { result ≡ (file_read_again bundle.now k (length cells.old)).read }
    ensures cells_after { cells.new ≡ (file_read_again bundle.now k (length cells.old)).cells }
{
    clear(cells);
    let fields = field_rows();
    let names = field_names();
    let own = rows_after(&fields, first_field(&fields, k));
    let count = field_count(&fields, k);
    let present = !is_omitted(bundle, k);
    let s = part_at(bundle, k);
    read_file(RECORDS, false, present, s, b"", own, &names, count, cells)
}

// The same; answers the number of its records alone, 0 where it can't be read.
pub fn read_records(bundle: &[u8], k: usize, cells: &mut [u32]) -> usize
    ensures value { result ≡ (file_read_again bundle.now k (length cells.old)).read.records }
    ensures cells_after { cells.new ≡ (file_read_again bundle.now k (length cells.old)).cells }
{
    read_again(bundle, k, cells).records
}
