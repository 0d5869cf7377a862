// Readers of lent rows: a table's fields, five numbers each, and enumeration values, two numbers
// each. They know the form of the rows and no document.
#![tactic(auto, unfolding(crate::specs::Rows::cell_at, crate::specs::Rows::first_field, crate::specs::Rows::field_count, crate::specs::Run::counts))]

ghost use Rattle.std.specs.Prelude.{◌≡◌, drop};
ghost use Rattle.json_bytes.specs.Reads.{leading};
ghost use Rattle.table_rows.specs.Rows.{cell_at, type_at, nullable_at, name_start, name_end, rows_after, tables_in, first_field, field_count, value_name_start, value_end};
ghost use Rattle.table_rows.specs.Run.{counts};

// The primitive data types, by the numbers that rows hold. No enum (what may not change): a lent row may hold any
// number, and the contracts of `field_type` and of `value_at` above speak of each.
pub const BOOLEAN: u32 = 0;

pub const DATE: u32 = 1;

pub const DECIMAL: u32 = 2;

pub const INTEGER: u32 = 3;

pub const STRING: u32 = 4;

pub const STRING_ID: u32 = 5;

pub const TEXT: u32 = 6;

// ---- A row

// Number k of a row, in rows of one width; 0 past the end. Rows of no width all start at the front.
pub fn cell_at(rows: &[u32], width: usize, row: usize, k: usize) -> u32
    ensures { result ≡ cell_at rows.now width row k }
{
    let Some(before) = row.checked_mul(width) else {
        return 0;
    };
    let Some(at) = before.checked_add(k) else {
        return 0;
    };
    if at < rows.len() { rows[at] } else { 0 }
}

pub fn field_type(rows: &[u32], f: usize) -> u32
    ensures { result ≡ type_at rows.now f }
{
    cell_at(rows, 5, f, 1)
}

pub fn is_nullable(rows: &[u32], f: usize) -> bool
    ensures { result ≡ nullable_at rows.now f }
{
    cell_at(rows, 5, f, 2) == 1
}

// A name stands in the names from its start up to its end.
pub fn name_start(rows: &[u32], f: usize) -> usize
    ensures { result ≡ name_start rows.now f }
{
    cell_at(rows, 5, f, 3) as usize
}

pub fn name_end(rows: &[u32], f: usize) -> usize
    ensures { result ≡ name_end rows.now f }
{
    cell_at(rows, 5, f, 4) as usize
}

// A value stands in the texts from its start up to its end.
pub fn value_start(places: &[u32], v: usize) -> usize
    ensures { result ≡ value_name_start places.now v }
{
    cell_at(places, 2, v, 0) as usize
}

pub fn value_end(places: &[u32], v: usize) -> usize
    ensures { result ≡ value_end places.now v }
{
    cell_at(places, 2, v, 1) as usize
}

// ---- The rows of a table

// The rows behind the first f of them, as that part of the lent rows; empty where there are not so
// many.
#[tactic(auto, using(crate::proofs::Laws::parting))]
pub fn rows_after(rows: &[u32], f: usize) -> &[u32]
    ensures { result.now ≡ rows_after rows.now f }
{
    if rows.len() / 5 < f {
        return &rows[..0];
    }
    let at = f * 5;
    &rows[at..]
}

// Whether a row that names table t counts: a row of table k, or where `own` is false of any other.
fn is_counted(t: u32, k: usize, own: bool) -> bool
    ensures { result ≡ counts k own t }
{
    if own {
        t as usize == k
    } else {
        t as usize != k
    }
}

// How many rows from `from` on count, one behind the other.
#[tactic(auto, using(crate::proofs::Laws::walking))]
fn run(rows: &[u32], k: usize, own: bool, from: usize) -> usize
    ensures { result ≡ leading (counts k own) (drop from (tables_in rows.now)) }
{
    for f in from..rows.len() / 5 {
        if !is_counted(rows[f * 5], k, own) {
            return f - from;
        }
    }
    (rows.len() / 5).saturating_sub(from)
}

// The number of table k's first field; the count of all rows where it has none.
pub fn first_field(rows: &[u32], k: usize) -> usize
    ensures { result ≡ first_field rows.now k }
{
    run(rows, k, false, 0)
}

pub fn field_count(rows: &[u32], k: usize) -> usize
    ensures { result ≡ field_count rows.now k }
{
    run(rows, k, true, first_field(rows, k))
}
