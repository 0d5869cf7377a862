// The totals of a quarter as a text, a table or comma-separated values. Each function puts what it makes as
// `output` does, and answers the place behind it.
#![tactic(auto, using(output::proofs::Puts::put_then), unfolding(json_bytes::specs::Ascii::codes, crate::specs::Figure::last_four, crate::specs::Figure::size_text, crate::specs::Table::cell, crate::specs::Table::table_line, crate::specs::Table::lines, crate::specs::Table::column_names, crate::specs::Table::comma_text, crate::specs::Table::larger, crate::specs::Table::width, crate::specs::Table::pair, crate::specs::Table::heading, crate::specs::Table::headings, crate::specs::Table::table_text))]

ghost use Rattle.std.specs.Prelude.{◌≡◌, ◌-◌, ◌≤◌, length};
ghost use Rattle.exact_sums.specs.Sums.{whole_at};
ghost use Rattle.output.specs.Output.{output_at, put};
ghost use Rattle.quarter_text.specs.Figure.{last_four, size_text, figure};
ghost use Rattle.quarter_text.specs.Table.{spaces, cell, cells, table_line, lines, comma_text, longest, pair, heading, headings, table_text};

use output::{put_byte, put_digit, put_number, put_text};
use whole_size::{size_of, whole_in};

fn put_last_four(out: &mut [u8], at: usize, n: usize) -> usize
    ensures { output_at out.new result ≡ put (output_at out.old at) (last_four n) }
{
    let first = put_digit(out, at, n / 1000);
    let second = put_digit(out, first, n / 100);
    let third = put_digit(out, second, n / 10);
    put_digit(out, third, n)
}

fn put_size(out: &mut [u8], at: usize, n: usize) -> usize
    ensures { output_at out.new result ≡ put (output_at out.old at) (size_text n) }
{
    let point = put_number(out, at, n / 10000);
    let behind = put_byte(out, point, b'.');
    put_last_four(out, behind, n)
}

// A total of ten-thousandths in dollars or hours.
pub fn put_figure(out: &mut [u8], at: usize, x: i64) -> usize
    ensures { output_at out.new result ≡ put (output_at out.old at) (figure x) }
{
    let size = size_of(x) as usize;
    if x < 0 {
        let next = put_byte(out, at, b'-');
        put_size(out, next, size)
    } else {
        put_size(out, at, size)
    }
}

// How many bytes that takes.
fn figure_length(x: i64) -> usize
    ensures { result ≡ length (figure x) }
{
    let mut scratch = [0u8; 32];
    put_figure(&mut scratch, 0, x)
}

fn put_spaces(out: &mut [u8], at: usize, n: usize) -> usize
    ensures { output_at out.new result ≡ put (output_at out.old at) (spaces n) }
{
    let mut end = at;
    for _i in 0..n {
        end = put_byte(out, end, b' ');
    }
    end
}

// A text behind a separator, to the right of its cell.
fn put_cell(out: &mut [u8], at: usize, between: &[u8], wide: usize, text: &[u8]) -> usize
    ensures { output_at out.new result ≡ put (output_at out.old at) (cell between.now wide text.now) }
{
    let start = put_text(out, at, between);
    let place = put_spaces(out, start, wide.saturating_sub(text.len()));
    put_text(out, place, text)
}

// The same with a figure.
fn put_figure_cell(out: &mut [u8], at: usize, between: &[u8], wide: usize, x: i64) -> usize
    ensures { output_at out.new result ≡ put (output_at out.old at) (cell between.now wide (figure x)) }
{
    let start = put_text(out, at, between);
    let place = put_spaces(out, start, wide.saturating_sub(figure_length(x)));
    put_figure(out, place, x)
}

// Six figures from a place of a list on.
fn put_cells(
    out: &mut [u8],
    at: usize,
    between: &[u8],
    wide: usize,
    list: &[i64],
    from: usize,
) -> usize
    requires { from ≤ 18 }
    ensures { output_at out.new result ≡ put (output_at out.old at) (cells between.now wide list.now from 6) }
{
    let mut end = at;
    for c in 0..6 {
        end = put_figure_cell(out, end, between, wide, whole_in(list, from + c));
    }
    end
}

// A name and six figures, as a line.
fn put_line(
    out: &mut [u8],
    at: usize,
    names: usize,
    between: &[u8],
    wide: usize,
    name: &[u8],
    list: &[i64],
    from: usize,
) -> usize
    requires { from ≤ 18 }
    ensures { output_at out.new result ≡ put (output_at out.old at) (table_line names between.now wide name.now list.now from) }
{
    let behind = put_text(out, at, name);
    let start = put_spaces(out, behind, names.saturating_sub(name.len()));
    let end = put_cells(out, start, between, wide, list, from);
    put_byte(out, end, b'\n')
}

fn put_lines(
    out: &mut [u8],
    at: usize,
    names: usize,
    between: &[u8],
    wide: usize,
    totals: &[i64],
    grand: &[i64],
) -> usize
    ensures { output_at out.new result ≡ put (output_at out.old at) (lines names between.now wide totals.now grand.now) }
{
    let first = put_line(out, at, names, between, wide, b"LABOR", totals, 0);
    let second = put_line(out, first, names, between, wide, b"MATERIAL", totals, 6);
    let third = put_line(
        out,
        second,
        names,
        between,
        wide,
        b"OTHER_DIRECT_COSTS",
        totals,
        12,
    );
    let fourth = put_line(out, third, names, between, wide, b"SUBCONTRACT", totals, 18);
    put_line(out, fourth, names, between, wide, b"all", grand, 0)
}

// Totals of four elements by six columns and the grand totals of the columns, as comma-separated values.
pub fn put_comma_text(out: &mut [u8], at: usize, totals: &[i64], grand: &[i64]) -> usize
    ensures { output_at out.new result ≡ put (output_at out.old at) (comma_text totals.now grand.now) }
{
    let names = put_text(
        out,
        at,
        b"Element,Budget_AtCompletion_Dollars,Budget_AtCompletion_Hours,Estimate_ToComplete_Dollars,Estimate_ToComplete_Hours,Actual_ToDate_Dollars,Actual_ToDate_Hours\n",
    );
    put_lines(out, names, 0, b",", 0, totals, grand)
}

// How long the longest figure of a list is, at least 12.
fn longest_in(list: &[i64]) -> usize
    ensures { result ≡ longest list.now }
{
    let mut found: usize = 12;
    for &x in list {
        found = found.max(figure_length(x));
    }
    found
}

// Parts of the names of two columns.
fn put_pair<'a>(out: &mut [u8], at: usize, wide: usize, a: &'a [u8], b: &'a [u8]) -> usize
    ensures { output_at out.new result ≡ put (output_at out.old at) (pair wide a.now b.now) }
{
    let next = put_cell(out, at, b"  ", wide, a);
    put_cell(out, next, b"  ", wide, b)
}

// Those of all six.
fn put_heading<'a>(
    out: &mut [u8],
    at: usize,
    wide: usize,
    a: &'a [u8],
    b: &'a [u8],
    c: &'a [u8],
    d: &'a [u8],
    e: &'a [u8],
    f: &'a [u8],
) -> usize
    ensures { output_at out.new result ≡ put (output_at out.old at) (heading wide a.now b.now c.now d.now e.now f.now) }
{
    let first = put_spaces(out, at, 18);
    let second = put_pair(out, first, wide, a, b);
    let third = put_pair(out, second, wide, c, d);
    let end = put_pair(out, third, wide, e, f);
    put_byte(out, end, b'\n')
}

fn put_headings(out: &mut [u8], at: usize, wide: usize) -> usize
    ensures { output_at out.new result ≡ put (output_at out.old at) (headings wide) }
{
    let second = put_heading(
        out,
        at,
        wide,
        b"Budget",
        b"Budget",
        b"Estimate",
        b"Estimate",
        b"Actual",
        b"Actual",
    );
    let third = put_heading(
        out,
        second,
        wide,
        b"AtCompletion",
        b"AtCompletion",
        b"ToComplete",
        b"ToComplete",
        b"ToDate",
        b"ToDate",
    );
    put_heading(
        out, third, wide, b"Dollars", b"Hours", b"Dollars", b"Hours", b"Dollars", b"Hours",
    )
}

// The same as a table.
pub fn put_table(out: &mut [u8], at: usize, totals: &[i64], grand: &[i64]) -> usize
    ensures { output_at out.new result ≡ put (output_at out.old at) (table_text totals.now grand.now) }
{
    let wide = longest_in(totals).max(longest_in(grand));
    let below = put_headings(out, at, wide);
    put_lines(out, below, 18, b"  ", wide, totals, grand)
}
