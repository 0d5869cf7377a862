// The text of a loop among the links of a set: what is shown, and each link in words. A function that puts
// something puts it as `output` does, and answers the place behind it.
#![tactic(auto, unfolding(json_bytes::specs::Ascii::codes, report::specs::Report::refusal_text, crate::specs::Text::is_last, crate::specs::Text::loop_text))]

ghost use Rattle.std.specs.Prelude.{◌≡◌, cond, ◌+◌, ◌-◌, ◌≤◌, ◌<◌, length, take};
ghost use Rattle.output.specs.Output.{output_at, put};
ghost use Rattle.rule_cells.specs.Cells.{table};
ghost use Rattle.show_loop.specs.Show.{links};
ghost use Rattle.loop_text.specs.Text.{is_last, numbers_line, id_text, waits_text, leads_text, link_line, link_lines, ring_text, loop_text, TellsLoop};

use bundle::part_at;
use drawer_layout::number_in;
use output::{put_ended, put_number, put_text};
use parts::part;
use report::put_counted;
use show_loop::{Shown, show_loop_in};
use table_again::read_again;
use table_rows::cell_at;
use wording::put_value;

const RELATIONSHIPS: usize = 14;

// The cells of 4,096 links, ten each.
const ROOM: usize = 40960;

// ---- The record numbers

fn is_last(ring: &[u32], i: usize) -> bool
    requires { i < length ring.now }
    ensures { result ≡ is_last ring.now i }
{
    i + 1 == ring.len()
}

// The byte behind a number: a line feed behind the last, else a space.
fn byte_behind(ring: &[u32], i: usize) -> u8
    requires { i < length ring.now }
    ensures { result ≡ cond (is_last ring.now i) 10 32 }
{
    if is_last(ring, i) { b'\n' } else { b' ' }
}

fn put_numbers(out: &mut [u8], at: usize, ring: &[u32]) -> usize
    ensures { output_at out.new result ≡ put (output_at out.old at) (numbers_line ring.now) }
{
    let mut end = at;
    for i in 0..ring.len() {
        end = put_ended(out, end, number_in(ring, i), byte_behind(ring, i));
    }
    end
}

// ---- A link in words

// An ID of record r, numbered from 1 where it is shown and from 0 among the cells, which starts and ends where two of its cells say, from cell j on.
fn put_id(out: &mut [u8], at: usize, s: &[u8], cells: &[u32], r: usize, j: usize) -> usize
    requires { j < 10 }
    ensures { output_at out.new result ≡ put (output_at out.old at) (id_text (table s.now cells.now 10 0) r j) }
{
    let row = r.saturating_sub(1);
    let start = cell_at(cells, 10, row, j) as usize;
    let end = cell_at(cells, 10, row, j + 1) as usize;
    put_value(out, at, part(s, start, end))
}

fn put_waits(out: &mut [u8], at: usize, s: &[u8], cells: &[u32], r: usize) -> usize
    ensures { output_at out.new result ≡ put (output_at out.old at) (waits_text (table s.now cells.now 10 0) r) }
{
    let successor = put_text(out, at, b": SuccessorTaskID ");
    let waits = put_id(out, successor, s, cells, r, 2);
    let predecessor = put_text(out, waits, b" waits for PredecessorTaskID ");
    put_id(out, predecessor, s, cells, r, 0)
}

// To which record of the ring the one at place i leads.
fn put_leads(out: &mut [u8], at: usize, ring: &[u32], i: usize) -> usize
    requires { i < length ring.now }
    ensures { output_at out.new result ≡ put (output_at out.old at) (leads_text ring.now i) }
{
    if is_last(ring, i) {
        let first = put_text(out, at, b" and leads back to record ");
        let advice = put_number(out, first, number_in(ring, 0));
        return put_text(out, advice, b". Take a link of the loop out.\n");
    }
    let next = put_text(out, at, b" and leads to record ");
    let end = put_number(out, next, number_in(ring, i + 1));
    put_text(out, end, b".\n")
}

fn put_link(out: &mut [u8], at: usize, s: &[u8], cells: &[u32], ring: &[u32], i: usize) -> usize
    requires { i < length ring.now }
    ensures { output_at out.new result ≡ put (output_at out.old at) (link_line (table s.now cells.now 10 0) ring.now i) }
{
    let r = number_in(ring, i);
    let number = put_text(out, at, b"TaskRelationships record ");
    let waits = put_number(out, number, r);
    let leads = put_waits(out, waits, s, cells, r);
    put_leads(out, leads, ring, i)
}

fn put_links(out: &mut [u8], at: usize, s: &[u8], cells: &[u32], ring: &[u32]) -> usize
    ensures { output_at out.new result ≡ put (output_at out.old at) (link_lines (table s.now cells.now 10 0) ring.now) }
{
    let mut end = at;
    for i in 0..ring.len() {
        end = put_link(out, end, s, cells, ring, i);
    }
    end
}

// ---- The whole text

// The links of a ring in words, from file 14 read once more.
fn put_explained(out: &mut [u8], at: usize, bundle: &[u8], ring: &[u32], work: &mut [u32]) -> usize
    requires { 40960 ≤ length work.old }
    ensures { output_at out.new result ≡ put (output_at out.old at) (link_lines (links bundle.now) ring.now) }
{
    let room = ROOM;
    read_again(bundle, RELATIONSHIPS, &mut work[..room]);
    let s = part_at(bundle, RELATIONSHIPS);
    put_links(out, at, s, &work[..room], ring)
}

fn put_ring(out: &mut [u8], bundle: &[u8], explained: bool, ring: &[u32], work: &mut [u32]) -> usize
    requires { 40960 ≤ length work.old }
    ensures { output_at out.new result ≡ put (output_at out.old 0) (ring_text explained bundle.now ring.now) }
{
    let end = put_numbers(out, 0, ring);
    if explained {
        return put_explained(out, end, bundle, ring, work);
    }
    end
}

// The first m numbers of a list; all of them where it has fewer.
fn front(list: &[u32], m: usize) -> &[u32]
    ensures { result.now ≡ take m list.now }
{
    if list.len() < m {
        return list;
    }
    &list[..m]
}

fn put_shown(
    out: &mut [u8],
    bundle: &[u8],
    explained: bool,
    shown: Shown,
    list: &[u32],
    work: &mut [u32],
) -> usize
    requires { 40960 ≤ length work.old }
    ensures { output_at out.new result ≡ put (output_at out.old 0) (loop_text explained bundle.now list.now shown) }
{
    match shown {
        Ok(None) => put_text(out, 0, b"none\n"),
        Ok(Some(m)) => put_ring(out, bundle, explained, front(list, m), work),
        Err(refusal) => put_counted(out, 0, b"bundle ", refusal as usize),
    }
}

// Shows a loop of the links that are in a bundle as `show_loop_in` does, and puts its text to the front of an
// output, as far as there is room; answers how much stands there.
pub fn tell_loop(
    bundle: &[u8],
    explained: bool,
    work: &mut [u32],
    list: &mut [u32],
    out: &mut [u8],
) -> usize
    ensures { TellsLoop explained (length work.old) bundle.now list.old list.new out.old out.new result }
{
    if work.len() < 40960 {
        return put_counted(out, 0, b"bundle ", 14);
    }
    let shown = show_loop_in(bundle, work, list);
    put_shown(out, bundle, explained, shown, list, work)
}
