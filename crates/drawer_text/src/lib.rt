// A drawer as a text: the files that it holds and where they stand, the gaps between them, and how many
// bytes are free. Each function puts what it makes as `output` does, and answers the place behind it.
#![tactic(auto, unfolding(crate::specs::Ahead::nearer_to))]

ghost use Rattle.std.specs.Prelude.{◌≡◌, true, ◌+◌, ◌-◌, ◌^◌, ◌<◌, length};
ghost use Rattle.bundle_bytes.specs.Pieces.{joined};
ghost use Rattle.drawer_layout.specs.Places.{stand_apart};
ghost use Rattle.drawer_held.specs.Drawer.{drawer_fault, offsets_of, lengths_of};
ghost use Rattle.output.specs.Output.{output_at, put};
ghost use Rattle.drawer_text.specs.List.{held_line, gap_line, gap_lines, free_line, drawer_text, list_text, change_text};
ghost use Rattle.drawer_text.specs.Ahead.{nearer_to, file_ahead};

use bundle::{is_omitted, length_at, offset_at};
use drawer_held::{drawer_fault, read_numbers};
use drawer_layout::number_in;
use drawer_places::all_lengths;
use file_names::put_file_name;
use output::{put_byte, put_ended, put_text};
use report::put_counted;

// The line of file k; an omitted one has none.
fn put_held(out: &mut [u8], at: usize, d: &[u8], k: usize) -> usize
    ensures { output_at out.new result ≡ put (output_at out.old at) (held_line d.now k) }
{
    if is_omitted(d, k) {
        return at;
    }
    let offset = offset_at(d, k);
    let size = length_at(d, k);
    let name = put_ended(out, at, k, b' ');
    let behind = put_file_name(out, name, k);
    let place = put_byte(out, behind, b' ');
    let last = put_ended(out, place, offset, b' ');
    put_ended(out, last, size, b'\n')
}

fn put_all_held(out: &mut [u8], at: usize, d: &[u8]) -> usize
    ensures { output_at out.new result ≡ put (output_at out.old at) (joined (held_line d.now) 20) }
{
    let mut end = at;
    for k in 0..20 {
        end = put_held(out, end, d, k);
    }
    end
}

// Bytes of a drawer: the place of the first, and the one behind the last.
#[derive(Clone, Copy)]
struct Stretch {
    start: usize,
    end: usize,
}

// The l bytes from o on, if there are any, from c on and before the best ones so far; else these.
fn nearer(c: usize, best: Stretch, o: usize, l: usize) -> Stretch
    requires { o + l < 2 ^ 64 }
    ensures { result ≡ nearer_to c best o l }
{
    if l == 0 || o < c || best.start <= o {
        best
    } else {
        Stretch {
            start: o,
            end: o + l,
        }
    }
}

// The file with bytes that starts first from c on; where none does, no bytes at the drawer's end.
fn file_ahead(offs: &[u32], lens: &[u32], c: usize, room: usize) -> Stretch
    ensures { result ≡ file_ahead offs.now lens.now c room 20 }
{
    let mut best = Stretch {
        start: room,
        end: room,
    };
    for i in 0..20 {
        let o = number_in(offs, i);
        let l = number_in(lens, i);
        best = nearer(c, best, o, l);
    }
    best
}

// The line of a gap of n bytes; one of none is no gap.
fn put_gap(out: &mut [u8], at: usize, p: usize, n: usize) -> usize
    ensures { output_at out.new result ≡ put (output_at out.old at) (gap_line p n) }
{
    if n == 0 {
        return at;
    }
    let place = put_text(out, at, b"gap ");
    let last = put_ended(out, place, p, b' ');
    put_ended(out, last, n, b'\n')
}

// The lines of all gaps, each up to the next file, from the end of the file before it.
fn put_gaps(out: &mut [u8], at: usize, offs: &[u32], lens: &[u32], room: usize) -> usize
    requires { stand_apart 20 offs.now lens.now room 20 ≡ true }
    ensures { output_at out.new result ≡ put (output_at out.old at) (gap_lines 20 offs.now lens.now (room - 164) 164) }
{
    let mut end = at;
    let mut p = 164;
    while p < room {
        let next = file_ahead(offs, lens, p, room);
        let start = next.start;
        end = put_gap(out, end, p, start - p);
        p = next.end;
    }
    end
}

fn less(a: usize, b: usize) -> usize
    ensures { result ≡ a - b }
{
    if a < b {
        return 0;
    }
    a - b
}

// The last line: how many bytes of a drawer are free, of how many.
fn put_free(out: &mut [u8], at: usize, d: &[u8]) -> usize
    ensures { output_at out.new result ≡ put (output_at out.old at) (free_line d.now) }
{
    let mut lens = [0u32; 20];
    read_numbers(d, true, &mut lens);
    let free = less(d.len(), 164 + all_lengths(&lens));
    let number = put_text(out, at, b"free ");
    let behind = put_ended(out, number, free, b' ');
    let whole = put_text(out, behind, b"of ");
    put_ended(out, whole, d.len(), b'\n')
}

// The whole text of a drawer that is not refused.
fn put_drawer(out: &mut [u8], at: usize, d: &[u8]) -> usize
    requires { drawer_fault 20 d.now ≡ 0 }
    ensures { output_at out.new result ≡ put (output_at out.old at) (drawer_text d.now) }
{
    let mut offs = [0u32; 20];
    read_numbers(d, false, &mut offs);
    let mut lens = [0u32; 20];
    read_numbers(d, true, &mut lens);
    let gaps = put_all_held(out, at, d);
    let free = put_gaps(out, gaps, &offs, &lens, d.len());
    put_free(out, free, d)
}

// The list of a drawer: its files, its gaps and its free bytes, or its refusal.
pub fn put_list(out: &mut [u8], at: usize, d: &[u8]) -> usize
    ensures { output_at out.new result ≡ put (output_at out.old at) (list_text d.now) }
{
    let refusal = drawer_fault(d);
    if refusal == 0 {
        return put_drawer(out, at, d);
    }
    put_counted(out, at, b"bundle ", refusal as usize)
}

// What is told of a change of file k that was made: its line and the free bytes.
pub fn put_change(out: &mut [u8], at: usize, d: &[u8], k: usize) -> usize
    ensures { output_at out.new result ≡ put (output_at out.old at) (change_text d.now k) }
{
    let free = put_held(out, at, d, k);
    put_free(out, free, d)
}
