// The files of a drawer moved down in place, each byte at most once and never upwards.
#![tactic(auto, unfolding(crate::specs::Painted::moved_in, crate::specs::Next::is_next, bundle_layout::specs::Bundle::header_size))]

ghost use Rattle.std.specs.Prelude.{◌≡◌, true, ◌+◌, ◌≤◌, ◌<◌, length, take, drop};
ghost use Rattle.bundle_bytes.specs.Pieces.{written};
ghost use Rattle.drawer_layout.specs.Places.{stand_apart};
ghost use Rattle.drawer_moves.specs.Painted.{files_moved, moved_in};
ghost use Rattle.drawer_moves.specs.Next.{is_next, Next};

use drawer_layout::{number_in, stand_apart};

// Moves n bytes down, from the first to the last: what is written over was read before.
fn move_part(d: &mut [u8], from: usize, to: usize, n: usize)
    requires { (to ≤ from) × (from + n ≤ length d.old) }
    ensures { d.new ≡ written d.old to (take n (drop from d.old)) }
{
    for i in 0..n {
        d[to + i] = d[from + i];
    }
}

// Whether file i has bytes, starts at c or later, and before the best one so far (20: none).
fn is_next(offs: &[u32], lens: &[u32], c: usize, best: usize, i: usize) -> bool
    ensures { result ≡ is_next 20 offs.now lens.now c best i }
{
    let o = number_in(offs, i);
    number_in(lens, i) != 0 && c <= o && (best == 20 || o < number_in(offs, best))
}

// The file with bytes that starts first from c on; 20 where none does.
fn next_file(offs: &[u32], lens: &[u32], c: usize) -> usize
    ensures { Next 20 offs.now lens.now c 20 result }
{
    let mut best = 20;
    for i in 0..20 {
        if is_next(offs, lens, c, best, i) {
            best = i;
        }
    }
    best
}

// Moves the files down in the order of their offsets, each to the end of those before it.
fn move_files(d: &mut [u8], offs: &[u32], lens: &[u32])
    requires { stand_apart 20 offs.now lens.now (length d.old) 20 ≡ true }
    ensures { d.new ≡ files_moved 20 d.old offs.now lens.now }
{
    let mut c = 164;
    let mut end = 164;
    let mut i = next_file(offs, lens, c);
    while i < 20 {
        let from = number_in(offs, i);
        let n = number_in(lens, i);
        move_part(d, from, end, n);
        end += n;
        c = from + n;
        i = next_file(offs, lens, c);
    }
}

// Moves down the files that two lists say, where they stand apart; else nothing.
pub fn move_down(d: &mut [u8], offs: &[u32], lens: &[u32])
    ensures { d.new ≡ moved_in 20 d.old offs.now lens.now }
{
    if stand_apart(offs, lens, d.len()) {
        move_files(d, offs, lens);
    }
}
