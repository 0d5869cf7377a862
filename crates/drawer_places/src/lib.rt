// Where a change puts its bytes, and where the other files go when they are moved down.
#![tactic(auto, unfolding(crate::specs::Choice::chosen, drawer_layout::specs::Places::total, drawer_layout::specs::Places::comes_before, drawer_layout::specs::Places::length_before, drawer_layout::specs::Places::all_lengths, drawer_layout::specs::Places::moved_to, drawer_layout::specs::Places::are_moved, drawer_layout::specs::Places::new_place, bundle_layout::specs::Bundle::header_size))]

ghost use Rattle.std.specs.Prelude.{◌≡◌, cond, ◌≤◌, ◌*◌, ◌^◌, get_or};
ghost use Rattle.drawer_layout.specs.Places.{comes_before, length_before, all_lengths, moved_to};
ghost use Rattle.drawer_places.specs.Choice.{chosen};

use drawer_layout::{lowest_gap, number_in};

// The place of the new bytes, 0 for a file that is withdrawn, and whether the files are moved.
#[derive(Clone, Copy)]
pub struct Choice {
    pub place: usize,
    pub moved: bool,
}

// The lengths of all 20 files.
pub fn all_lengths(lens: &[u32]) -> usize
    ensures { (result ≡ all_lengths 20 lens.now) × (result ≤ 20 * 2 ^ 32) }
{
    let mut sum: usize = 0;
    for j in 0..20 {
        sum += number_in(lens, j);
    }
    sum
}

// The length of file j, if it comes before file i, by offset and then by number; else 0.
fn length_if_before(offs: &[u32], lens: &[u32], j: usize, i: usize) -> usize
    ensures { (result ≡ cond (comes_before offs.now j i) (get_or lens.now j 0) 0) × (result ≤ 2 ^ 32) }
{
    let a = number_in(offs, j);
    let b = number_in(offs, i);
    if a < b || (a == b && j < i) {
        number_in(lens, j)
    } else {
        0
    }
}

// The lengths of all files that come before file i.
fn length_before(offs: &[u32], lens: &[u32], i: usize) -> usize
    ensures { (result ≡ length_before 20 offs.now lens.now i) × (result ≤ 20 * 2 ^ 32) }
{
    let mut sum: usize = 0;
    for j in 0..20 {
        sum += length_if_before(offs, lens, j, i);
    }
    sum
}

// Where file i goes when the files are moved down.
pub fn moved_to(offs: &[u32], lens: &[u32], i: usize) -> usize
    ensures { result ≡ moved_to 20 offs.now lens.now i }
{
    if number_in(offs, i) == 0 {
        0
    } else if number_in(lens, i) == 0 {
        164
    } else {
        164 + length_before(offs, lens, i)
    }
}

// Where a file of m bytes goes, by what else is there; a file that is not present goes nowhere.
pub fn choose_place(offs: &[u32], lens: &[u32], room: usize, present: bool, m: usize) -> Choice
    ensures { result ≡ chosen 20 offs.now lens.now room present m }
{
    if !present {
        return Choice {
            place: 0,
            moved: false,
        };
    }
    if m == 0 {
        return Choice {
            place: 164,
            moved: false,
        };
    }
    let gap = lowest_gap(offs, lens, room, m);
    if gap == 0 {
        return Choice {
            place: 164 + all_lengths(lens),
            moved: true,
        };
    }
    Choice {
        place: gap,
        moved: false,
    }
}
