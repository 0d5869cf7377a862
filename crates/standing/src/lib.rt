// Where the files of a set stand: three numbers a file in a lent list, and the part of one of three
// lent slices that they say. Numbers and no struct: the clauses of the public functions speak of the list of numbers.
#![tactic(auto, unfolding(crate::specs::Standing::number_of, crate::specs::Standing::is_there, crate::specs::Standing::slice_of, crate::specs::Standing::start_standing, crate::specs::Standing::standing, crate::specs::Standing::standing_with, parts::specs::Files::bytes_of))]

ghost use Rattle.std.specs.Prelude.{◌≡◌, cond, ◌+◌, ◌*◌, ◌≤◌, ◌<◌, ◌/◌, length, ltb};
ghost use Rattle.parts.specs.Files.{bytes_of};
ghost use Rattle.standing.specs.Standing.{number_of, slice_of, is_there, standing, start_standing, standing_with};

use parts::part;

// Number j of file k; 0 past the end of the list.
fn number_of(stand: &[usize], k: usize, j: usize) -> usize
    requires { j < 3 }
    ensures { result ≡ number_of stand.now k j }
{
    if k <= stand.len() / 3 && 3 * k + j < stand.len() {
        stand[3 * k + j]
    } else {
        0
    }
}

pub fn is_there(stand: &[usize], k: usize) -> bool
    ensures { result ≡ is_there stand.now k }
{
    number_of(stand, k, 0) != 0
}

// File k as the part of a slice itself; empty where it is not there.
pub fn part_standing<'a>(
    a: &'a [u8],
    b: &'a [u8],
    c: &'a [u8],
    stand: &[usize],
    k: usize,
) -> &'a [u8]
    ensures { result.now ≡ bytes_of (standing a.now b.now c.now stand.now k) }
{
    let which = number_of(stand, k, 0);
    let from = number_of(stand, k, 1);
    let to = number_of(stand, k, 2);
    match which {
        0 => &a[..0],
        1 => part(a, from, to),
        2 => part(b, from, to),
        _ => part(c, from, to),
    }
}

// How long the slice is that a number stands for.
fn slice_length(a: &[u8], b: &[u8], c: &[u8], which: usize) -> usize
    ensures { (result ≡ length (slice_of a.now b.now c.now which)) × (result < 9223372036854775808) }
{
    match which {
        1 => a.len(),
        2 => b.len(),
        _ => c.len(),
    }
}

// Where file k starts in its slice; 0 where the slice ends before that.
pub fn start_standing(a: &[u8], b: &[u8], c: &[u8], stand: &[usize], k: usize) -> usize
    ensures { (result ≡ start_standing a.now b.now c.now stand.now k) × (result < 9223372036854775808) }
{
    let which = number_of(stand, k, 0);
    let from = number_of(stand, k, 1);
    if from <= slice_length(a, b, c, which) {
        from
    } else {
        0
    }
}

// Puts file k somewhere, where the list has numbers for it.
pub fn place(stand: &mut [usize], k: usize, which: usize, from: usize, to: usize)
    ensures { stand.new ≡ cond (ltb k (length stand.old / 3)) (standing_with stand.old k which from to) stand.old }
{
    if k < stand.len() / 3 {
        let at = 3 * k;
        stand[at] = which;
        stand[at + 1] = from;
        stand[at + 2] = to;
    }
}
