// A change made in a drawer: the files moved down where no gap is long enough, the new bytes at
// their place, and the header. Nothing else is written.
#![tactic(auto, unfolding(drawer_layout::specs::Places::places_moved_down, drawer_held::specs::Drawer::drawer_made, bundle_layout::specs::Bundle::header_size))]

ghost use Rattle.std.specs.Prelude.{◌≡◌, ◌++◌, ◌+◌, ◌*◌, ◌^◌, ◌≤◌, ◌<◌, length, drop, set};
ghost use Rattle.parts.specs.Files.{new_file};
ghost use Rattle.bundle_bytes.specs.Words.{word_of};
ghost use Rattle.bundle_bytes.specs.Pieces.{written};
ghost use Rattle.drawer_layout.specs.Places.{all_lengths, places_moved_down};
ghost use Rattle.drawer_held.specs.Drawer.{drawer_change_fault, header_at, drawer_after, drawer_made};

use bundle_bytes::{put_part, put_word};
use drawer_held::{change_fault, new_part, read_numbers};
use drawer_layout::number_in;
use drawer_moves::move_down;
use drawer_places::{choose_place, moved_to};

// Where each file goes when the files are moved down.
fn moved_places(offs: &[u32], lens: &[u32], out: &mut [u32])
    requires { (164 + all_lengths 20 lens.now < 2 ^ 32) × (length out.old ≡ 20) }
    ensures { out.new ≡ places_moved_down 20 offs.now lens.now }
{
    for (i, place) in out.iter_mut().enumerate() {
        *place = moved_to(offs, lens, i) as u32;
    }
}

// Writes what the header has for file i: its offset and its length.
fn put_entry(d: &mut [u8], i: usize, offset: usize, size: usize)
    requires { (i < 20) × (offset < 2 ^ 32) × (size < 2 ^ 32) }
    ensures { d.new ≡ written (written d.old (4 + 8 * i) (word_of offset)) (8 + 8 * i) (word_of size) }
{
    put_word(d, 4 + 8 * i, offset as u32);
    put_word(d, 8 + 8 * i, size as u32);
}

// Writes the header of files at these places.
fn put_header(d: &mut [u8], offs: &[u32], lens: &[u32])
    requires { 164 ≤ length d.old }
    ensures { d.new ≡ header_at 20 offs.now lens.now ++ drop 164 d.old }
{
    put_word(d, 0, 20);
    for i in 0..20 {
        let offset = number_in(offs, i);
        let size = number_in(lens, i);
        put_entry(d, i, offset, size);
    }
}

// Puts the bytes of file k at a place, the others being where they are to stand, and the header.
fn put_file(d: &mut [u8], offs: &mut [u32], lens: &mut [u32], k: usize, place: usize, piece: &[u8])
    requires { (164 ≤ length d.old) × (length offs.old ≡ 20) × (length lens.old ≡ 20) × (k < 20) × (place < 2 ^ 32) × (length piece.now < 2 ^ 32) }
    ensures { d.new ≡ header_at 20 (set offs.old k place) (set lens.old k (length piece.now)) ++ drop 164 (written d.old place piece.now) }
{
    offs[k] = place as u32;
    lens[k] = piece.len() as u32;
    put_part(d, place, piece);
    put_header(d, offs, lens);
}

// Makes a change that is not refused.
fn put_change(d: &mut [u8], k: usize, present: bool, new: &[u8])
    requires { drawer_change_fault 20 d.old k (new_file present new.now) ≡ 0 }
    ensures { d.new ≡ drawer_after 20 d.old k (new_file present new.now) }
{
    let mut offs = [0u32; 20];
    read_numbers(d, false, &mut offs);
    let mut lens = [0u32; 20];
    read_numbers(d, true, &mut lens);
    lens[k] = 0;
    let piece = new_part(present, new);
    let choice = choose_place(&offs, &lens, d.len(), present, piece.len());
    let place = choice.place;
    if choice.moved {
        move_down(d, &offs, &lens);
        let mut down = [0u32; 20];
        moved_places(&offs, &lens, &mut down);
        put_file(d, &mut down, &mut lens, k, place, piece);
    } else {
        put_file(d, &mut offs, &mut lens, k, place, piece);
    }
}

// Makes a change in place: its refusal, 1, 2, 3, 4 or 11, which leaves the drawer as it is, or 0.
pub fn change_drawer(d: &mut [u8], k: usize, present: bool, new: &[u8]) -> u32
    ensures value { result ≡ drawer_change_fault 20 d.old k (new_file present new.now) }
    ensures d_after { d.new ≡ drawer_made 20 d.old k (new_file present new.now) }
{
    let refusal = change_fault(d, k, present, new);
    if refusal == 0 {
        put_change(d, k, present, new);
    }
    refusal
}
