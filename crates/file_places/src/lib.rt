// Where a part stands that a call hands back: of a bundle, of a drawer, and of the files after a change. A part's
// statement says which bytes it has; these say where they are.
#![tactic(auto, unfolding(crate::specs::Places::place_asked, crate::specs::Places::place_held, crate::specs::Places::place_after))]

ghost use Rattle.std.specs.Prelude.{◌≡◌};
ghost use Rattle.parts.specs.Files.{new_file};
ghost use Rattle.bundle_layout.specs.Bundle.{offset_at, length_at};
ghost use Rattle.file_places.specs.Places.{stands_at, place_asked, place_held, place_after};

use bundle::{length_at, lookup_fault, offset_at};
use drawer_held::{held_fault, new_part};

// The first byte of a part, and how many it has.
#[derive(Clone, Copy)]
pub struct PartPlace {
    pub start: usize,
    pub length: usize,
}

// The same of a part after a change, and whether it is that of the changed file, of the new bytes and not of the bundle.
#[derive(Clone, Copy)]
pub struct PartAfter {
    pub changed: bool,
    pub start: usize,
    pub length: usize,
}

const NOWHERE: PartPlace = PartPlace {
    start: 0,
    length: 0,
};

// Where the header says that file k stands; 0 and 0 for an omitted one.
fn place_in(s: &[u8], k: usize) -> PartPlace
    ensures { result ≡ stands_at (offset_at s.now k) (length_at s.now k) }
{
    PartPlace {
        start: offset_at(s, k),
        length: length_at(s, k),
    }
}

// Where the part of `bundle::file_part` stands in the bundle; 0 and 0 for an omitted file and a refusal.
pub fn file_place(s: &[u8], n: usize, k: usize) -> PartPlace
    ensures { result ≡ place_asked n s.now k }
{
    if lookup_fault(s, n, k) != 0 {
        NOWHERE
    } else {
        place_in(s, k)
    }
}

// Where the part of `drawer_held::held_part` stands in the drawer; 0 and 0 for an omitted file and a refusal.
pub fn held_place(d: &[u8], k: usize) -> PartPlace
    ensures { result ≡ place_held 20 d.now k }
{
    if held_fault(d, k) != 0 {
        NOWHERE
    } else {
        place_in(d, k)
    }
}

// Where the part of `bundle::part_after` stands, and in which of the two lent slices.
pub fn place_after<'a>(s: &'a [u8], k: usize, present: bool, new: &'a [u8], i: usize) -> PartAfter
    ensures { result ≡ place_after s.now k (new_file present new.now) i }
{
    if i == k {
        PartAfter {
            changed: true,
            start: 0,
            length: new_part(present, new).len(),
        }
    } else {
        PartAfter {
            changed: false,
            start: offset_at(s, i),
            length: length_at(s, i),
        }
    }
}
