// A drawer's files, and whether a change of it is refused.
#![tactic(auto, unfolding(crate::specs::Drawer::header_number, crate::specs::Drawer::offsets_of, crate::specs::Drawer::lengths_of, crate::specs::Drawer::drawer_fault, crate::specs::Drawer::held_fault, crate::specs::Drawer::part_held, crate::specs::Drawer::state_held, crate::specs::Drawer::drawer_change_fault, bundle_layout::specs::Bundle::header_size, bundle_layout::specs::Bundle::offset_at, bundle_layout::specs::Bundle::length_at, parts::specs::Files::bytes_of, parts::specs::Files::new_file))]

ghost use Rattle.std.specs.Prelude.{◌≡◌, ◌<◌, ◌+◌, cond, length};
ghost use Rattle.parts.specs.Files.{bytes_of, new_file};
ghost use Rattle.bundle_layout.specs.Bundle.{bundle_length};
ghost use Rattle.bundle_layout.specs.Change.{files_after};
ghost use Rattle.drawer_layout.specs.Places.{list_of};
ghost use Rattle.drawer_held.specs.Drawer.{header_number, drawer_fault, held_fault, part_held, state_held, drawer_change_fault};

use bundle::{FileState, is_omitted, part_at};
use bundle_bytes::word_at;
use drawer_layout::stand_apart;
use drawer_places::all_lengths;

// Reads as many of a header's offsets, or of its lengths, as the list has room for.
pub fn read_numbers(d: &[u8], lengths: bool, out: &mut [u32])
    ensures { out.new ≡ list_of (header_number d.now lengths) (length out.old) }
{
    let at = first_at(lengths);
    for (i, number) in out.iter_mut().enumerate() {
        *number = word_at(d, at + 8 * i);
    }
}

// Where the first of them stands.
fn first_at(lengths: bool) -> usize
    ensures { result ≡ cond lengths 8 4 }
{
    if lengths { 8 } else { 4 }
}

// The refusal of a drawer, 1, 2 or 3, or 0.
pub fn drawer_fault(d: &[u8]) -> u32
    ensures { result ≡ drawer_fault 20 d.now }
{
    if d.len() < 164 || 1048576 < d.len() {
        return 1;
    }
    if word_at(d, 0) != 20 {
        return 2;
    }
    let mut offs = [0u32; 20];
    read_numbers(d, false, &mut offs);
    let mut lens = [0u32; 20];
    read_numbers(d, true, &mut lens);
    if stand_apart(&offs, &lens, d.len()) {
        0
    } else {
        3
    }
}

// The refusal of a question for file k, 1 to 4, or 0.
pub fn held_fault(d: &[u8], k: usize) -> u32
    ensures { result ≡ held_fault 20 d.now k }
{
    match drawer_fault(d) {
        0 if k < 20 => 0,
        0 => 4,
        refusal => refusal,
    }
}

// File k as the part of the drawer itself; empty for an omitted file and a refusal.
pub fn held_part(d: &[u8], k: usize) -> &[u8]
    ensures { result.now ≡ part_held 20 d.now k }
{
    if held_fault(d, k) == 0 {
        part_at(d, k)
    } else {
        &d[..0]
    }
}

// Which of the three that part stands for.
pub fn held_state(d: &[u8], k: usize) -> FileState
    ensures { result ≡ state_held 20 d.now k }
{
    match held_fault(d, k) {
        0 if is_omitted(d, k) => FileState::Omitted,
        0 => FileState::Present,
        number => FileState::Refused { number },
    }
}

// The bytes that a change brings: none where the file is withdrawn.
pub fn new_part(present: bool, new: &[u8]) -> &[u8]
    ensures { result.now ≡ bytes_of (new_file present new.now) }
{
    if present { new } else { &new[..0] }
}

// 164 and the present lengths after a change.
fn length_after<'a>(d: &'a [u8], k: usize, present: bool, new: &'a [u8]) -> usize
    requires { held_fault 20 d.now k ≡ 0 }
    ensures { result ≡ bundle_length 20 (files_after d.now k (new_file present new.now)) }
{
    let mut lens = [0u32; 20];
    read_numbers(d, true, &mut lens);
    lens[k] = 0;
    164 + all_lengths(&lens) + new_part(present, new).len()
}

// The refusal of a change, 1, 2, 3, 4 or 11, or 0.
pub fn change_fault<'a>(d: &'a [u8], k: usize, present: bool, new: &'a [u8]) -> u32
    ensures { result ≡ drawer_change_fault 20 d.now k (new_file present new.now) }
{
    let refusal = held_fault(d, k);
    if refusal == 0 && d.len() < length_after(d, k, present, new) {
        11
    } else {
        refusal
    }
}
