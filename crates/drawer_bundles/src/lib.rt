// A bundle put into a drawer, and the bundle of a drawer's files taken out.
#![tactic(auto, unfolding(crate::specs::Bundles::put_fault, crate::specs::Bundles::bundle_put, crate::specs::Bundles::take_fault, crate::specs::Bundles::taken_bundle, crate::specs::Bundles::taken_out, bundle::specs::Answers::change_of, bundle_layout::specs::Bundle::header_size))]

ghost use Rattle.std.specs.Prelude.{◌≡◌, cond, ◌++◌, ◌+◌, ◌*◌, ◌^◌, ◌≤◌, ◌<◌, length, take, drop};
ghost use Rattle.bundle_bytes.specs.Words.{word_of};
ghost use Rattle.bundle_bytes.specs.Pieces.{joined, written};
ghost use Rattle.bundle_layout.specs.Bundle.{header_size, file_at, pieces_of, header_of, bundle_length};
ghost use Rattle.drawer_held.specs.Drawer.{drawer_fault};
ghost use Rattle.drawer_bundles.specs.Bundles.{put_fault, bundle_put, taken_bundle, taken_out};

use bundle::{Made, bundle_fault, is_omitted, part_at};
use bundle_bytes::{put_part, put_word};
use drawer_held::{drawer_fault, read_numbers};
use drawer_places::all_lengths;

// The refusal of a bundle that is put in, 1, 2, 3 or 11, or 0.
fn put_fault(d: &[u8], bundle: &[u8]) -> u32
    ensures { result ≡ put_fault 20 d.now bundle.now }
{
    match bundle_fault(bundle, 20) {
        0 if d.len() < 164 || 1048576 < d.len() => 1,
        0 if d.len() < bundle.len() => 11,
        refusal => refusal,
    }
}

// Puts a bundle into a drawer, whatever that held: its refusal, which leaves the drawer as it is, or 0.
pub fn put_bundle(d: &mut [u8], bundle: &[u8]) -> u32
    ensures value { result ≡ put_fault 20 d.old bundle.now }
    ensures d_after { d.new ≡ bundle_put 20 d.old bundle.now }
{
    let refusal = put_fault(d, bundle);
    if refusal == 0 {
        put_part(d, 0, bundle);
    }
    refusal
}

// The length of the bundle of a drawer's files.
fn held_length(d: &[u8]) -> usize
    requires { drawer_fault 20 d.now ≡ 0 }
    ensures { result ≡ bundle_length 20 (file_at d.now) }
{
    let mut lens = [0u32; 20];
    read_numbers(d, true, &mut lens);
    164 + all_lengths(&lens)
}

// The offset that the header has for a file: 0 for an omitted one.
fn offset_shown(there: bool, end: usize) -> u32
    requires { end < 2 ^ 32 }
    ensures { result ≡ cond there end 0 }
{
    if there { end as u32 } else { 0 }
}

// Writes what the header has for file i: its offset and its length.
fn put_entry(out: &mut [u8], i: usize, there: bool, end: usize, size: usize)
    requires { (i < 20) × (end < 2 ^ 32) × (size < 2 ^ 32) }
    ensures { out.new ≡ written (written out.old (4 + 8 * i) (word_of (cond there end 0))) (8 + 8 * i) (word_of size) }
{
    put_word(out, 4 + 8 * i, offset_shown(there, end));
    put_word(out, 8 + 8 * i, size as u32);
}

// Writes the header of the bundle of a drawer's files.
fn put_header(d: &[u8], out: &mut [u8])
    requires { (bundle_length 20 (file_at d.now) ≤ length out.old) × (bundle_length 20 (file_at d.now) ≤ 1048576) }
    ensures { out.new ≡ header_of 20 (file_at d.now) ++ drop (header_size 20) out.old }
{
    put_word(out, 0, 20);
    let mut end = 164;
    for i in 0..20 {
        let size = part_at(d, i).len();
        put_entry(out, i, !is_omitted(d, i), end, size);
        end += size;
    }
}

// Writes a drawer's files, one behind the other, behind the header.
fn put_files(d: &[u8], out: &mut [u8])
    requires { (bundle_length 20 (file_at d.now) ≤ length out.old) × (bundle_length 20 (file_at d.now) ≤ 1048576) }
    ensures { out.new ≡ take (header_size 20) out.old ++ joined (pieces_of (file_at d.now)) 20 ++ drop (bundle_length 20 (file_at d.now)) out.old }
{
    let mut end = 164;
    for i in 0..20 {
        let file = part_at(d, i);
        put_part(out, end, file);
        end += file.len();
    }
}

// Writes the bundle of a drawer's files to the front of an output, unless it is refused, as 1, 2, 3 or 5.
pub fn take_bundle(d: &[u8], out: &mut [u8]) -> Made
    ensures value { result ≡ taken_bundle 20 d.now (length out.old) }
    ensures out_after { out.new ≡ taken_out 20 d.now out.old }
{
    let refusal = drawer_fault(d);
    if refusal != 0 {
        return Made { refusal, length: 0 };
    }
    let length = held_length(d);
    if out.len() < length {
        return Made {
            refusal: 5,
            length: 0,
        };
    }
    put_header(d, out);
    put_files(d, out);
    Made { refusal: 0, length }
}
