// The bundle: its layout, its files as parts of it, and the bundle that a change makes of it. All
// of it over the count n of the files, 20 for a set.
#![tactic(auto, unfolding(bundle_layout::specs::Bundle::header_size, bundle_layout::specs::Bundle::offset_at, bundle_layout::specs::Bundle::length_at, bundle_layout::specs::Bundle::is_omitted, bundle_layout::specs::Bundle::bundle_fault, bundle_layout::specs::Bundle::lookup_fault, bundle_layout::specs::Bundle::part_asked, bundle_layout::specs::Bundle::file_at, bundle_layout::specs::Change::files_after, bundle_layout::specs::Change::try_fault, bundle_layout::specs::Change::make_fault, bundle_layout::specs::Change::output, bundle_bytes::specs::Pieces::changed, parts::specs::Files::bytes_of, parts::specs::Files::is_present, parts::specs::Files::new_file, crate::specs::Answers::state_asked, crate::specs::Answers::change_of, crate::specs::Answers::tried_bundle, crate::specs::Answers::made_bundle,))]

ghost use Rattle.std.specs.Prelude.{◌≡◌, cond, ◌||◌, ◌++◌, ◌+◌, ◌*◌, ◌^◌, ◌≤◌, ◌<◌, length, take, drop, eqb};
ghost use Rattle.bundle_bytes.specs.Words.{word_at, word_of};
ghost use Rattle.bundle_bytes.specs.Pieces.{joined, written};
ghost use Rattle.parts.specs.Files.{is_present, bytes_of, new_file};
ghost use Rattle.bundle_layout.specs.Bundle.{header_size, offset_at, length_at, is_omitted, laid_out, bundle_fault, lookup_fault, part_asked, file_at, pieces_of, header_of, bundle_length};
ghost use Rattle.bundle_layout.specs.Change.{files_after, output};
ghost use Rattle.bundle.specs.Answers.{state_asked, tried_bundle, made_bundle};

use bundle_bytes::{put_part, put_word, word_at};
use parts::part;

// What a file asked for by number is; a refusal has its number.
#[derive(Clone, Copy)]
pub enum FileState {
    Present,
    Omitted,
    Refused { number: u32 },
}

// What became of a change: its refusal or 0, and the length of the new bundle.
#[derive(Clone, Copy)]
pub struct Made {
    pub refusal: u32,
    pub length: usize,
}

// A number of file k in the header, by where it stands for file 0.
fn number_at(s: &[u8], at: usize, k: usize) -> usize
    requires { at ≤ 8 }
    ensures { result ≡ word_at s.now (at + 8 * k) }
{
    if s.len() / 8 < k {
        return 0;
    }
    word_at(s, at + 8 * k) as usize
}

pub fn offset_at(s: &[u8], k: usize) -> usize
    ensures { result ≡ offset_at s.now k }
{
    number_at(s, 4, k)
}

pub fn length_at(s: &[u8], k: usize) -> usize
    ensures { result ≡ length_at s.now k }
{
    number_at(s, 8, k)
}

pub fn is_omitted(s: &[u8], k: usize) -> bool
    ensures { result ≡ is_omitted s.now k }
{
    offset_at(s, k) == 0 && length_at(s, k) == 0
}

// Whether file k is omitted or starts where the files before it end.
fn stands_right(s: &[u8], k: usize, end: usize) -> bool
    ensures { result ≡ is_omitted s.now k || eqb (offset_at s.now k) end }
{
    is_omitted(s, k) || offset_at(s, k) == end
}

// Whether every file stands behind the ones before it, and the bundle ends with the last.
fn is_laid_out(s: &[u8], n: usize) -> bool
    requires { n ≤ 131072 }
    ensures { result ≡ laid_out n s.now }
{
    let mut end = 4 + 8 * n;
    for k in 0..n {
        if !stands_right(s, k, end) {
            return false;
        }
        end += length_at(s, k);
    }
    end == s.len()
}

// The refusal of a bundle of n files, 1, 2 or 3, or 0.
pub fn bundle_fault(s: &[u8], n: usize) -> u32
    ensures { result ≡ bundle_fault n s.now }
{
    if 1048576 < s.len() || 131072 < n || s.len() < 4 + 8 * n {
        1
    } else if word_at(s, 0) as usize != n {
        2
    } else if is_laid_out(s, n) {
        0
    } else {
        3
    }
}

// File k's part of a bundle; empty where it has none.
pub fn part_at(s: &[u8], k: usize) -> &[u8]
    ensures { result.now ≡ bytes_of (file_at s.now k) }
{
    let from = offset_at(s, k);
    let n = length_at(s, k);
    part(s, from, from + n)
}

// The refusal of a question for file k, 1 to 4, or 0.
pub fn lookup_fault(s: &[u8], n: usize, k: usize) -> u32
    ensures { result ≡ lookup_fault n s.now k }
{
    match bundle_fault(s, n) {
        0 if k < n => 0,
        0 => 4,
        refusal => refusal,
    }
}

// File k as the part of the bundle itself; empty for an omitted file and a refusal.
pub fn file_part(s: &[u8], n: usize, k: usize) -> &[u8]
    ensures { result.now ≡ part_asked n s.now k }
{
    if lookup_fault(s, n, k) != 0 {
        &[]
    } else {
        part_at(s, k)
    }
}

// Which of the three that part stands for.
pub fn file_state(s: &[u8], n: usize, k: usize) -> FileState
    ensures { result ≡ state_asked n s.now k }
{
    match lookup_fault(s, n, k) {
        0 if is_omitted(s, k) => FileState::Omitted,
        0 => FileState::Present,
        number => FileState::Refused { number },
    }
}

// File i as it stands after a change of file k: a part of the bundle or of the new bytes.
pub fn part_after<'a>(s: &'a [u8], k: usize, present: bool, new: &'a [u8], i: usize) -> &'a [u8]
    ensures { result.now ≡ bytes_of (files_after s.now k (new_file present new.now) i) }
{
    if i != k {
        part_at(s, i)
    } else if present {
        new
    } else {
        &[]
    }
}

pub fn is_present_after<'a>(s: &'a [u8], k: usize, present: bool, new: &'a [u8], i: usize) -> bool
    ensures { result ≡ is_present (files_after s.now k (new_file present new.now) i) }
{
    if i != k { !is_omitted(s, i) } else { present }
}

// The length of the bundle after a change of file k, from the bundle's own and the two parts'.
fn length_after<'a>(s: &'a [u8], n: usize, k: usize, present: bool, new: &'a [u8]) -> usize
    requires { (bundle_fault n s.now ≡ 0) × (k < n) }
    ensures { result ≡ bundle_length n (files_after s.now k (new_file present new.now)) }
{
    let rest = s.len() - part_at(s, k).len();
    if present { rest + new.len() } else { rest }
}

// Tries a change: its refusal, 1, 2, 3, 4 or 6, or the length of the bundle that it would make.
pub fn try_bundle<'a>(s: &'a [u8], n: usize, k: usize, present: bool, new: &'a [u8]) -> Made
    ensures { result ≡ tried_bundle n s.now k (new_file present new.now) }
{
    let refusal = lookup_fault(s, n, k);
    if refusal != 0 {
        return Made { refusal, length: 0 };
    }
    let length = length_after(s, n, k, present, new);
    if 1048576 < length {
        return Made {
            refusal: 6,
            length: 0,
        };
    }
    Made { refusal: 0, length }
}

// The offset that the header has for a file: 0 for an omitted one.
fn offset_shown(there: bool, end: usize) -> u32
    requires { end < 2 ^ 32 }
    ensures { result ≡ cond there end 0 }
{
    if there { end as u32 } else { 0 }
}

// Writes what the header has for file i: its offset and its length.
fn put_entry(out: &mut [u8], i: usize, there: bool, end: usize, size: usize)
    requires { (i < 131072) × (end < 2 ^ 32) × (size < 2 ^ 32) }
    ensures { out.new ≡ written (written out.old (4 + 8 * i) (word_of (cond there end 0))) (8 + 8 * i) (word_of size) }
{
    put_word(out, 4 + 8 * i, offset_shown(there, end));
    put_word(out, 8 + 8 * i, size as u32);
}

// Writes the header of the bundle after a change.
fn put_header<'a>(s: &'a [u8], n: usize, k: usize, present: bool, new: &'a [u8], out: &mut [u8])
    requires { (bundle_length n (files_after s.now k (new_file present new.now)) ≤ length out.old) × (bundle_length n (files_after s.now k (new_file present new.now)) ≤ 1048576) }
    ensures { out.new ≡ header_of n (files_after s.now k (new_file present new.now)) ++ drop (header_size n) out.old }
{
    put_word(out, 0, n as u32);
    let mut end = 4 + 8 * n;
    for i in 0..n {
        let size = part_after(s, k, present, new, i).len();
        let there = is_present_after(s, k, present, new, i);
        put_entry(out, i, there, end, size);
        end += size;
    }
}

// Writes the files of the bundle after a change, one behind the other, behind the header.
fn put_files<'a>(s: &'a [u8], n: usize, k: usize, present: bool, new: &'a [u8], out: &mut [u8])
    requires { (bundle_length n (files_after s.now k (new_file present new.now)) ≤ length out.old) × (bundle_length n (files_after s.now k (new_file present new.now)) ≤ 1048576) }
    ensures { out.new ≡ take (header_size n) out.old ++ joined (pieces_of (files_after s.now k (new_file present new.now))) n ++ drop (bundle_length n (files_after s.now k (new_file present new.now))) out.old }
{
    let mut end = 4 + 8 * n;
    for i in 0..n {
        let file = part_after(s, k, present, new, i);
        put_part(out, end, file);
        end += file.len();
    }
}

// Makes a change: writes the new bundle to the front of an output, unless it is refused.
pub fn make_bundle<'a>(
    s: &'a [u8],
    n: usize,
    k: usize,
    present: bool,
    new: &'a [u8],
    out: &mut [u8],
) -> Made
    ensures value { result ≡ made_bundle n s.now k (new_file present new.now) (length out.old) }
    ensures out_after { out.new ≡ output n s.now k (new_file present new.now) out.old }
{
    let tried = try_bundle(s, n, k, present, new);
    let length = tried.length;
    if tried.refusal != 0 {
        return tried;
    }
    if out.len() < length {
        return Made {
            refusal: 5,
            length: 0,
        };
    }
    put_header(s, n, k, present, new, out);
    put_files(s, n, k, present, new, out);
    Made { refusal: 0, length }
}
