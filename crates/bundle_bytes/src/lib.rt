// Little-endian 32-bit numbers in bytes, and bytes written over a part of others.
#![tactic(auto, unfolding(crate::specs::Words::word_at, crate::specs::Words::word_of, crate::specs::Pieces::written))]

ghost use Rattle.std.specs.Prelude.{◌≡◌};
ghost use Rattle.bundle_bytes.specs.Words.{word_at, word_of};
ghost use Rattle.bundle_bytes.specs.Pieces.{written};

use json_bytes::byte_at;

// The number at a place; a byte past the end counts 0.
pub fn word_at(s: &[u8], i: usize) -> u32
    ensures { result ≡ word_at s.now i }
{
    if s.len() <= i {
        return 0;
    }
    u32::from_le_bytes([
        byte_at(s, i),
        byte_at(s, i + 1),
        byte_at(s, i + 2),
        byte_at(s, i + 3),
    ])
}

// Writes a number over four bytes, where there are four.
pub fn put_word(out: &mut [u8], at: usize, x: u32)
    ensures { out.new ≡ written out.old at (word_of x) }
{
    put_part(out, at, &x.to_le_bytes());
}

// Writes bytes over as many from a place on, where there are as many.
pub fn put_part(out: &mut [u8], at: usize, part: &[u8])
    ensures { out.new ≡ written out.old at part.now }
{
    if part.len() <= out.len() && at <= out.len() - part.len() {
        // The C interface: by `copy_from_slice` an archive would need `memmove` from outside.
        for i in 0..part.len() {
            out[at + i] = part[i];
        }
    }
}
