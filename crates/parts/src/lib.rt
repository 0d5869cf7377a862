// A part of lent bytes, handed back as that part itself and never a copy.
#![tactic(auto, unfolding(crate::specs::Part::part_of))]

ghost use Rattle.std.specs.Prelude.{◌≡◌};
ghost use Rattle.parts.specs.Part.{part_of};

// The part of the lent bytes from one place up to another; empty where there is no such part.
pub fn part(bytes: &[u8], from: usize, to: usize) -> &[u8]
    ensures { result.now ≡ part_of bytes.now from to }
{
    if from <= to && to <= bytes.len() {
        &bytes[from..to]
    } else {
        &bytes[..0]
    }
}
