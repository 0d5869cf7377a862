// Where a long value is cut for printing.
#![tactic(auto, unfolding(crate::specs::Cut::cut_within, crate::specs::Cut::cut_length, text_place::specs::Place::is_character))]

ghost use Rattle.std.specs.Prelude.{◌≡◌};
ghost use Rattle.json_bytes.specs.Reads.{byte_at};
ghost use Rattle.text_place.specs.Place.{is_character};
ghost use Rattle.cut_value.specs.Cut.{cut_within, cut_length};

use json_bytes::byte_at;
use text_place::is_continuation;

// Whether a character starts with byte n, or the value ends in front of it.
fn starts_at(value: &[u8], n: usize) -> bool
    ensures { result ≡ is_character (byte_at value.now n) }
{
    !is_continuation(byte_at(value, n))
}

fn cut_within(value: &[u8]) -> usize
    ensures { result ≡ cut_within value.now }
{
    if starts_at(value, 80) {
        80
    } else if starts_at(value, 79) {
        79
    } else if starts_at(value, 78) {
        78
    } else {
        77
    }
}

// How many bytes of a value are printed: all up to 80, and of a longer one no character in part.
pub fn cut_length(value: &[u8]) -> usize
    ensures { result ≡ cut_length value.now }
{
    if value.len() <= 80 {
        value.len()
    } else {
        cut_within(value)
    }
}
