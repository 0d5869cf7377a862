// Line and column of a place in a text, both from 1, for people who look for it in an editor.
#![tactic(auto, unfolding(json_bytes::specs::Reads::within, crate::specs::Place::is_continuation, crate::specs::Place::is_line_feed))]

ghost use Rattle.std.specs.Prelude.{◌≡◌};
ghost use Rattle.text_place.specs.Place.{is_continuation, is_line_feed, spot_at};

#[derive(Clone, Copy)]
pub struct Spot {
    pub line: usize,
    pub column: usize,
}

// Whether a byte belongs to the character before it.
pub fn is_continuation(b: u8) -> bool
    ensures { result ≡ is_continuation b }
{
    (128..=191).contains(&b)
}

fn is_line_feed(b: u8) -> bool
    ensures { result ≡ is_line_feed b }
{
    b == b'\n'
}

// The spot of a place; that of the end for any place past it.
pub fn line_and_column(s: &[u8], place: usize) -> Spot
    ensures { result ≡ spot_at s.now place }
{
    let end = place.min(s.len());
    let mut line = 1;
    let mut column = 1;
    for b in &s[..end] {
        if is_line_feed(*b) {
            line += 1;
            column = 1;
        } else if !is_continuation(*b) {
            column += 1;
        }
    }
    Spot { line, column }
}
