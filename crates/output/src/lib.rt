// Bytes, texts and numbers put into an output that is lent, one behind the other.
#![tactic(auto)]

ghost use Rattle.std.specs.Prelude.{◌≡◌, [], ◌∷◌, ◌+◌, ◌%◌};
ghost use Rattle.output.specs.Decimal.{decimal};
ghost use Rattle.output.specs.Output.{output_at, put, ended};

// Puts a byte to a place, where there is room; answers the place behind it. The functions below put
// what they make in the same way.
pub fn put_byte(out: &mut [u8], at: usize, b: u8) -> usize
    ensures { output_at out.new result ≡ put (output_at out.old at) (b ∷ []) }
{
    if at < out.len() {
        out[at] = b;
        return at + 1;
    }
    at
}

pub fn put_text(out: &mut [u8], at: usize, text: &[u8]) -> usize
    ensures { output_at out.new result ≡ put (output_at out.old at) text.now }
{
    let mut end = at;
    for b in text {
        end = put_byte(out, end, *b);
    }
    end
}

// A number's last digit.
pub fn put_digit(out: &mut [u8], at: usize, x: usize) -> usize
    ensures { output_at out.new result ≡ put (output_at out.old at) ((48 + x % 10) ∷ []) }
{
    put_byte(out, at, 48 + (x % 10) as u8)
}

// All of them: those before the last are the digits of a tenth of it.
pub fn put_number(out: &mut [u8], at: usize, x: usize) -> usize
    ensures { output_at out.new result ≡ put (output_at out.old at) (decimal x) }
{
    if x < 10 {
        return put_digit(out, at, x);
    }
    let next = put_number(out, at, x / 10);
    put_digit(out, next, x)
}

// A number with a byte behind it.
pub fn put_ended(out: &mut [u8], at: usize, x: usize, end: u8) -> usize
    ensures { output_at out.new result ≡ put (output_at out.old at) (ended x end) }
{
    let next = put_number(out, at, x);
    put_byte(out, next, end)
}
