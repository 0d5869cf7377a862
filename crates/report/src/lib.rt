// The judging program's text, made from marks or a refusal.
#![tactic(auto, using(output::proofs::Puts::put_then), unfolding(json_bytes::specs::Ascii::codes, crate::specs::Report::counted, crate::specs::Report::line_numbers, crate::specs::Report::line_of, crate::specs::Report::is_accepted, crate::specs::Report::last_line, crate::specs::Report::board_text))]

ghost use Rattle.std.specs.Prelude.{◌≡◌, ◌++◌, ◌≤◌, length, drop};
ghost use Rattle.mark_numbers.specs.Marks.{marks_in};
ghost use Rattle.report.specs.Report.{counted, line_numbers, line_of, lines_up_to, last_line, board_text, text_in};
ghost use Rattle.output.specs.Output.{output_at, put};

use mark_numbers::{Mark, count_faults, have_length, mark_in};
use output::{put_byte, put_ended, put_number, put_text};

// A word and a number, as a line. It and the functions below put what they make as `output` does.
pub fn put_counted(out: &mut [u8], at: usize, word: &[u8], x: usize) -> usize
    ensures { output_at out.new result ≡ put (output_at out.old at) (counted word.now x) }
{
    let next = put_text(out, at, word);
    put_ended(out, next, x, b'\n')
}

// The numbers of a mark.
pub fn put_numbers(out: &mut [u8], at: usize, m: usize, mark: Mark) -> usize
    ensures { output_at out.new result ≡ put (output_at out.old at) (line_numbers m mark) }
{
    let kind = mark.kind as usize;
    let place = mark.place;
    let companion = mark.companion;
    let next = put_ended(out, at, m, b' ');
    let behind = put_ended(out, next, kind, b' ');
    let last = put_ended(out, behind, place, b' ');
    put_number(out, last, companion)
}

// A mark's line; one that holds has none.
fn put_line(out: &mut [u8], at: usize, m: usize, mark: Mark) -> usize
    ensures { output_at out.new result ≡ put (output_at out.old at) (line_of m mark) }
{
    let kind = mark.kind;
    if kind == 0 {
        return at;
    }
    let next = put_numbers(out, at, m, mark);
    put_byte(out, next, b'\n')
}

fn put_lines(
    out: &mut [u8],
    at: usize,
    kinds: &[u32],
    places: &[usize],
    companions: &[usize],
) -> usize
    ensures { output_at out.new result ≡ put (output_at out.old at) (lines_up_to (marks_in kinds.now places.now companions.now) (length kinds.now)) }
{
    let mut end = at;
    for m in 0..kinds.len() {
        end = put_line(out, end, m, mark_in(kinds, places, companions, m));
    }
    end
}

// The line behind them.
pub fn put_last(out: &mut [u8], at: usize, kinds: &[u32]) -> usize
    ensures { output_at out.new result ≡ put (output_at out.old at) (last_line kinds.now) }
{
    let count = count_faults(kinds);
    if count == 0 {
        return put_text(out, at, b"accepted\n");
    }
    put_counted(out, at, b"refused ", count)
}

// The whole text of marks.
fn put_board(
    out: &mut [u8],
    at: usize,
    kinds: &[u32],
    places: &[usize],
    companions: &[usize],
) -> usize
    ensures { output_at out.new result ≡ put (output_at out.old at) (board_text (marks_in kinds.now places.now companions.now)) }
{
    let lines = put_counted(out, at, b"marks ", kinds.len());
    let last = put_lines(out, lines, kinds, places, companions);
    put_last(out, last, kinds)
}

// Writes the text of a refusal, or with none that of marks, to the front of an output that holds
// every such text; answers its length. It writes nothing to a shorter output, and nothing of lists
// that don't agree or have over 999 marks.
pub fn report(
    refusal: u32,
    kinds: &[u32],
    places: &[usize],
    companions: &[usize],
    out: &mut [u8],
) -> usize
    ensures value { result ≡ length (text_in refusal (marks_in kinds.now places.now companions.now) (length out.old)) }
    ensures out_after { out.new ≡ text_in refusal (marks_in kinds.now places.now companions.now) (length out.old) ++ drop (length (text_in refusal (marks_in kinds.now places.now companions.now) (length out.old))) out.old }
    ensures upper_bound { result ≤ length out.old }
{
    if !have_length(kinds.len(), kinds, places, companions)
        || 999 < kinds.len()
        || out.len() < 64 * kinds.len() + 960
    {
        return 0;
    }
    if refusal == 0 {
        return put_board(out, 0, kinds, places, companions);
    }
    put_counted(out, 0, b"bundle ", refusal as usize)
}
