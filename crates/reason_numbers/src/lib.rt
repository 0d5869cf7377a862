// A reason as nine numbers in a list, for programs in other languages, which know no Rattle enum.
#![tactic(auto, unfolding(crate::specs::Numbers::shown_numbers, crate::specs::Numbers::told_numbers, crate::specs::Numbers::told_over))]

ghost use Rattle.std.specs.Prelude.{◌≡◌};
ghost use Rattle.reason_numbers.specs.Numbers.{shown_numbers, told_numbers, told_over};

use reason_answer::{Reason, Shown};

// A rule that is broken, which is a mark of kind 1.
fn shown_numbers(answer: usize, shown: Shown, searched: usize) -> [usize; 9]
    ensures { result ≡ shown_numbers answer shown searched }
{
    [
        answer,
        1,
        shown.record,
        shown.companion,
        shown.file,
        shown.field,
        shown.start,
        shown.length,
        searched,
    ]
}

fn told_numbers(told: Reason) -> [usize; 9]
    ensures { result ≡ told_numbers told }
{
    match told {
        Reason::Refused { refusal: _ } | Reason::Holds => [0; 9],
        Reason::NotJudged { file } => [1, 2, 0, 0, file, 0, 0, 0, 0],
        Reason::OwnMark {
            kind,
            place,
            companion,
        } => [2, kind as usize, place, companion, 0, 0, 0, 0, 0],
        Reason::Broken { shown } => shown_numbers(3, shown, 0),
        Reason::Missing { shown, searched } => shown_numbers(4, shown, searched),
    }
}

// Puts a reason's numbers over a list of nine; any other list is left as it is.
pub fn put_reason(told: Reason, out: &mut [usize])
    ensures { out.new ≡ told_over told out.old }
{
    if out.len() == 9 {
        out.copy_from_slice(&told_numbers(told));
    }
}
