// Judges the bundle on standard input, of up to 65,536 bytes, by document 01's gate, with --baseline by the
// baseline profile or with --contract by the contract side's gate, and prints its marks, each that doesn't
// hold with the reason beside it.
#![tactic(auto)]

ghost use Rattle.std.specs.Prelude.{◌≡◌, length, take};
ghost use Rattle.reasons.specs.Printed.{printed};

use gate_lists::Which;
use gate_option::{Named, gate_named};
use parts::part;
use program_io::{Host, Input, argument_count, argument_in, complain, fail, print, read_all};
use reason_text::reasons;
use report::put_counted;

// Puts the text of a bundle at the front of an output, as far as there is room, and answers how much
// stands there.
fn put_text(which: Which, bundle: &[u8], out: &mut [u8]) -> usize
    ensures { take result out.new ≡ take (length out.old) (printed which bundle.now) }
{
    if 65536 < bundle.len() {
        return put_counted(out, 0, b"bundle ", 1);
    }
    let mut work = [0u32; 794702];
    reasons(which, bundle, false, &mut work, out)
}

// Judges standard input, with memory for the bundle and a byte more, and for the text.
fn answer(rt: &impl Host, which: Which, bundle: &mut [u8], text: &mut [u8]) {
    match read_all(&mut rt.input(), bundle) {
        Input::Whole { n } => {
            let length = put_text(which, part(bundle, 0, n), text);
            print(rt, part(text, 0, length));
        }
        Input::Failed { error } => fail(rt, b"standard input", &error),
    }
}

// The same with memory of its own.
fn answer_by(rt: &impl Host, which: Which) {
    let mut bundle = [0u8; 65537];
    let mut text = [0u8; 65536];
    answer(rt, which, &mut bundle, &mut text);
}

// The gate that the only argument names; document 01's where there is none.
fn gate_asked(rt: &impl Host) -> Named {
    let count = argument_count(rt);
    if count <= 1 {
        return Named::Gate {
            which: Which::Schedule,
        };
    }
    if count != 2 {
        return Named::Nothing;
    }
    let mut word = [0u8; 16];
    let n = argument_in(rt, 1, &mut word);
    gate_named(part(&word, 0, n))
}

fn main(rt: HostRuntime) {
    match gate_asked(&rt) {
        Named::Gate { which } => answer_by(&rt, which),
        Named::Nothing => complain(
            &rt,
            b"usage",
            b"reasons [--baseline | --contract], with a bundle on standard input",
        ),
    }
}
