// Shows a loop among the links of the bundle on standard input, of up to 65,536 bytes: `none`, or its record
// numbers, with --explain each link in words besides.
#![tactic(auto)]

ghost use Rattle.loops.specs.Printed.{PrintsLoop};

use loop_text::tell_loop;
use parts::part;
use program_io::{Host, Input, argument_count, argument_in, complain, fail, print, read_all};
use report::put_counted;

// Puts the text of a bundle at the front of an output, as far as there is room, and answers how much
// stands there.
fn put_told(bundle: &[u8], explained: bool, out: &mut [u8]) -> usize
    ensures { PrintsLoop explained bundle.now out.old out.new result }
{
    if 65536 < bundle.len() {
        return put_counted(out, 0, b"bundle ", 1);
    }
    let mut work = [0u32; 40960];
    let mut list = [0u32; 4096];
    tell_loop(bundle, explained, &mut work, &mut list, out)
}

// Looks through standard input, with memory for the bundle and a byte more, and for the text.
fn answer(rt: &impl Host, explained: bool, bundle: &mut [u8], text: &mut [u8]) {
    match read_all(&mut rt.input(), bundle) {
        Input::Whole { n } => {
            let length = put_told(part(bundle, 0, n), explained, text);
            print(rt, part(text, 0, length));
        }
        Input::Failed { error } => fail(rt, b"standard input", &error),
    }
}

// The same with memory of its own. The text has at most 4,096 lines of at most 303 bytes, and the numbers.
fn answer_with_memory(rt: &impl Host, explained: bool) {
    let mut bundle = [0u8; 65537];
    let mut text = [0u8; 1280000];
    answer(rt, explained, &mut bundle, &mut text);
}

// Whether the first argument asks for an explanation.
fn is_explain(rt: &impl Host) -> bool {
    let mut word = [0u8; 16];
    let n = argument_in(rt, 1, &mut word);
    part(&word, 0, n) == b"--explain".as_slice()
}

fn main(rt: HostRuntime) {
    let count = argument_count(&rt);
    if count <= 1 {
        answer_with_memory(&rt, false);
        return;
    }
    if count == 2 {
        if is_explain(&rt) {
            answer_with_memory(&rt, true);
            return;
        }
    }
    complain(
        &rt,
        b"usage",
        b"loops [--explain], with a bundle on standard input",
    );
}
