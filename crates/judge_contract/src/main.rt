// Judges the bundle on standard input, of up to 65,536 bytes, by the contract side's gate, and prints its
// marks.
#![tactic(auto)]

ghost use Rattle.std.specs.Prelude.{◌≡◌, ◌≤◌, length, take};
ghost use Rattle.judge_contract.specs.Printed.{printed};

use gate_contract::{fresh, judge, report_board};
use parts::part;
use program_io::{Host, Input, fail, print, read_all};

// Puts the text of a bundle's judgement at the front of an output, and answers its length.
fn put_judgement(bundle: &[u8], out: &mut [u8]) -> usize
    requires { 2176 ≤ length out.old }
    ensures { take result out.new ≡ printed bundle.now }
{
    if 65536 < bundle.len() {
        return report_board(1, fresh(), out);
    }
    let verdict = judge(bundle);
    let board = verdict.board;
    report_board(verdict.refusal, board, out)
}

// Judges standard input, with memory for the bundle and a byte more.
fn answer(rt: &impl Host, bundle: &mut [u8]) {
    match read_all(&mut rt.input(), bundle) {
        Input::Whole { n } => {
            let mut text = [0u8; 2176];
            let length = put_judgement(part(bundle, 0, n), &mut text);
            print(rt, part(&text, 0, length));
        }
        Input::Failed { error } => fail(rt, b"standard input", &error),
    }
}

fn main(rt: HostRuntime) {
    let mut bundle = [0u8; 65537];
    answer(&rt, &mut bundle);
}
