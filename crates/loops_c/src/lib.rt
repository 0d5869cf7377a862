// A loop among the links of a set (document 02, order 14) for programs in other languages: numbers and lent
// lists in, a number out.
#![tactic(auto, unfolding(crate::specs::Calls::refusal_shown, crate::specs::Calls::records_shown, crate::specs::Calls::LoopCalled))]

ghost use Rattle.std.specs.Prelude.{◌≡◌, length};
ghost use Rattle.loops_c.specs.Calls.{refusal_shown, records_shown, LoopCalled};

use show_loop::{Shown, show_loop_in};

fn refusal_shown(shown: Shown) -> u32
    ensures { result ≡ refusal_shown shown }
{
    match shown {
        Ok(_) => 0,
        Err(k) => k,
    }
}

fn records_shown(shown: Shown) -> usize
    ensures { result ≡ records_shown shown }
{
    match shown {
        Ok(Some(m)) => m,
        Ok(None) => 0,
        Err(_) => 0,
    }
}

// Shows a loop of the links in a bundle: the refusal or 0. `records` gets how many records it has, 0 for none
// and with a refusal; their numbers go to the start of the list, which else is as before.
#[unsafe(no_mangle)]
pub extern "C" fn knotsaddle_loops_show(
    bundle: &[u8],
    list: &mut [u32],
    records: &mut usize,
    work: &mut [u32],
) -> u32
    ensures { LoopCalled (length work.old) bundle.now list.old list.new result records.new }
{
    let shown = show_loop_in(bundle, work, list);
    *records = records_shown(shown);
    refusal_shown(shown)
}
