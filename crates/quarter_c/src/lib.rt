// The quarter for programs in other languages: its state as lists that the caller lends, 24 totals, how many
// sets came and 256 flags, and the six grand totals beside it.
#![tactic(auto)]

ghost use Rattle.std.specs.Prelude.{◌≡◌, length, take};
ghost use Rattle.quarter.specs.Quarter.{taken_in, taken_left, trues};
ghost use Rattle.quarter_c.specs.Handed.{handed};

use quarter::{Quarter, left_out, take_in};

// Takes a set: the refusal or 0. The state that was handed in gives way to the one that comes back, which
// after a refusal is the same; the grand totals are then 0.
#[unsafe(no_mangle)]
pub extern "C" fn knotsaddle_quarter_take(
    bundle: &[u8],
    totals: &mut [i64; 24],
    sets: &mut usize,
    left: &mut [bool; 256],
    grand: &mut [i64; 6],
    work: &mut [u32],
) -> u32
    ensures value { result ≡ (taken_in (handed totals.old sets.old left.old) bundle.now (length work.old)).refusal }
    ensures quarter_after { handed totals.new sets.new left.new ≡ (taken_in (handed totals.old sets.old left.old) bundle.now (length work.old)).quarter }
    ensures grand_after { grand.new ≡ (taken_in (handed totals.old sets.old left.old) bundle.now (length work.old)).grand }
    ensures work_after { work.new ≡ taken_left (handed totals.old sets.old left.old) bundle.now work.old }
{
    let before = Quarter {
        totals: *totals,
        sets: *sets,
        left: *left,
    };
    let taken = take_in(before, bundle, work);
    let after = taken.quarter;
    let new_totals = after.totals;
    let new_left = after.left;
    let new_grand = taken.grand;
    *totals = new_totals;
    *sets = after.sets;
    *left = new_left;
    *grand = new_grand;
    taken.refusal
}

// How many of the sets that came are left out.
#[unsafe(no_mangle)]
pub extern "C" fn knotsaddle_quarter_left_out(sets: usize, left: &[bool; 256]) -> usize
    ensures { result ≡ trues (take sets left.now) }
{
    left_out(Quarter {
        totals: [0i64; 24],
        sets,
        left: *left,
    })
}
