// The drawer (document 02, order 12) for programs in other languages: numbers and lent lists in, a number
// out. A board is three lists of 81 numbers. Judging, trying and making are done in the lent workspace `work`:
// one that is too short is refused as 14, and what they leave in it may be lent again. A call that is refused
// leaves everything as it was, but for a judgement, which makes the marks 'not judged' unless a list is wrong.
#![tactic(auto)]

ghost use Rattle.std.specs.Prelude.{◌≡◌, length};
ghost use Rattle.mark_numbers.specs.Marks.{marks_in};
ghost use Rattle.bundle_layout.specs.Bundle.{offset_at, length_at};
ghost use Rattle.gate_calls.specs.Lent.{judge_left, change_left};
ghost use Rattle.schedule.specs.Schedule.{schedule};
ghost use Rattle.drawer_held.specs.Drawer.{held_fault};
ghost use Rattle.drawer_bundles.specs.Bundles.{put_fault, bundle_put, taken_bundle, taken_out};
ghost use Rattle.drawer_calls.specs.Lent.{drawer_judged_in};
ghost use Rattle.drawer_c.specs.Calls.{file_handed, change_called, drawer_called, number_left, present_held};

use bundle::{is_omitted, length_at, offset_at};
use drawer_bundles::{put_bundle, take_bundle};
use drawer_held::held_fault;
use drawer_lists::{judge_drawer_lists, make_drawer_lists, try_drawer_lists};

// Judges a drawer in full: the refusal or 0; its marks go to the board.
#[unsafe(no_mangle)]
pub extern "C" fn knotsaddle_drawer_judge(
    drawer: &[u8],
    kinds: &mut [u32],
    places: &mut [usize],
    companions: &mut [usize],
    work: &mut [u32],
) -> u32
    ensures value { result ≡ (drawer_judged_in schedule drawer.now (length work.old) (marks_in kinds.old places.old companions.old)).refusal }
    ensures board_after { marks_in kinds.new places.new companions.new ≡ (drawer_judged_in schedule drawer.now (length work.old) (marks_in kinds.old places.old companions.old)).marks }
    ensures work_after { work.new ≡ judge_left schedule drawer.now result work.old }
{
    judge_drawer_lists(drawer, work, kinds, places, companions)
}

// Whether a file of a drawer is there, as a number.
fn present_held(drawer: &[u8], file: usize) -> u32
    ensures { result ≡ present_held drawer.now file }
{
    if is_omitted(drawer, file) {
        return 0;
    }
    1
}

// Asks for a file by number: the refusal or 0. `present` gets 1 if the file is there and 0 if it is omitted,
// `start` and `size` where its part of the drawer begins and how long it is.
#[unsafe(no_mangle)]
pub extern "C" fn knotsaddle_drawer_file(
    drawer: &[u8],
    file: usize,
    present: &mut u32,
    start: &mut usize,
    size: &mut usize,
) -> u32
    ensures value { result ≡ held_fault 20 drawer.now file }
    ensures present_after { present.new ≡ number_left result (present_held drawer.now file) present.old }
    ensures start_after { start.new ≡ number_left result (offset_at drawer.now file) start.old }
    ensures size_after { size.new ≡ number_left result (length_at drawer.now file) size.old }
{
    let refusal = held_fault(drawer, file);
    if refusal != 0 {
        return refusal;
    }
    *present = present_held(drawer, file);
    *start = offset_at(drawer, file);
    *size = length_at(drawer, file);
    0
}

// Tries a change of a file, to new bytes where `present` is 1 and to none where it is 0; the board that was
// handed in gives way to the one that comes back.
#[unsafe(no_mangle)]
pub extern "C" fn knotsaddle_drawer_try<'a>(
    drawer: &'a [u8],
    kinds: &mut [u32],
    places: &mut [usize],
    companions: &mut [usize],
    file: usize,
    present: u32,
    new_bytes: &'a [u8],
    work: &mut [u32],
) -> u32
    ensures value { result ≡ (change_called drawer.now file present new_bytes.now (length work.old) (marks_in kinds.old places.old companions.old)).refusal }
    ensures board_after { marks_in kinds.new places.new companions.new ≡ (change_called drawer.now file present new_bytes.now (length work.old) (marks_in kinds.old places.old companions.old)).marks }
    ensures work_after { work.new ≡ change_left schedule drawer.now file (file_handed present new_bytes.now) result work.old }
{
    if 1 < present {
        return 101;
    }
    try_drawer_lists(
        drawer,
        file,
        present == 1,
        new_bytes,
        work,
        kinds,
        places,
        companions,
    )
}

// Makes a change in place, handed over as to `knotsaddle_drawer_try`.
#[unsafe(no_mangle)]
pub extern "C" fn knotsaddle_drawer_make(
    drawer: &mut [u8],
    kinds: &mut [u32],
    places: &mut [usize],
    companions: &mut [usize],
    file: usize,
    present: u32,
    new_bytes: &[u8],
    work: &mut [u32],
) -> u32
    ensures value { result ≡ (change_called drawer.old file present new_bytes.now (length work.old) (marks_in kinds.old places.old companions.old)).refusal }
    ensures board_after { marks_in kinds.new places.new companions.new ≡ (change_called drawer.old file present new_bytes.now (length work.old) (marks_in kinds.old places.old companions.old)).marks }
    ensures drawer_after { drawer.new ≡ drawer_called drawer.old file present new_bytes.now (length work.old) (marks_in kinds.old places.old companions.old) }
    ensures work_after { work.new ≡ change_left schedule drawer.old file (file_handed present new_bytes.now) result work.old }
{
    if 1 < present {
        return 101;
    }
    make_drawer_lists(
        drawer,
        file,
        present == 1,
        new_bytes,
        work,
        kinds,
        places,
        companions,
    )
}

// Puts a bundle into a drawer, whatever that held: the refusal or 0.
#[unsafe(no_mangle)]
pub extern "C" fn knotsaddle_drawer_put(drawer: &mut [u8], bundle: &[u8]) -> u32
    ensures value { result ≡ put_fault 20 drawer.old bundle.now }
    ensures drawer_after { drawer.new ≡ bundle_put 20 drawer.old bundle.now }
{
    put_bundle(drawer, bundle)
}

// Writes the bundle of a drawer's files to the front of `out`: the refusal or 0. `size` gets its length.
#[unsafe(no_mangle)]
pub extern "C" fn knotsaddle_drawer_take(drawer: &[u8], out: &mut [u8], size: &mut usize) -> u32
    ensures value { result ≡ (taken_bundle 20 drawer.now (length out.old)).refusal }
    ensures out_after { out.new ≡ taken_out 20 drawer.now out.old }
    ensures size_after { size.new ≡ number_left result (taken_bundle 20 drawer.now (length out.old)).length size.old }
{
    let taken = take_bundle(drawer, out);
    if taken.refusal == 0 {
        *size = taken.length;
    }
    taken.refusal
}
