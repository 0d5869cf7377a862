// The calls with a lent list of entries (document 02, order 7), and the plain engine's, for programs in other
// languages: numbers and lent lists in, a number out. A board is three lists of 81, the list of entries has four
// numbers for each. A number out of place is refused as 101 before all else, and everything left as it is.
#![tactic(auto)]

ghost use Rattle.std.specs.Prelude.{◌≡◌, length};
ghost use Rattle.mark_numbers.specs.Marks.{marks_in};
ghost use Rattle.bundle_layout.specs.Bundle.{file_at};
ghost use Rattle.bundle_layout.specs.Change.{files_after};
ghost use Rattle.schedule.specs.Schedule.{schedule};
ghost use Rattle.gate_marks.specs.declared.Scope.TheVariants.{Full, Change};
ghost use Rattle.gate_calls.specs.Calls.{judgement};
ghost use Rattle.set_entries.specs.Entries.{set_entries};
ghost use Rattle.gate_flat.specs.Listed.{judge_listed, output_after, listed_of, list_left};
ghost use Rattle.listed_numbers.specs.Numbers.{places_in, numbers_after};
ghost use Rattle.listed_c.specs.Calls.{file_handed, try_list_called, make_list_called};

use gate_plain::judge_plain;
use listed_numbers::{judge_numbers, make_numbers, try_numbers};

// Judges a bundle in full: the refusal or 0. Its marks go to the board, the entries of its records to the start
// of `list`, their number to `entries`.
#[unsafe(no_mangle)]
pub extern "C" fn knotsaddle_listed_judge(
    bundle: &[u8],
    kinds: &mut [u32],
    places: &mut [usize],
    companions: &mut [usize],
    list: &mut [u32],
    entries: &mut usize,
    work: &mut [u32],
) -> u32
    ensures value { result ≡ (judge_listed schedule bundle.now (length work.old) (places_in list.old) (marks_in kinds.old places.old companions.old)).refusal }
    ensures board_after { marks_in kinds.new places.new companions.new ≡ (judge_listed schedule bundle.now (length work.old) (places_in list.old) (marks_in kinds.old places.old companions.old)).marks }
    ensures list_after { list.new ≡ numbers_after result (set_entries schedule Full (file_at bundle.now)) list.old }
    ensures entries_after { entries.new ≡ (listed_of (set_entries schedule Full (file_at bundle.now)) (judge_listed schedule bundle.now (length work.old) (places_in list.old) (marks_in kinds.old places.old companions.old))).entries }
    ensures work_after { work.new ≡ list_left schedule Full (file_at bundle.now) result work.old }
{
    let told = judge_numbers(bundle, work, kinds, places, companions, list);
    *entries = told.entries;
    told.refusal
}

// Tries a change of a file, to new bytes where `present` is 1 and to none where it is 0; the board that was
// handed in gives way to the one that comes back. `list` gets the entries of the files that were read for it,
// `entries` their number, and `size` the length that the new bundle would have.
#[unsafe(no_mangle)]
pub extern "C" fn knotsaddle_listed_try<'a>(
    bundle: &'a [u8],
    kinds: &mut [u32],
    places: &mut [usize],
    companions: &mut [usize],
    file: usize,
    present: u32,
    new_bytes: &'a [u8],
    list: &mut [u32],
    entries: &mut usize,
    size: &mut usize,
    work: &mut [u32],
) -> u32
    ensures value { result ≡ (try_list_called bundle.now file present new_bytes.now (length work.old) (places_in list.old) (marks_in kinds.old places.old companions.old)).refusal }
    ensures board_after { marks_in kinds.new places.new companions.new ≡ (try_list_called bundle.now file present new_bytes.now (length work.old) (places_in list.old) (marks_in kinds.old places.old companions.old)).marks }
    ensures list_after { list.new ≡ numbers_after result (set_entries schedule (Change file) (files_after bundle.now file (file_handed present new_bytes.now))) list.old }
    ensures entries_after { entries.new ≡ (listed_of (set_entries schedule (Change file) (files_after bundle.now file (file_handed present new_bytes.now))) (try_list_called bundle.now file present new_bytes.now (length work.old) (places_in list.old) (marks_in kinds.old places.old companions.old))).entries }
    ensures size_after { size.new ≡ (try_list_called bundle.now file present new_bytes.now (length work.old) (places_in list.old) (marks_in kinds.old places.old companions.old)).length }
    ensures work_after { work.new ≡ list_left schedule (Change file) (files_after bundle.now file (file_handed present new_bytes.now)) result work.old }
{
    *entries = 0;
    *size = 0;
    if 1 < present {
        return 101;
    }
    let told = try_numbers(
        bundle,
        file,
        present == 1,
        new_bytes,
        work,
        kinds,
        places,
        companions,
        list,
    );
    *entries = told.entries;
    *size = told.length;
    told.refusal
}

// Makes a change, handed over as to `knotsaddle_listed_try`: the new bundle goes to the front of `out`, its
// length to `size`.
#[unsafe(no_mangle)]
pub extern "C" fn knotsaddle_listed_make<'a>(
    bundle: &'a [u8],
    kinds: &mut [u32],
    places: &mut [usize],
    companions: &mut [usize],
    file: usize,
    present: u32,
    new_bytes: &'a [u8],
    out: &mut [u8],
    list: &mut [u32],
    entries: &mut usize,
    size: &mut usize,
    work: &mut [u32],
) -> u32
    ensures value { result ≡ (make_list_called bundle.now file present new_bytes.now (length out.old) (length work.old) (places_in list.old) (marks_in kinds.old places.old companions.old)).refusal }
    ensures board_after { marks_in kinds.new places.new companions.new ≡ (make_list_called bundle.now file present new_bytes.now (length out.old) (length work.old) (places_in list.old) (marks_in kinds.old places.old companions.old)).marks }
    ensures out_after { out.new ≡ output_after schedule result (files_after bundle.now file (file_handed present new_bytes.now)) out.old }
    ensures list_after { list.new ≡ numbers_after result (set_entries schedule (Change file) (files_after bundle.now file (file_handed present new_bytes.now))) list.old }
    ensures entries_after { entries.new ≡ (listed_of (set_entries schedule (Change file) (files_after bundle.now file (file_handed present new_bytes.now))) (make_list_called bundle.now file present new_bytes.now (length out.old) (length work.old) (places_in list.old) (marks_in kinds.old places.old companions.old))).entries }
    ensures size_after { size.new ≡ (make_list_called bundle.now file present new_bytes.now (length out.old) (length work.old) (places_in list.old) (marks_in kinds.old places.old companions.old)).length }
    ensures work_after { work.new ≡ list_left schedule (Change file) (files_after bundle.now file (file_handed present new_bytes.now)) result work.old }
{
    *entries = 0;
    *size = 0;
    if 1 < present {
        return 101;
    }
    let told = make_numbers(
        bundle,
        file,
        present == 1,
        new_bytes,
        out,
        work,
        kinds,
        places,
        companions,
        list,
    );
    *entries = told.entries;
    *size = told.length;
    told.refusal
}

// Judges a bundle in full by the plain engine: the refusal or 0; its marks go to the board.
#[unsafe(no_mangle)]
pub extern "C" fn knotsaddle_plain_judge(
    bundle: &[u8],
    kinds: &mut [u32; 81],
    places: &mut [usize; 81],
    companions: &mut [usize; 81],
) -> u32
    ensures value { result ≡ (judgement schedule bundle.now).refusal }
    ensures board_after { marks_in kinds.new places.new companions.new ≡ (judgement schedule bundle.now).marks }
{
    let verdict = judge_plain(bundle);
    let board = verdict.board;
    let new_kinds = board.kinds;
    let new_places = board.places;
    let new_companions = board.companions;
    *kinds = new_kinds;
    *places = new_places;
    *companions = new_companions;
    verdict.refusal
}
