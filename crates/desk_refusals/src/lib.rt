// Why a desk is refused (document 02, order 10): by its own bundle, by the calendars, or by a change that it
// sees.
#![tactic(auto, unfolding(desks_calls::specs::Join::is_shared, desks_calls::specs::Join::may_hold, desks_calls::specs::Join::holds_only, desks_calls::specs::Join::or_else, desks_calls::specs::Join::join_fault, desks_calls::specs::Join::change_fault, desks_calls::specs::Desks::sight_of, desks_calls::specs::Desks::sight_fault, desks_calls::specs::Desks::desk_fault, bundle::specs::Answers::tried_bundle, bundle::specs::Answers::change_of, bundle_layout::specs::Change::make_fault, bundle_layout::specs::Bundle::file_at, parts::specs::Files::is_present))]

ghost use Rattle.std.specs.Prelude.{◌≡◌, not, ◌&&◌, ◌||◌, ltb};
ghost use Rattle.parts.specs.Files.{is_present, new_file};
ghost use Rattle.bundle_layout.specs.Bundle.{file_at};
ghost use Rattle.desks_calls.specs.Join.{is_shared, may_hold, holds_only, join_fault, change_fault};
ghost use Rattle.desks_calls.specs.Desks.{sight_of, desk_fault};

use bundle::{bundle_fault, is_omitted, try_bundle};
use desks_calls::Seen;

// Files 6, 7 and 8 stand in the calendars' bundle, all others in a desk's.
pub fn is_shared(k: usize) -> bool
    ensures { result ≡ is_shared k }
{
    (6..=8).contains(&k)
}

fn may_hold(calendars: bool, k: usize) -> bool
    ensures { result ≡ may_hold calendars k }
{
    is_shared(k) == calendars
}

// Whether file k is omitted or may stand in this bundle.
fn stands_well(s: &[u8], calendars: bool, k: usize) -> bool
    ensures { result ≡ not (is_present (file_at s.now k)) || may_hold calendars k }
{
    is_omitted(s, k) || may_hold(calendars, k)
}

// Whether a bundle holds only what it may.
fn holds_only(s: &[u8], calendars: bool) -> bool
    ensures { result ≡ holds_only calendars (file_at s.now) 20 }
{
    for k in 0..20 {
        if !stands_well(s, calendars, k) {
            return false;
        }
    }
    true
}

// The refusal of a desk by the bundles alone: 1, 2 or 3 of its own, then of the calendars, then 9 of either.
pub fn join_fault(desk: &[u8], shared: &[u8]) -> u32
    ensures { result ≡ join_fault 20 desk.now shared.now }
{
    let own = bundle_fault(desk, 20);
    if own != 0 {
        return own;
    }
    let common = bundle_fault(shared, 20);
    if common != 0 {
        return common;
    }
    if holds_only(desk, false) && holds_only(shared, true) {
        0
    } else {
        9
    }
}

// Whether a bundle may not hold file k; a number that is no file's is another matter.
fn is_barred(calendars: bool, k: usize) -> bool
    ensures { result ≡ ltb k 20 && not (may_hold calendars k) }
{
    k < 20 && !may_hold(calendars, k)
}

// The refusal of a change of a bundle that is none itself: 4, 9, 6 or 5.
fn change_fault<'a>(
    s: &'a [u8],
    calendars: bool,
    k: usize,
    present: bool,
    new: &'a [u8],
    room: usize,
) -> u32
    ensures { result ≡ change_fault 20 calendars s.now k (new_file present new.now) room }
{
    if is_barred(calendars, k) {
        return 9;
    }
    let made = try_bundle(s, 20, k, present, new);
    if made.refusal == 0 && room < made.length {
        5
    } else {
        made.refusal
    }
}

// The refusal of a desk, or 0: by the bundles, then by the change, where it sees that.
pub fn desk_fault<'a>(
    desk: &'a [u8],
    shared: &'a [u8],
    seen: Seen,
    k: usize,
    present: bool,
    new: &'a [u8],
    room: usize,
) -> u32
    ensures { result ≡ desk_fault 20 desk.now shared.now (sight_of seen k (new_file present new.now) room) }
{
    let refusal = join_fault(desk, shared);
    if refusal != 0 {
        return refusal;
    }
    match seen {
        Seen::Nothing => 0,
        Seen::Own => change_fault(desk, false, k, present, new, room),
        Seen::Shared => change_fault(shared, true, k, present, new, room),
    }
}
