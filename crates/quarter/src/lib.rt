// The quarter of document 02, order 11: exact totals of assigned dollars and hours by element of cost over
// up to 256 sets. A state goes in by value and comes back.
#![tactic(auto)]

ghost use Rattle.std.specs.Prelude.{◌≡◌, false, ℕ, ◌+◌, ◌≤◌, ◌<◌, length, take, nat_abs};
ghost use Rattle.exact_sums.specs.Sums.{whole_at};
ghost use Rattle.quarter.specs.Quarter.{started, is_refused, refused_with, accepted_as, taken, taken_in, taken_left, trues, left_out};
ghost use Rattle.quarter.specs.Code.{far_from, some_far, totals_with, grand_of, state_with};

use element_sums::Sums;
use set_sums::set_sums;

// Totals of four elements by six columns, in ten-thousandths, element by element; how many sets came; and
// for each place of the run whether that set was left out.
#[derive(Clone, Copy)]
pub struct Quarter {
    pub totals: [i64; 24],
    pub sets: usize,
    pub left: [bool; 256],
}

// How a call ends: with a refusal or 0, the state then, and the grand totals of the six columns, all 0
// after a refusal.
#[derive(Clone, Copy)]
pub struct Taken {
    pub refusal: u32,
    pub quarter: Quarter,
    pub grand: [i64; 6],
}

// 409,600,000,000 in ten-thousandths: what a set can add to a total.
const SET_LIMIT: u64 = 4_096_000_000_000_000;

const MOST_SETS: usize = 256;

// The state before any set.
pub fn start() -> Quarter
    ensures { result ≡ started }
{
    Quarter {
        totals: [0i64; 24],
        sets: 0,
        left: [false; 256],
    }
}

// How many of the first n flags are set.
fn count_set(flags: &[bool], n: usize) -> usize
    ensures { result ≡ trues (take n flags.now) }
{
    let mut found: usize = 0;
    let mut i = 0;
    while i < flags.len() {
        if n <= i {
            return found;
        }
        let set = flags[i];
        if set {
            found += 1;
            i += 1;
        } else {
            i += 1;
        }
    }
    found
}

// How many sets of the run were left out.
pub fn left_out(q: Quarter) -> usize
    ensures { result ≡ left_out q }
{
    let left = q.left;
    count_set(&left, q.sets)
}

// Whether a total is beyond a limit, either way.
fn is_far(x: i64, limit: u64) -> bool
    requires { limit < 9223372036854775808 }
    ensures { result ≡ far_from limit x }
{
    let most = limit as i64;
    if most < x {
        return true;
    }
    let least = 0 - most;
    x < least
}

// Whether some total is.
fn some_far(totals: [i64; 24], limit: u64) -> bool
    requires { limit < 9223372036854775808 }
    ensures { result ≡ some_far limit totals }
{
    let mut i = 0;
    while i < 24 {
        let x = totals[i];
        if is_far(x, limit) {
            return true;
        }
        i += 1;
    }
    false
}

// A 257th set, or a total beyond what the sets before can have added.
fn is_refused(q: Quarter) -> bool
    ensures { result ≡ is_refused q }
{
    let sets = q.sets;
    if MOST_SETS <= sets {
        return true;
    }
    let totals = q.totals;
    some_far(totals, SET_LIMIT * (sets as u64))
}

// Each total with a set's sum.
fn totals_with(totals: [i64; 24], sums: [i64; 24]) -> [i64; 24]
    requires { (i : ℕ) → i < 24 → nat_abs (whole_at totals i) + nat_abs (whole_at sums i) < 9223372036854775808 }
    ensures { result ≡ totals_with totals sums }
{
    let mut after = totals;
    let mut i = 0;
    while i < 24 {
        let x = totals[i];
        let y = sums[i];
        after[i] = x + y;
        i += 1;
    }
    after
}

// Each column's four totals together.
fn grand_of(totals: [i64; 24]) -> [i64; 6]
    requires { (i : ℕ) → i < 24 → nat_abs (whole_at totals i) < 2000000000000000000 }
    ensures { result ≡ grand_of totals }
{
    let mut grand = [0i64; 6];
    let mut c = 0;
    while c < 6 {
        let labor = totals[c];
        let material = totals[c + 6];
        let other = totals[c + 12];
        let subcontract = totals[c + 18];
        grand[c] = labor + material + other + subcontract;
        c += 1;
    }
    grand
}

fn refused(refusal: u32, q: Quarter) -> Taken
    ensures { result ≡ refused_with refusal q }
{
    Taken {
        refusal,
        quarter: q,
        grand: [0i64; 6],
    }
}

// The state with what a set adds, and the grand totals.
fn with_sums(q: Quarter, found: Sums) -> Taken
    requires not_refused { is_refused q ≡ false }
    requires sums_bounded { (i : ℕ) → i < 24 → nat_abs (whole_at found.sums i) ≤ 4096000000000000 }
    ensures { result ≡ accepted_as (state_with q found) }
{
    let before = q.totals;
    let sums = found.sums;
    let totals = totals_with(before, sums);
    let sets = q.sets;
    let mut left = q.left;
    left[sets] = !found.fits;
    let quarter = Quarter {
        totals,
        sets: sets + 1,
        left,
    };
    let grand = grand_of(totals);
    Taken {
        refusal: 0,
        quarter,
        grand,
    }
}

// Takes a set into a quarter, in a lent workspace, whatever that holds. One of fewer than 794,702 numbers
// is refused as 14, before all else, and the set is not counted.
pub fn take_in(q: Quarter, bundle: &[u8], work: &mut [u32]) -> Taken
    ensures value { result ≡ taken_in q bundle.now (length work.old) }
    ensures work_after { work.new ≡ taken_left q bundle.now work.old }
{
    if work.len() < 794702 {
        return refused(14, q);
    }
    if is_refused(q) {
        return refused(10, q);
    }
    let found = set_sums(bundle, work);
    with_sums(q, found)
}

// Takes a set into a quarter.
pub fn take(q: Quarter, bundle: &[u8]) -> Taken
    ensures { result ≡ taken q bundle.now }
{
    let mut work = [0u32; 794702];
    take_in(q, bundle, &mut work)
}
