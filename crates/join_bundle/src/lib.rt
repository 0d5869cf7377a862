// The joined set of a desk (document 02, order 10) as a bundle: the desk's own with files 6, 7 and 8 of the
// shared one put in.
#![tactic(auto)]

ghost use Rattle.std.specs.Prelude.{◌≡◌, ◌≤◌, length};
ghost use Rattle.bundle_layout.specs.Bundle.{file_at, bundle_length};
ghost use Rattle.bundle_layout.specs.Change.{output, output_of};
ghost use Rattle.bundle.specs.Answers.{made_bundle};
ghost use Rattle.desks_calls.specs.Join.{joined_set, join_fault};
ghost use Rattle.join_bundle.specs.Joined.{length_joined, output_joined};

use bundle::{is_omitted, make_bundle, part_at};
use desk_refusals::join_fault;
use parts::part;

// Puts file k of the shared bundle into a bundle: writes the new one to the front of an output, unless it is
// refused, and answers its length.
fn put_shared<'a>(s: &'a [u8], shared: &'a [u8], k: usize, out: &mut [u8]) -> usize
    ensures value { result ≡ (made_bundle 20 s.now k (file_at shared.now k) (length out.old)).length }
    ensures out_after { out.new ≡ output 20 s.now k (file_at shared.now k) out.old }
{
    let present = !is_omitted(shared, k);
    make_bundle(s, 20, k, present, part_at(shared, k), out).length
}

// How long the joined set's bundle is, of bundles that are not refused.
fn joined_length(desk: &[u8], shared: &[u8]) -> usize
    requires { join_fault 20 desk.now shared.now ≡ 0 }
    ensures { result ≡ bundle_length 20 (joined_set desk.now shared.now) }
{
    let six = part_at(shared, 6).len();
    let seven = part_at(shared, 7).len();
    let eight = part_at(shared, 8).len();
    desk.len() + six + seven + eight
}

// Puts them in one after the other, by way of two buffers for what is in between.
fn put_all<'a>(
    desk: &'a [u8],
    shared: &'a [u8],
    first: &mut [u8],
    second: &mut [u8],
    out: &mut [u8],
)
    requires no_join_fault { join_fault 20 desk.now shared.now ≡ 0 }
    requires joined_fits { (bundle_length 20 (joined_set desk.now shared.now) ≤ 1048576) × (bundle_length 20 (joined_set desk.now shared.now) ≤ length out.old) }
    requires buffers_len { (length first.old ≡ 1048576) × (length second.old ≡ 1048576) }
    ensures { out.new ≡ output_of 20 (joined_set desk.now shared.now) out.old }
{
    let six = put_shared(desk, shared, 6, first);
    let seven = put_shared(part(first, 0, six), shared, 7, second);
    put_shared(part(second, 0, seven), shared, 8, out);
}

// The same with buffers of its own.
fn put_with_memory<'a>(desk: &'a [u8], shared: &'a [u8], out: &mut [u8])
    requires no_join_fault { join_fault 20 desk.now shared.now ≡ 0 }
    requires joined_fits { (bundle_length 20 (joined_set desk.now shared.now) ≤ 1048576) × (bundle_length 20 (joined_set desk.now shared.now) ≤ length out.old) }
    ensures { out.new ≡ output_of 20 (joined_set desk.now shared.now) out.old }
{
    let mut first = [0u8; 1048576];
    let mut second = [0u8; 1048576];
    put_all(desk, shared, &mut first, &mut second, out);
}

// Writes the joined set's bundle to the front of an output and answers its length; 0, and nothing is
// written, where a bundle is refused or it would be too long.
pub fn join_bundle<'a>(desk: &'a [u8], shared: &'a [u8], out: &mut [u8]) -> usize
    ensures value { result ≡ length_joined desk.now shared.now (length out.old) }
    ensures out_after { out.new ≡ output_joined desk.now shared.now out.old }
{
    if join_fault(desk, shared) != 0 {
        return 0;
    }
    let length = joined_length(desk, shared);
    if 1048576 < length {
        return 0;
    }
    if out.len() < length {
        return 0;
    }
    put_with_memory(desk, shared, out);
    length
}
