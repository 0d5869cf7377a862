// Signed numbers read for whoever prints them or puts them into bytes: one of a list, and how far one is from
// zero.
#![tactic(auto, unfolding(exact_sums::specs::Sums::whole_at))]

ghost use Rattle.std.specs.Prelude.{◌≡◌, nat_abs};
ghost use Rattle.exact_sums.specs.Sums.{whole_at};

pub fn size_of(x: i64) -> u64
    ensures { result ≡ nat_abs x }
{
    x.unsigned_abs()
}

// The number at a place of a list; 0 past its end.
pub fn whole_in(list: &[i64], i: usize) -> i64
    ensures { result ≡ whole_at list.now i }
{
    list.get(i).copied().unwrap_or(0)
}
