// How many numbers below x stand at the front of a list in order, by halving: a list of 4,096 is
// looked at thirteen times.
#![tactic(auto)]

ghost use Rattle.std.specs.Prelude.{◌≡◌};
ghost use Rattle.number_search.specs.Search.{below, searched};

// Where halving ends: in a list in order, at the first number that is not below x, or the list's end.
// By hand and not by partition_point: the clause says where halving ends in a list out of order too.
pub fn front_below(numbers: &[u64], x: u64) -> usize
    ensures { result ≡ searched (below x) numbers.now }
{
    let mut lo = 0;
    let mut hi = numbers.len();
    while lo < hi {
        let m = lo + (hi - lo) / 2;
        if numbers[m] < x {
            lo = m + 1;
        } else {
            hi = m;
        }
    }
    lo
}
