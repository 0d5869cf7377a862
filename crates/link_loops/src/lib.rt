// A loop among links, each from one class of equal IDs to another: a walk into the depth that meets a
// class of its own way has found one, and a walk that has been through every class shows that there is
// none. In step with the number of links.
#![tactic(auto, unfolding(crate::specs::Links::seen_of))]

ghost use Rattle.std.specs.Prelude.{◌≡◌, true, false, ℕ, ◌+◌, ◌-◌, ◌≤◌, ◌<◌, length, get_or, set, drop, ◌++◌};
ghost use Rattle.mark_numbers.specs.Marks.{list_of};
ghost use Rattle.link_loops.specs.Loop.{ShowsRing};
ghost use Rattle.link_loops.specs.Links.{link_leads, all_below, seen_of, ShowsLinks};
ghost use Rattle.link_loops.specs.Walk.{Unchained, Chained, Unwalked, BlankColumns, WalkEnded};

// Where a walk ended: with the links from place `start` of the way up to `end`, which are a loop. Where
// the two are the same there is none.
#[derive(Clone, Copy)]
struct Ring {
    start: usize,
    end: usize,
}

// Whether every class is below n.
fn all_below(from: &[usize], n: usize) -> bool
    ensures { result ≡ all_below n from.now }
{
    for c in from {
        if *c >= n {
            return false;
        }
    }
    true
}

// The links that leave one class, as a chain: its first link, and behind each link the next one; n or
// more for none. Heads are none at first.
fn chain_links(from: &[usize], heads: &mut [usize], nexts: &mut [usize])
    requires { Unchained from.now heads.old nexts.old }
    ensures { Chained from.now heads.new nexts.new }
{
    let mut i = from.len();
    while i > 0 {
        i -= 1;
        let c = from[i];
        nexts[i] = heads[c];
        heads[c] = i;
    }
}

// What is seen of a class.
fn seen(heads: &[usize], mark: &[usize], c: usize) -> usize
    requires { (length heads.now ≡ length mark.now) × (length mark.now ≤ 4096) }
    ensures { result ≡ seen_of heads.now mark.now c }
{
    let n = mark.len();
    if c >= n || heads[c] >= n {
        n + 1
    } else {
        mark[c]
    }
}

// Goes into a class by its first link, the next one on the way.
fn enter(heads: &[usize], way: &mut [usize], mark: &mut [usize], c: usize, steps: usize)
    requires { (c < length heads.now) × (c < length mark.old) × (steps < length way.old) × (length way.old ≤ 4096) }
    ensures way_after { way.new ≡ set way.old steps (get_or heads.now c 0) }
    ensures mark_after { mark.new ≡ set mark.old c (steps + 1) }
{
    way[steps] = heads[c];
    mark[c] = steps + 1;
}

// Walks into the depth from each class in turn, along the chains. The way holds the link that is gone
// through at each step; the mark of a class is 0 before it is met, its step while it is on the way, and
// above the number of links once every link that leaves it is through, in the order in which that came.
fn walk(
    from: &[usize],
    to: &[usize],
    heads: &[usize],
    nexts: &[usize],
    way: &mut [usize],
    mark: &mut [usize],
) -> Ring
    requires { Unwalked from.now to.now heads.now nexts.now way.old mark.old }
    ensures { WalkEnded from.now to.now way.new result.start result.end }
{
    let n = from.len();
    let mut steps = 0;
    let mut through = 0;
    let mut root = 0;
    while root < n {
        if steps == 0 {
            let c = from[root];
            if mark[c] == 0 {
                enter(heads, way, mark, c, steps);
                steps += 1;
            } else {
                root += 1;
            }
        } else {
            let q = way[steps - 1];
            let c = to[q];
            let v = seen(heads, mark, c);
            if v == 0 {
                enter(heads, way, mark, c, steps);
                steps += 1;
            } else {
                if v <= n {
                    return Ring {
                        start: v - 1,
                        end: steps,
                    };
                }
                let next = nexts[q];
                if next < n {
                    way[steps - 1] = next;
                } else {
                    let left = from[q];
                    mark[left] = n + 1 + through;
                    through += 1;
                    steps -= 1;
                }
            }
        }
    }
    Ring { start: 0, end: 0 }
}

// Writes the links of a ring to the start of a list, as record numbers; answers how many they are.
fn write_ring(way: &[usize], start: usize, end: usize, list: &mut [u32]) -> usize
    requires { (start ≤ end) × (end ≤ length way.now) × (end ≤ length list.old) × (length way.now ≤ 4096) × ((j : ℕ) → j < end → get_or way.now j 0 < 4096) }
    ensures value { result ≡ end - start }
    ensures list_after { list.new ≡ list_of (λ (i : ℕ). get_or way.now (start + i) 0 + 1) (end - start) ++ drop (end - start) list.old }
{
    for i in 0..end - start {
        list[i] = (way[start + i] + 1) as u32;
    }
    end - start
}

// Shows a loop of links in lent lists.
fn show_in(
    from: &[usize],
    to: &[usize],
    heads: &mut [usize],
    nexts: &mut [usize],
    way: &mut [usize],
    mark: &mut [usize],
    list: &mut [u32],
) -> usize
    requires { BlankColumns from.now to.now heads.old nexts.old way.old mark.old list.old }
    ensures { ShowsRing (link_leads from.now to.now) (length from.now) result list.old list.new }
{
    chain_links(from, heads, nexts);
    let ring = walk(from, to, heads, nexts, way, mark);
    write_ring(way, ring.start, ring.end, list)
}

// Shows a loop of links: its record numbers at the start of the list, and how many they are; 0 where
// there is none, or where the columns are not what they have to be.
pub fn show_links(from: &[usize], to: &[usize], list: &mut [u32]) -> usize
    ensures { ShowsLinks from.now to.now result list.old list.new }
{
    let n = from.len();
    if n > 4096 {
        return 0;
    }
    if to.len() != n {
        return 0;
    }
    if list.len() < n {
        return 0;
    }
    if !all_below(from, n) {
        return 0;
    }
    let mut heads = [4096usize; 4096];
    let mut nexts = [0usize; 4096];
    let mut way = [0usize; 4096];
    let mut mark = [0usize; 4096];
    show_in(
        from,
        to,
        &mut heads[..n],
        &mut nexts[..n],
        &mut way[..n],
        &mut mark[..n],
        list,
    )
}
