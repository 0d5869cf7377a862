// Where the files of a drawer stand: whether they stand apart, and the lowest gap between them.
// The offsets and the lengths are two lists in the order of the files' numbers; one past a list's
// end counts 0.
#![tactic(auto, unfolding(crate::specs::Places::share_byte, crate::specs::Places::is_in_way, crate::specs::Places::is_free, crate::specs::Places::stands_inside, crate::specs::Places::stand_apart, bundle_layout::specs::Bundle::header_size))]

ghost use Rattle.std.specs.Prelude.{◌≡◌, ◌+◌, ◌^◌, ◌<◌, get_or};
ghost use Rattle.drawer_layout.specs.Places.{share_byte, stands_inside, stand_apart, lowest_gap};
ghost use Rattle.drawer_layout.specs.Way.{Way};

// A number of a list; past the end 0.
pub fn number_in(s: &[u32], i: usize) -> usize
    ensures { (result ≡ get_or s.now i 0) × (result < 2 ^ 32) }
{
    match s.get(i) {
        Some(x) => *x as usize,
        None => 0,
    }
}

// Whether m bytes from p on and l bytes from q on have one in common.
fn share_byte(p: usize, m: usize, q: usize, l: usize) -> bool
    requires { (p + m < 2 ^ 64) × (q + l < 2 ^ 64) }
    ensures { result ≡ share_byte p m q l }
{
    m != 0 && l != 0 && q < p + m && p < q + l
}

// The first of the first n files that has one of the m bytes from p on; n where none has.
fn first_in_way(offs: &[u32], lens: &[u32], n: usize, p: usize, m: usize) -> usize
    requires { p + m < 2 ^ 64 }
    ensures { Way offs.now lens.now n p m result }
{
    for i in 0..n {
        if share_byte(p, m, number_in(offs, i), number_in(lens, i)) {
            return i;
        }
    }
    n
}

// Whether a file is omitted or stands between the header and the end of a drawer.
fn stands_inside(room: usize, o: usize, l: usize) -> bool
    requires { o + l < 2 ^ 64 }
    ensures { result ≡ stands_inside 20 room o l }
{
    (o == 0 && l == 0) || (164 <= o && o + l <= room)
}

// Whether 20 files stand inside a drawer of so many bytes, and apart.
pub fn stand_apart(offs: &[u32], lens: &[u32], room: usize) -> bool
    ensures { result ≡ stand_apart 20 offs.now lens.now room 20 }
{
    for i in 0..20 {
        let o = number_in(offs, i);
        let l = number_in(lens, i);
        if !stands_inside(room, o, l) || first_in_way(offs, lens, i, o, l) < i {
            return false;
        }
    }
    true
}

// The lowest place in a drawer of so many bytes from which m bytes are in no file; 0 for none. A
// file in the way of one place is in the way of every place up to its end.
pub fn lowest_gap(offs: &[u32], lens: &[u32], room: usize, m: usize) -> usize
    ensures { result ≡ lowest_gap 20 offs.now lens.now room m }
{
    if room < m {
        return 0;
    }
    let last = room - m;
    let mut p = 164;
    while p <= last {
        let i = first_in_way(offs, lens, 20, p, m);
        if i == 20 {
            return p;
        }
        p = number_in(offs, i) + number_in(lens, i);
    }
    0
}
