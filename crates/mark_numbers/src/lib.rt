// A mark as three numbers, and marks as three lists. They stand here alone, so that what keeps or prints
// marks need know no rule, and so that nobody else goes through the three lists one by one.
#![tactic(auto, unfolding(crate::specs::Marks::mark_in, crate::specs::Marks::with_mark, crate::specs::Marks::have_length, crate::specs::Marks::fresh_over, crate::specs::Marks::faults_in))]

ghost use Rattle.std.specs.Prelude.{◌≡◌, true, length, get_or, set};
ghost use Rattle.mark_numbers.specs.Marks.{marks_in, mark_in, with_mark, have_length, fresh_marks, fresh_over, faults_in};

// Kind 0, place 0, companion 0: it holds. Any other kind says what is wrong, the place where, and the
// companion which record goes with it, 0 for none.
// Numbers and no enum: the kinds are those of document 01's tables, and the C interface has them as numbers.
#[derive(Clone, Copy)]
pub struct Mark {
    pub kind: u32,
    pub place: usize,
    pub companion: usize,
}

pub fn kind_at(kinds: &[u32], k: usize) -> u32
    ensures { result ≡ get_or kinds.now k 0 }
{
    kinds.get(k).copied().unwrap_or(0)
}

pub fn number_at(numbers: &[usize], k: usize) -> usize
    ensures { result ≡ get_or numbers.now k 0 }
{
    numbers.get(k).copied().unwrap_or(0)
}

// Mark m; what stands past the end of a list is 0.
pub fn mark_in(kinds: &[u32], places: &[usize], companions: &[usize], m: usize) -> Mark
    ensures { result ≡ mark_in (marks_in kinds.now places.now companions.now) m }
{
    Mark {
        kind: kind_at(kinds, m),
        place: number_at(places, m),
        companion: number_at(companions, m),
    }
}

fn put_kind(kinds: &mut [u32], k: usize, kind: u32)
    ensures { kinds.new ≡ set kinds.old k kind }
{
    if k < kinds.len() {
        kinds[k] = kind;
    }
}

pub fn put_number(numbers: &mut [usize], k: usize, number: usize)
    ensures { numbers.new ≡ set numbers.old k number }
{
    if k < numbers.len() {
        numbers[k] = number;
    }
}

// Puts mark m; past the end of a list nothing is put.
pub fn put_mark(
    m: usize,
    mark: Mark,
    kinds: &mut [u32],
    places: &mut [usize],
    companions: &mut [usize],
)
    ensures { marks_in kinds.new places.new companions.new ≡ with_mark (marks_in kinds.old places.old companions.old) m mark }
{
    put_kind(kinds, m, mark.kind);
    put_number(places, m, mark.place);
    put_number(companions, m, mark.companion);
}

// Whether each of the lists is of n marks.
pub fn have_length(n: usize, kinds: &[u32], places: &[usize], companions: &[usize]) -> bool
    ensures { result ≡ have_length n (marks_in kinds.now places.now companions.now) }
{
    kinds.len() == n && places.len() == n && companions.len() == n
}

// Puts 'not judged' for every mark of lists that are of one length.
fn fill_fresh(kinds: &mut [u32], places: &mut [usize], companions: &mut [usize])
    requires { have_length (length kinds.old) (marks_in kinds.old places.old companions.old) ≡ true }
    ensures { marks_in kinds.new places.new companions.new ≡ fresh_marks (length kinds.old) }
{
    kinds.fill(2);
    places.fill(0);
    companions.fill(0);
}

// Makes every mark 'not judged'; lists of different lengths stay as they are.
pub fn make_fresh(kinds: &mut [u32], places: &mut [usize], companions: &mut [usize])
    ensures { marks_in kinds.new places.new companions.new ≡ fresh_over (marks_in kinds.old places.old companions.old) }
{
    let n = kinds.len();
    if have_length(n, kinds, places, companions) {
        fill_fresh(kinds, places, companions);
    }
}

// How many marks of these kinds don't hold.
pub fn count_faults(kinds: &[u32]) -> usize
    ensures { result ≡ faults_in kinds.now }
{
    let mut found = 0;
    for kind in kinds {
        if *kind != 0 {
            found += 1;
        }
    }
    found
}
