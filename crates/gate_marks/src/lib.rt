// The marks of a set from its files, for any gate and wherever the files stand. Tables that are lent
// describe the gate; the files are parts of three lent slices. Each file that a judged mark reads is
// read once, into a place of its own in a lent list of cells, and each rule is judged over the cells of
// the files that its row names.
#![tactic(auto, unfolding(crate::specs::Again::asked, crate::specs::Again::is_cleared, crate::specs::Again::touched, crate::specs::Code::room_in, crate::specs::Gate::mark_reads, crate::specs::Marks::mark_read, rule_shape::specs::Rule::reads))]

ghost use Rattle.std.specs.Prelude.{◌≡◌, true, cond, ◌&&◌, [], ◌+◌, ◌-◌, ◌*◌, ◌/◌, ◌≤◌, ◌<◌, length, set, take, drop, ltb, leb};
ghost use Rattle.parts.specs.Files.{new_file};
ghost use Rattle.standing.specs.Standing.{standing};
ghost use Rattle.bundle_bytes.specs.Pieces.{written};
ghost use Rattle.mark_numbers.specs.Marks.{marks_in, marks_from, with_mark, have_length};
ghost use Rattle.table_file.specs.File.{file_of};
ghost use Rattle.rule_shape.specs.Rule.{rule_from};
ghost use Rattle.found_marks.specs.Found.{count_in, table_in, found_mark};
ghost use Rattle.gate_marks.specs.Gate.{gate_from, expected_in, mark_reads};
ghost use Rattle.gate_marks.specs.Work.{zeros, room_start, cells_in, work_read};
ghost use Rattle.gate_marks.specs.Marks.{mark_read};
ghost use Rattle.gate_marks.specs.Again.{asked, touched, needed, new_marks, is_cleared, work_judged, can_judge, marks_after, work_afterwards};
ghost use Rattle.gate_marks.specs.Code.{room_in, rooms_in, Starts, start_cells, ReadTo, put_mark};

use found_marks::{cells_of, count_of, mark_at};
use mark_numbers::{Mark, have_length, put_mark, put_number};
use rule_shape::{first_file, rule_count, second_file};
use standing::{is_there, part_standing};
use table_file::{FileRead, read_file};
use table_rows::{cell_at, field_count, first_field, rows_after};

// What is judged: every mark, after a change those that read the changed file, or one mark alone with
// those of the files that it reads.
#[derive(Clone, Copy)]
pub enum Scope {
    Full,
    Change { file: usize },
    Mark { mark: usize },
}

// How many cells file k has: those of one record for a singleton, of 4,096 for any other table.
pub fn room_of(forms: &[u32], fields: &[u32], k: usize) -> usize
    ensures { result ≡ room_in forms.now fields.now k }
{
    let count = count_of(forms, fields, k);
    if 64 < count {
        0
    } else if cell_at(forms, 2, k, 0) == 1 {
        2 * count
    } else {
        8192 * count
    }
}

// Puts down where the cells of each of n files start, and behind them where the last ones end; answers
// whether that is within a limit.
fn fill_starts(forms: &[u32], fields: &[u32], n: usize, limit: usize, starts: &mut [usize]) -> bool
    requires { n < length starts.old }
    ensures value { result ≡ leb (rooms_in forms.now fields.now n) limit }
    ensures starts { result ≡ true → Starts (rooms_in forms.now fields.now) n starts.new }
{
    let mut start = 0;
    starts[0] = 0;
    for file in 0..n {
        let room = room_of(forms, fields, file);
        if limit < room || limit - room < start {
            return false;
        }
        start += room;
        starts[file + 1] = start;
    }
    true
}

// The cells of file k in a list of those of a whole set, whatever its names and its fixed text; none of
// a file past the 32nd.
pub fn cells_in<'a>(forms: &[u32], fields: &[u32], work: &'a [u32], k: usize) -> &'a [u32]
    ensures { result.now ≡ cond (ltb k 32) (cells_in (expected_in forms.now fields.now [] []) work.now k) [] }
{
    if 32 <= k {
        return &work[..0];
    }
    let mut starts = [0usize; 33];
    let limit = work.len();
    if fill_starts(forms, fields, k + 1, limit, &mut starts) {
        return cells_of(work, &starts, k);
    }
    &work[..0]
}

// Makes every cell 0.
pub fn clear(cells: &mut [u32])
    ensures { cells.new ≡ zeros (length cells.old) }
{
    cells.fill(0);
}

// Reads file k into cells that are its own, over what they hold.
fn read_over(
    forms: &[u32],
    fields: &[u32],
    names: &[u8],
    fixed: &[u8],
    k: usize,
    present: bool,
    s: &[u8],
    cells: &mut [u32],
) -> FileRead
    ensures value { result ≡ (file_of (expected_in forms.now fields.now names.now fixed.now k) (new_file present s.now) cells.old).read }
    ensures cells_after { cells.new ≡ (file_of (expected_in forms.now fields.now names.now fixed.now k) (new_file present s.now) cells.old).cells }
{
    let form = cell_at(forms, 2, k, 0);
    let required = cell_at(forms, 2, k, 1) == 1;
    let own = rows_after(fields, first_field(fields, k));
    let count = field_count(fields, k);
    read_file(form, required, present, s, fixed, own, names, count, cells)
}

// The same, whatever the cells held: they are made 0 before.
pub fn read_own(
    forms: &[u32],
    fields: &[u32],
    names: &[u8],
    fixed: &[u8],
    k: usize,
    present: bool,
    s: &[u8],
    cells: &mut [u32],
) -> FileRead
    ensures value { result ≡ (file_of (expected_in forms.now fields.now names.now fixed.now k) (new_file present s.now) (zeros (length cells.old))).read }
    ensures cells_after { cells.new ≡ (file_of (expected_in forms.now fields.now names.now fixed.now k) (new_file present s.now) (zeros (length cells.old))).cells }
{
    clear(cells);
    read_over(forms, fields, names, fixed, k, present, s, cells)
}

// One or the other.
fn read_in(
    forms: &[u32],
    fields: &[u32],
    names: &[u8],
    fixed: &[u8],
    k: usize,
    present: bool,
    s: &[u8],
    cleared: bool,
    cells: &mut [u32],
) -> FileRead
    ensures value { result ≡ (file_of (expected_in forms.now fields.now names.now fixed.now k) (new_file present s.now) (start_cells cleared cells.old)).read }
    ensures cells_after { cells.new ≡ (file_of (expected_in forms.now fields.now names.now fixed.now k) (new_file present s.now) (start_cells cleared cells.old)).cells }
{
    if cleared {
        return read_own(forms, fields, names, fixed, k, present, s, cells);
    }
    read_over(forms, fields, names, fixed, k, present, s, cells)
}

// The mark of a file that was read.
fn mark_read(read: FileRead) -> Mark
    ensures { result ≡ mark_read read }
{
    Mark {
        kind: read.kind,
        place: read.place,
        companion: read.companion,
    }
}

// Reads file k where it stands, its cells into its place of `work`, its mark and the number of its
// records into lists.
fn read_one<'a>(
    a: &'a [u8],
    b: &'a [u8],
    c: &'a [u8],
    stand: &[usize],
    forms: &[u32],
    fields: &[u32],
    names: &[u8],
    fixed: &[u8],
    k: usize,
    from: usize,
    to: usize,
    cleared: bool,
    work: &mut [u32],
    kinds: &mut [u32],
    places: &mut [usize],
    companions: &mut [usize],
    records: &mut [usize],
)
    requires { (from ≤ to) × (to ≤ length work.old) }
    ensures work_after { work.new ≡ written work.old from (file_of (expected_in forms.now fields.now names.now fixed.now k) (standing a.now b.now c.now stand.now k) (start_cells cleared (take (to - from) (drop from work.old)))).cells }
    ensures board_after { marks_in kinds.new places.new companions.new ≡ with_mark (marks_in kinds.old places.old companions.old) k (mark_read (file_of (expected_in forms.now fields.now names.now fixed.now k) (standing a.now b.now c.now stand.now k) (start_cells cleared (take (to - from) (drop from work.old)))).read) }
    ensures records_after { records.new ≡ set records.old k (file_of (expected_in forms.now fields.now names.now fixed.now k) (standing a.now b.now c.now stand.now k) (start_cells cleared (take (to - from) (drop from work.old)))).read.records }
{
    let there = is_there(stand, k);
    let s = part_standing(a, b, c, stand, k);
    let read = read_in(
        forms,
        fields,
        names,
        fixed,
        k,
        there,
        s,
        cleared,
        &mut work[from..to],
    );
    put_mark(k, mark_read(read), kinds, places, companions);
    put_number(records, k, read.records);
}

// Whether mark m reads file k, of n files' marks and those of the rules.
fn reads_file(n: usize, rules: &[u32], m: usize, k: usize) -> bool
    ensures { result ≡ mark_reads n (rule_from rules.now) m k }
{
    if m < n {
        m == k
    } else {
        first_file(rules, m - n) == k || second_file(rules, m - n) == k
    }
}

// Whether m is a mark that is asked for, or that of a file which this one reads.
fn is_asked(n: usize, rules: &[u32], mark: usize, m: usize) -> bool
    ensures { result ≡ asked n (rule_from rules.now) mark m }
{
    m == mark || m < n && reads_file(n, rules, mark, m)
}

// Whether mark m is judged.
fn is_touched(n: usize, rules: &[u32], scope: Scope, m: usize) -> bool
    ensures { result ≡ touched n (rule_from rules.now) scope m }
{
    match scope {
        Scope::Full => true,
        Scope::Change { file } => reads_file(n, rules, m, file),
        Scope::Mark { mark } => is_asked(n, rules, mark, m),
    }
}

// Whether mark m is judged and reads a file.
fn is_wanted(n: usize, rules: &[u32], scope: Scope, m: usize, file: usize) -> bool
    ensures { result ≡ touched n (rule_from rules.now) scope m && mark_reads n (rule_from rules.now) m file }
{
    is_touched(n, rules, scope, m) && reads_file(n, rules, m, file)
}

// Whether some mark is judged that reads a file.
fn is_needed(n: usize, rules: &[u32], scope: Scope, file: usize) -> bool
    requires { n ≤ 32 }
    ensures { result ≡ needed n (length rules.now / 9) (rule_from rules.now) scope file }
{
    let marks = n + rule_count(rules);
    for m in 0..marks {
        if is_wanted(n, rules, scope, m, file) {
            return true;
        }
    }
    false
}

// The same for any number of files: of a gate of more than 32 none is read.
pub fn is_read(n: usize, rules: &[u32], scope: Scope, file: usize) -> bool
    ensures { result ≡ leb n 32 && needed n (length rules.now / 9) (rule_from rules.now) scope file }
{
    n <= 32 && is_needed(n, rules, scope, file)
}

// Whether the cells of a file are made 0 before it is read.
fn is_cleared(scope: Scope) -> bool
    ensures { result ≡ is_cleared scope }
{
    match scope {
        Scope::Full | Scope::Change { file: _ } => false,
        Scope::Mark { mark: _ } => true,
    }
}

// Reads each file that is needed, once.
fn read_needed<'a>(
    a: &'a [u8],
    b: &'a [u8],
    c: &'a [u8],
    stand: &[usize],
    forms: &[u32],
    fields: &[u32],
    names: &[u8],
    fixed: &[u8],
    rules: &[u32],
    scope: Scope,
    starts: &[usize],
    work: &mut [u32],
    kinds: &mut [u32],
    places: &mut [usize],
    companions: &mut [usize],
    records: &mut [usize],
)
    requires enough_room { (length forms.now / 2 ≤ 32) × (room_start (expected_in forms.now fields.now names.now fixed.now) (length forms.now / 2) ≤ length work.old) × (length starts.now ≡ 33) × (have_length 32 (marks_in kinds.old places.old companions.old) ≡ true) × (length records.old ≡ 32) }
    requires starts { Starts (room_start (expected_in forms.now fields.now names.now fixed.now)) (length forms.now / 2) starts.now }
    ensures read_to { ReadTo (length forms.now / 2) (expected_in forms.now fields.now names.now fixed.now) (needed (length forms.now / 2) (length rules.now / 9) (rule_from rules.now) scope) (standing a.now b.now c.now stand.now) work.new (marks_in kinds.new places.new companions.new) records.new }
    ensures work_after { work.new ≡ work_read (is_cleared scope) (expected_in forms.now fields.now names.now fixed.now) (needed (length forms.now / 2) (length rules.now / 9) (rule_from rules.now) scope) (standing a.now b.now c.now stand.now) (length forms.now / 2) work.old }
{
    let n = forms.len() / 2;
    let cleared = is_cleared(scope);
    for k in 0..n {
        if is_needed(n, rules, scope, k) {
            let from = starts[k];
            let to = starts[k + 1];
            read_one(
                a, b, c, stand, forms, fields, names, fixed, k, from, to, cleared, work, kinds,
                places, companions, records,
            );
        }
    }
}

// Puts the judged marks over those of the lists.
fn put_marks<'a>(
    a: &'a [u8],
    b: &'a [u8],
    c: &'a [u8],
    stand: &[usize],
    forms: &[u32],
    fields: &[u32],
    rules: &[u32],
    values: &[u32],
    texts: &[u8],
    scope: Scope,
    starts: &[usize],
    work: &[u32],
    own_kinds: &[u32],
    own_places: &[usize],
    own_companions: &[usize],
    records: &[usize],
    kinds: &mut [u32],
    places: &mut [usize],
    companions: &mut [usize],
)
    requires { have_length (length forms.now / 2 + length rules.now / 9) (marks_in kinds.old places.old companions.old) ≡ true }
    ensures { marks_in kinds.new places.new companions.new ≡ marks_from (length forms.now / 2 + length rules.now / 9) (put_mark (length forms.now / 2) (rule_from rules.now) scope (found_mark (length forms.now / 2) (rule_from rules.now) values.now texts.now (table_in (standing a.now b.now c.now stand.now) (count_in forms.now fields.now) starts.now work.now records.now) (marks_in own_kinds.now own_places.now own_companions.now)) (marks_in kinds.old places.old companions.old)) }
{
    let n = forms.len() / 2;
    let marks = n + rule_count(rules);
    for m in 0..marks {
        if is_touched(n, rules, scope, m) {
            let mark = mark_at(
                a,
                b,
                c,
                stand,
                forms,
                fields,
                rules,
                values,
                texts,
                n,
                m,
                starts,
                work,
                own_kinds,
                own_places,
                own_companions,
                records,
            );
            put_mark(m, mark, kinds, places, companions);
        }
    }
}

// Whether the lists are of just as many marks as n files and the rules have.
fn has_lists(n: usize, rules: &[u32], kinds: &[u32], places: &[usize], companions: &[usize]) -> bool
    requires { n ≤ 32 }
    ensures { result ≡ have_length (n + length rules.now / 9) (marks_in kinds.now places.now companions.now) }
{
    have_length(n + rule_count(rules), kinds, places, companions)
}

// Reads the files that are needed into their places of `work` and puts the judged marks over those of
// the lists.
fn judge_marks<'a>(
    a: &'a [u8],
    b: &'a [u8],
    c: &'a [u8],
    stand: &[usize],
    forms: &[u32],
    fields: &[u32],
    names: &[u8],
    fixed: &[u8],
    rules: &[u32],
    values: &[u32],
    texts: &[u8],
    scope: Scope,
    starts: &[usize],
    work: &mut [u32],
    kinds: &mut [u32],
    places: &mut [usize],
    companions: &mut [usize],
)
    requires enough_room { (length forms.now / 2 ≤ 32) × (room_start (expected_in forms.now fields.now names.now fixed.now) (length forms.now / 2) ≤ length work.old) × (length starts.now ≡ 33) × (have_length (length forms.now / 2 + length rules.now / 9) (marks_in kinds.old places.old companions.old) ≡ true) }
    requires starts { Starts (room_start (expected_in forms.now fields.now names.now fixed.now)) (length forms.now / 2) starts.now }
    ensures board_after { marks_in kinds.new places.new companions.new ≡ new_marks (gate_from forms.now fields.now names.now fixed.now rules.now values.now texts.now) scope (standing a.now b.now c.now stand.now) (marks_in kinds.old places.old companions.old) }
    ensures work_after { work.new ≡ work_judged (gate_from forms.now fields.now names.now fixed.now rules.now values.now texts.now) scope (standing a.now b.now c.now stand.now) work.old }
{
    let mut own_kinds = [0u32; 32];
    let mut own_places = [0usize; 32];
    let mut own_companions = [0usize; 32];
    let mut records = [0usize; 32];
    read_needed(
        a,
        b,
        c,
        stand,
        forms,
        fields,
        names,
        fixed,
        rules,
        scope,
        starts,
        work,
        &mut own_kinds,
        &mut own_places,
        &mut own_companions,
        &mut records,
    );
    put_marks(
        a,
        b,
        c,
        stand,
        forms,
        fields,
        rules,
        values,
        texts,
        scope,
        starts,
        work,
        &own_kinds,
        &own_places,
        &own_companions,
        &records,
        kinds,
        places,
        companions,
    );
}

// Judges the marks in scope from the files that stand in three slices, for the gate that the tables
// describe: puts them over those of the lists. Answers whether it could: a workspace that is too
// short, lists of another length than there are marks, or over 32 files leave everything as it is.
pub fn judge_files<'a>(
    a: &'a [u8],
    b: &'a [u8],
    c: &'a [u8],
    stand: &[usize],
    forms: &[u32],
    fields: &[u32],
    names: &[u8],
    fixed: &[u8],
    rules: &[u32],
    values: &[u32],
    texts: &[u8],
    scope: Scope,
    work: &mut [u32],
    kinds: &mut [u32],
    places: &mut [usize],
    companions: &mut [usize],
) -> bool
    ensures value { result ≡ can_judge (gate_from forms.now fields.now names.now fixed.now rules.now values.now texts.now) (length work.old) (marks_in kinds.old places.old companions.old) }
    ensures board_after { marks_in kinds.new places.new companions.new ≡ marks_after (gate_from forms.now fields.now names.now fixed.now rules.now values.now texts.now) scope (standing a.now b.now c.now stand.now) (length work.old) (marks_in kinds.old places.old companions.old) }
    ensures work_after { work.new ≡ work_afterwards (gate_from forms.now fields.now names.now fixed.now rules.now values.now texts.now) scope (standing a.now b.now c.now stand.now) (marks_in kinds.old places.old companions.old) work.old }
{
    let n = forms.len() / 2;
    if 32 < n {
        return false;
    }
    if !has_lists(n, rules, kinds, places, companions) {
        return false;
    }
    let mut starts = [0usize; 33];
    let limit = work.len();
    if fill_starts(forms, fields, n, limit, &mut starts) {
        judge_marks(
            a, b, c, stand, forms, fields, names, fixed, rules, values, texts, scope, &starts,
            work, kinds, places, companions,
        );
        return true;
    }
    false
}
