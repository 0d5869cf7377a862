// Takes the sets that the arguments name, in their order, into a quarter, each a folder with the files of a
// set or a bundle. Prints the totals as a table, or with --csv as comma-separated values; behind an empty line
// how many sets are left out; and for each of these a line that says why. With --progress it says on standard
// error which set it takes; options stand first, --csv before --progress. Where a set can't be read, or there
// are over 256, it says so on standard error and prints nothing.
#![tactic(auto)]

use board::faults_on;
use bundle_bytes::put_part;
use folder::{Found, argument, gather, read_named};
use gate::judge_in;
use gate_lists::Which;
use output::put_number;
use parts::part;
use program_io::{Host, argument_count, argument_in, complain, open_read, print, say};
use quarter::{Quarter, Taken, left_out, start, take_in};
use quarter_text::{put_comma_text, put_table};
use std::io::Print;

// What was asked for: whether comma-separated values, whether progress, and the number of the first argument
// that names a set.
#[derive(Clone, Copy)]
struct Asked {
    comma: bool,
    progress: bool,
    first: usize,
}

fn is_word(rt: &impl Host, i: usize, word: &[u8]) -> bool {
    let mut bytes = [0u8; 16];
    let n = argument_in(rt, i, &mut bytes);
    part(&bytes, 0, n) == word
}

fn what_is_asked(rt: &impl Host) -> Asked {
    let comma = is_word(rt, 1, b"--csv");
    if comma {
        if is_word(rt, 2, b"--progress") {
            return Asked {
                comma: true,
                progress: true,
                first: 3,
            };
        }
        return Asked {
            comma: true,
            progress: false,
            first: 2,
        };
    }
    if is_word(rt, 1, b"--progress") {
        return Asked {
            comma: false,
            progress: true,
            first: 2,
        };
    }
    Asked {
        comma: false,
        progress: false,
        first: 1,
    }
}

// ---- A set's bytes

// Whether the first n bytes of a path name a folder; its last two bytes are room for an ending.
fn is_folder(rt: &impl Host, path: &mut [u8], n: usize) -> bool {
    if path.len() < 2 {
        return false;
    }
    if path.len() - 2 < n {
        return false;
    }
    put_part(path, n, b"/.");
    open_read(rt, part(path, 0, n + 2)).is_ok()
}

// Reads the set that an argument names, a folder or a bundle, to the front of `bundle`, which has
// room for a byte more than a bundle can have.
fn read_set(
    rt: &impl Host,
    i: usize,
    path: &mut [u8],
    file: &mut [u8],
    bundle: &mut [u8],
    other: &mut [u8],
) -> Found {
    let n = argument(rt, i, path);
    if n == 0 {
        return Found::Failed;
    }
    if is_folder(rt, path, n) {
        let size = gather(rt, Which::Schedule, path, n, file, bundle, other);
        if size == 0 {
            return Found::Failed;
        }
        return Found::Bytes { n: size };
    }
    read_bundle(rt, part(path, 0, n), bundle)
}

fn read_bundle(rt: &impl Host, name: &[u8], bundle: &mut [u8]) -> Found {
    match read_named(rt, name, bundle) {
        Found::Bytes { n } => Found::Bytes { n },
        Found::Nothing => {
            complain(
                rt,
                name,
                b"there is neither a folder nor a bundle of that name",
            );
            Found::Failed
        }
        Found::Failed => Found::Failed,
    }
}

// ---- Why a set is left out: 1 to 3 its refusal, 4 an amount, and above that four more
// than the number of its marks that don't hold.

fn cause_of(bundle: &[u8], work: &mut [u32]) -> usize {
    let verdict = judge_in(bundle, work);
    let refusal = verdict.refusal as usize;
    if refusal != 0 {
        return refusal;
    }
    let board = verdict.board;
    let faults = faults_on(board);
    4 + faults % 100
}

// ---- Taking the sets

// Writes a number as it is printed.
fn write_number(to: &impl Print, x: usize) {
    let mut text = [0u8; 20];
    let n = put_number(&mut text, 0, x);
    let _ = to.write_all(part(&text, 0, n));
}

// A line on standard error, written over the one before; place is counted from 0.
fn say_progress(rt: &impl Host, place: usize, sets: usize) {
    if sets <= place {
        return;
    }
    say(rt, b"\rset ");
    write_number(&rt.errors(), place + 1);
    say(rt, b" of ");
    write_number(&rt.errors(), sets);
    say(rt, b"\x1b[K");
}

fn may_say_progress(rt: &impl Host, progress: bool, place: usize, sets: usize) {
    if progress {
        say_progress(rt, place, sets);
    }
}

fn end_progress(rt: &impl Host) {
    say(rt, b"\r\x1b[K");
}

// A state that ends the run.
fn stopped(q: Quarter) -> Taken {
    Taken {
        refusal: 1,
        quarter: q,
        grand: [0i64; 6],
    }
}

// Puts down why the set at a place is left out.
fn put_cause(causes: &mut [usize], place: usize, cause: usize) {
    if place < causes.len() {
        causes[place] = cause;
    }
}

fn take_set(
    q: Quarter,
    place: usize,
    bundle: &[u8],
    work: &mut [u32],
    causes: &mut [usize],
) -> Taken {
    let before = left_out(q);
    let taken = take_in(q, bundle, work);
    let after = taken.quarter;
    if left_out(after) == before {
        return taken;
    }
    put_cause(causes, place, cause_of(bundle, work));
    taken
}

fn take_named(
    rt: &impl Host,
    i: usize,
    q: Quarter,
    place: usize,
    file: &mut [u8],
    bundle: &mut [u8],
    other: &mut [u8],
    work: &mut [u32],
    causes: &mut [usize],
) -> Taken {
    let mut path = [0u8; 4096];
    match read_set(rt, i, &mut path, file, bundle, other) {
        Found::Bytes { n } => take_set(q, place, part(bundle, 0, n), work, causes),
        Found::Nothing => stopped(q),
        Found::Failed => stopped(q),
    }
}

// The number of the argument that names the set at a place. No run has so many.
fn argument_at(first: usize, place: usize) -> usize {
    if first < 1000 {
        if place < 1000 {
            return first + place;
        }
    }
    0
}

// Takes as many sets as there are from the first on.
fn take_all(
    rt: &impl Host,
    first: usize,
    sets: usize,
    progress: bool,
    file: &mut [u8],
    bundle: &mut [u8],
    other: &mut [u8],
    work: &mut [u32],
    causes: &mut [usize],
) -> Taken {
    let mut taken = Taken {
        refusal: 0,
        quarter: start(),
        grand: [0i64; 6],
    };
    let mut place = 0;
    while place < sets {
        let here = place;
        place += 1;
        may_say_progress(rt, progress, here, sets);
        let q = taken.quarter;
        taken = take_named(
            rt,
            argument_at(first, here),
            q,
            here,
            file,
            bundle,
            other,
            work,
            causes,
        );
        if taken.refusal != 0 {
            return taken;
        }
    }
    taken
}

// ---- What is printed

fn print_totals(rt: &impl Host, comma: bool, taken: Taken) -> bool {
    let mut text = [0u8; 4096];
    let q = taken.quarter;
    let totals = q.totals;
    let grand = taken.grand;
    if comma {
        let n = put_comma_text(&mut text, 0, &totals, &grand);
        return print(rt, part(&text, 0, n));
    }
    let n = put_table(&mut text, 0, &totals, &grand);
    print(rt, part(&text, 0, n))
}

fn print_count(rt: &impl Host, out: usize, sets: usize) {
    if out == 0 {
        print(rt, b"\nnone left out of ");
        write_number(&rt.output(), sets);
        print(rt, b"\n");
        return;
    }
    print(rt, b"\nleft out ");
    write_number(&rt.output(), out);
    print(rt, b" of ");
    write_number(&rt.output(), sets);
    print(rt, b"\n");
}

fn print_marks(rt: &impl Host, held: usize) -> bool {
    print(rt, b"not accepted: only ");
    write_number(&rt.output(), held);
    print(
        rt,
        b" of its 81 marks hold; judge says which do not, and why\n",
    )
}

fn print_cause(rt: &impl Host, cause: usize) -> bool {
    if cause == 1 {
        return print(
            rt,
            b"refused, 1: its bundle is under 164 or over 1,048,576 bytes long\n",
        );
    }
    if cause == 2 {
        return print(rt, b"refused, 2: its bundle does not count 20 files\n");
    }
    if cause == 3 {
        return print(
            rt,
            b"refused, 3: its files do not stand as the bundle's header says\n",
        );
    }
    if cause <= 4 {
        return print(
            rt,
            b"an amount of its assignments is no whole number of ten-thousandths, or is beyond 100,000,000 either way\n",
        );
    }
    if cause < 85 {
        return print_marks(rt, 85 - cause);
    }
    print_marks(rt, 0)
}

// Bytes that a terminal would obey, each as a question mark.
fn tame(text: &mut [u8]) {
    let mut i = 0;
    while i < text.len() {
        if text[i] < 32 {
            text[i] = b'?';
            i += 1;
        } else if text[i] == 127 {
            text[i] = b'?';
            i += 1;
        } else {
            i += 1;
        }
    }
}

// The name of the set that an argument names.
fn print_name(rt: &impl Host, i: usize) {
    let mut path = [0u8; 4096];
    let n = argument_in(rt, i, &mut path);
    tame(&mut path);
    print(rt, part(&path, 0, n));
}

// The line of the set at a place, where it is left out.
fn print_place(rt: &impl Host, first: usize, place: usize, causes: &[usize]) {
    if causes.len() <= place {
        return;
    }
    let cause = causes[place];
    if cause == 0 {
        return;
    }
    print(rt, b"  set ");
    write_number(&rt.output(), place + 1);
    print(rt, b", ");
    print_name(rt, argument_at(first, place));
    print(rt, b": ");
    print_cause(rt, cause);
}

fn print_left_out(rt: &impl Host, first: usize, causes: &[usize]) {
    let mut place = 0;
    while place < causes.len() {
        print_place(rt, first, place, causes);
        place += 1;
    }
}

fn print_all(
    rt: &impl Host,
    comma: bool,
    first: usize,
    sets: usize,
    taken: Taken,
    causes: &[usize],
) {
    print_totals(rt, comma, taken);
    let q = taken.quarter;
    print_count(rt, left_out(q), sets);
    print_left_out(rt, first, causes);
}

// The run with lent memory for a file, for two bundles, and a workspace.
fn run_with(
    rt: &impl Host,
    asked: Asked,
    sets: usize,
    file: &mut [u8],
    bundle: &mut [u8],
    other: &mut [u8],
    work: &mut [u32],
) {
    let mut causes = [0usize; 256];
    let first = asked.first;
    let progress = asked.progress;
    let taken = take_all(
        rt,
        first,
        sets,
        progress,
        file,
        bundle,
        other,
        work,
        &mut causes,
    );
    if progress {
        end_progress(rt);
    }
    if taken.refusal == 0 {
        print_all(rt, asked.comma, first, sets, taken, &causes);
    }
}

fn run(rt: &impl Host, asked: Asked, sets: usize) {
    let mut file = [0u8; 1048577];
    let mut bundle = [0u8; 1048577];
    let mut other = [0u8; 1048577];
    let mut work = [0u32; 794702];
    run_with(
        rt,
        asked,
        sets,
        &mut file,
        &mut bundle,
        &mut other,
        &mut work,
    );
}

fn main(rt: HostRuntime) {
    let count = argument_count(&rt);
    let asked = what_is_asked(&rt);
    let first = asked.first;
    if count <= first {
        complain(&rt, b"usage", b"quarter_sets [--csv] [--progress] SET...");
        complain(
            &rt,
            b"SET",
            b"a folder with the files of a set under their own names, or a bundle",
        );
        return;
    }
    let sets = count - first;
    if 256 < sets {
        complain(
            &rt,
            b"too many sets",
            b"a quarter takes at most 256; name fewer",
        );
        return;
    }
    run(&rt, asked, sets);
}
