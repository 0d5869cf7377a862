// Judges the set of files in a folder, by document 01's gate, with --baseline by the baseline profile or
// with --contract by the contract side's gate, and prints its marks as the program `reasons` does, but for
// marks that aren't judged: these are told file by file.
#![tactic(auto)]

use folder::{argument, gather};
use gate_lists::Which;
use gate_option::{Asked, asked_by};
use parts::part;
use program_io::{Host, argument_count, argument_in, complain, print};
use reason_text::reasons;

fn what_is_asked(rt: &impl Host) -> Asked {
    let mut first = [0u8; 16];
    let n = argument_in(rt, 1, &mut first);
    asked_by(argument_count(rt), part(&first, 0, n))
}

fn print_reasons(rt: &impl Host, which: Which, bundle: &[u8], work: &mut [u32], text: &mut [u8]) {
    let n = reasons(which, bundle, true, work, text);
    print(rt, part(text, 0, n));
}

// Judges the folder that an argument names, with memory for a file and for two bundles, a workspace, and
// memory for the text.
fn judge_folder(
    rt: &impl Host,
    which: Which,
    named: usize,
    file: &mut [u8],
    bundle: &mut [u8],
    other: &mut [u8],
    work: &mut [u32],
    text: &mut [u8],
) {
    let mut path = [0u8; 4096];
    let folder = argument(rt, named, &mut path);
    if folder == 0 {
        return;
    }
    let n = gather(rt, which, &mut path, folder, file, bundle, other);
    if n == 0 {
        return;
    }
    print_reasons(rt, which, part(bundle, 0, n), work, text);
}

// The same with memory of its own.
fn judge_with_memory(rt: &impl Host, which: Which, named: usize) {
    let mut file = [0u8; 1048577];
    let mut bundle = [0u8; 1048577];
    let mut other = [0u8; 1048577];
    let mut work = [0u32; 794702];
    let mut text = [0u8; 65536];
    judge_folder(
        rt,
        which,
        named,
        &mut file,
        &mut bundle,
        &mut other,
        &mut work,
        &mut text,
    );
}

fn usage(rt: &impl Host) {
    complain(
        rt,
        b"usage",
        b"reasons_folder [--baseline | --contract] FOLDER",
    );
    complain(
        rt,
        b"FOLDER",
        b"holds the files of the set under their own names, FileType.txt and so on; one that is missing is omitted",
    );
}

fn main(rt: HostRuntime) {
    match what_is_asked(&rt) {
        Asked::Of { which, named } => judge_with_memory(&rt, which, named),
        Asked::Unclear => usage(&rt),
    }
}
