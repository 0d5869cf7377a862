// Shows a loop among the links of the set of files in a folder, as the program `loops` does.
#![tactic(auto)]

use folder::{argument, gather};
use gate_lists::Which;
use loop_text::tell_loop;
use parts::part;
use program_io::{Host, argument_count, argument_in, complain, print};

fn print_told(
    rt: &impl Host,
    explained: bool,
    bundle: &[u8],
    work: &mut [u32],
    list: &mut [u32],
    text: &mut [u8],
) {
    let n = tell_loop(bundle, explained, work, list, text);
    print(rt, part(text, 0, n));
}

// Looks through the folder that an argument names, with memory for a file and for two bundles, a workspace,
// a list, and memory for the text.
fn show_folder(
    rt: &impl Host,
    explained: bool,
    named: usize,
    file: &mut [u8],
    bundle: &mut [u8],
    other: &mut [u8],
    work: &mut [u32],
    list: &mut [u32],
    text: &mut [u8],
) {
    let mut path = [0u8; 4096];
    let folder = argument(rt, named, &mut path);
    if folder == 0 {
        return;
    }
    let n = gather(rt, Which::Schedule, &mut path, folder, file, bundle, other);
    if n == 0 {
        return;
    }
    print_told(rt, explained, part(bundle, 0, n), work, list, text);
}

// The same with memory of its own. The text has at most 4,096 lines of at most 303 bytes, and the numbers.
fn show_with_memory(rt: &impl Host, explained: bool, named: usize) {
    let mut file = [0u8; 1048577];
    let mut bundle = [0u8; 1048577];
    let mut other = [0u8; 1048577];
    let mut work = [0u32; 40960];
    let mut list = [0u32; 4096];
    let mut text = [0u8; 1280000];
    show_folder(
        rt,
        explained,
        named,
        &mut file,
        &mut bundle,
        &mut other,
        &mut work,
        &mut list,
        &mut text,
    );
}

// Whether the first argument asks for an explanation.
fn is_explain(rt: &impl Host) -> bool {
    let mut word = [0u8; 16];
    let n = argument_in(rt, 1, &mut word);
    part(&word, 0, n) == b"--explain".as_slice()
}

fn usage(rt: &impl Host) {
    complain(rt, b"usage", b"loops_folder [--explain] FOLDER");
    complain(
        rt,
        b"FOLDER",
        b"holds the files of the set under their own names, FileType.txt and so on; one that is missing is omitted",
    );
}

fn main(rt: HostRuntime) {
    let count = argument_count(&rt);
    if count == 2 {
        show_with_memory(&rt, false, 1);
        return;
    }
    if count == 3 {
        if is_explain(&rt) {
            show_with_memory(&rt, true, 2);
            return;
        }
    }
    usage(&rt);
}
