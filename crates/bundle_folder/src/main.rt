// Writes the bundle of the set of files in a folder, and prints its length.
#![tactic(auto)]

use folder::{argument, gather, write_opened};
use gate_lists::Which;
use parts::part;
use program_io::{Host, argument_count, complain, open_overwrite, print, write_decimal};

fn write_bundle(rt: &impl Host, name: &[u8], bundle: &[u8]) {
    if write_opened(rt, open_overwrite(rt, name), name, bundle) {
        print(rt, name);
        print(rt, b": ");
        write_decimal(rt, bundle.len() as u64);
        print(rt, b" bytes\n");
    } else {
        complain(
            rt,
            name,
            b"not written whole; name a file that can be written",
        );
    }
}

// Bundles the folder of the first argument into the file of the second, with memory for a file and for
// two bundles.
fn bundle_folder(rt: &impl Host, file: &mut [u8], bundle: &mut [u8], other: &mut [u8]) {
    let mut path = [0u8; 4096];
    let mut name = [0u8; 4096];
    let folder = argument(rt, 1, &mut path);
    if folder == 0 {
        return;
    }
    let length = argument(rt, 2, &mut name);
    if length == 0 {
        return;
    }
    let n = gather(rt, Which::Schedule, &mut path, folder, file, bundle, other);
    if n == 0 {
        return;
    }
    write_bundle(rt, part(&name, 0, length), part(bundle, 0, n));
}

// The same with memory of its own.
fn bundle_with_memory(rt: &impl Host) {
    let mut file = [0u8; 1048577];
    let mut bundle = [0u8; 1048577];
    let mut other = [0u8; 1048577];
    bundle_folder(rt, &mut file, &mut bundle, &mut other);
}

fn usage(rt: &impl Host) {
    complain(rt, b"usage", b"bundle_folder FOLDER BUNDLE");
    complain(
        rt,
        b"FOLDER",
        b"holds the files of the set under their own names, FileType.txt and so on; one that is missing is omitted",
    );
    complain(
        rt,
        b"BUNDLE",
        b"the file to write; one that is there is replaced",
    );
}

fn main(rt: HostRuntime) {
    if argument_count(&rt) != 3 {
        usage(&rt);
        return;
    }
    bundle_with_memory(&rt);
}
