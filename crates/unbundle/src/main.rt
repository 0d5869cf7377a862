// Writes the files of a bundle into a folder under their own names, and prints the names that it wrote.
// It replaces no file: where the folder has one of the 20 already, nothing is written.
#![tactic(auto)]

use bundle::{FileState, bundle_fault, file_part, file_state};
use folder::{Found, argument, path_of, read_named, write_opened};
use gate_lists::Which;
use parts::part;
use program_io::{Host, argument_count, complain, fail, open_read, path_text, print};
use std::fs;
use std::fs::OpenOptions;
use std::io::{Error, ErrorKind};

fn complain_refused(rt: &impl Host, name: &[u8], refusal: u32) {
    match refusal {
        1 => complain(
            rt,
            name,
            b"refused as bundle 1: under 164 or over 1,048,576 bytes; name a bundle",
        ),
        2 => complain(
            rt,
            name,
            b"refused as bundle 2: its count is not 20; name a bundle of 20 files",
        ),
        _ => complain(
            rt,
            name,
            b"refused as bundle 3: an offset, a length or the end breaks the layout; make the bundle again",
        ),
    }
}

// Whether a name is free; says so where it is not.
fn is_free(rt: &impl Host, name: &[u8]) -> bool {
    if let Err(error) = open_read(rt, name) {
        if error.kind() == ErrorKind::NotFound {
            return true;
        }
        fail(rt, name, &error);
    }
    complain(
        rt,
        name,
        b"in the way; name a new folder, or one that has no files of a set",
    );
    false
}

fn make_folder(rt: &impl Host, name: &[u8]) -> Result<(), Error> {
    fs::create_dir(rt, path_text(name)?)
}

// Opens a file for writing that must not be there yet.
fn create<H: Host>(rt: &H, name: &[u8]) -> Result<H::File, Error> {
    OpenOptions::new()
        .write(true)
        .create_new(true)
        .open(rt, path_text(name)?)
}

// Makes the folder where it is missing; whether all 20 names in it are free.
fn is_ready(rt: &impl Host, path: &mut [u8], folder: usize) -> bool {
    if let Err(error) = make_folder(rt, part(path, 0, folder)) {
        if error.kind() != ErrorKind::AlreadyExists {
            fail(rt, part(path, 0, folder), &error);
            complain(
                rt,
                part(path, 0, folder),
                b"not made; name a folder that is there, or a new one in a folder that is",
            );
            return false;
        }
    }
    for k in 0..20 {
        let end = path_of(rt, Which::Schedule, path, folder, k);
        if end == 0 {
            return false;
        }
        if !is_free(rt, part(path, 0, end)) {
            return false;
        }
    }
    true
}

fn write_file(rt: &impl Host, name: &[u8], bytes: &[u8]) -> bool {
    if write_opened(rt, create(rt, name), name, bytes) {
        print(rt, name);
        return print(rt, b"\n");
    }
    complain(
        rt,
        name,
        b"not written whole; make room, remove the files that were written, and try again",
    );
    false
}

fn write_files(rt: &impl Host, path: &mut [u8], folder: usize, bundle: &[u8]) {
    for k in 0..20 {
        let end = path_of(rt, Which::Schedule, path, folder, k);
        match file_state(bundle, 20, k) {
            FileState::Present => {
                if !write_file(rt, part(path, 0, end), file_part(bundle, 20, k)) {
                    return;
                }
            }
            FileState::Omitted => {}
            FileState::Refused { number: _ } => {}
        }
    }
}

fn write_bundle(rt: &impl Host, name: &[u8], path: &mut [u8], folder: usize, bundle: &[u8]) {
    let refusal = bundle_fault(bundle, 20);
    if refusal != 0 {
        complain_refused(rt, name, refusal);
        return;
    }
    if is_ready(rt, path, folder) {
        write_files(rt, path, folder, bundle);
    }
}

// Unbundles the file of the first argument into the folder of the second, with memory for the bundle.
fn unbundle(rt: &impl Host, bundle: &mut [u8]) {
    let mut name = [0u8; 4096];
    let mut path = [0u8; 4096];
    let length = argument(rt, 1, &mut name);
    if length == 0 {
        return;
    }
    let folder = argument(rt, 2, &mut path);
    if folder == 0 {
        return;
    }
    match read_named(rt, part(&name, 0, length), bundle) {
        Found::Bytes { n } => write_bundle(
            rt,
            part(&name, 0, length),
            &mut path,
            folder,
            part(bundle, 0, n),
        ),
        Found::Nothing => complain(rt, part(&name, 0, length), b"not there; name a bundle"),
        Found::Failed => complain(
            rt,
            part(&name, 0, length),
            b"not read; name a file that can be read",
        ),
    }
}

// The same with memory of its own.
fn unbundle_with_memory(rt: &impl Host) {
    let mut bundle = [0u8; 1048577];
    unbundle(rt, &mut bundle);
}

fn usage(rt: &impl Host) {
    complain(rt, b"usage", b"unbundle BUNDLE FOLDER");
    complain(
        rt,
        b"BUNDLE",
        b"the bundle to read, as bundle_folder writes it",
    );
    complain(
        rt,
        b"FOLDER",
        b"where its files go, each under its own name; it is made where it is missing, and no file in it is replaced",
    );
}

fn main(rt: HostRuntime) {
    if argument_count(&rt) != 3 {
        usage(&rt);
        return;
    }
    unbundle_with_memory(&rt);
}
