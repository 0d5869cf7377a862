// What the programs over a folder share: the files of a gate's set by their names, read into a bundle,
// and a file written. No contract can say what comes from outside or goes there. What is promised is how many bytes
// there can be, and that a bundle which is made is one that is not refused. Where something is wrong, they
// say on standard error what it is and what to do.
#![tactic(auto)]

ghost use Rattle.std.specs.Prelude.{◌≡◌, ◌≤◌, length};
ghost use Rattle.gate_lists.specs.Which.{gate_called};
ghost use Rattle.folder.specs.Answers.{FoundWithin, Bundled};
ghost use Rattle.folder.specs.Path.{path_put, folder_path_length};

use bundle::make_bundle;
use bundle_bytes::put_part;
use gate_lists::{Which, file_count};
use gate_names::put_file_of;
use output::put_byte;
use parts::part;
use program_io::{Host, Input, argument_in, complain, fail, open_read, read_all};
use std::fs::OpenFile;
use std::io::{Error, ErrorKind, Write};

// What stands under a name: n bytes, nothing, or what cannot be read.
#[derive(Clone, Copy)]
pub enum Found {
    Bytes { n: usize },
    Nothing,
    Failed,
}

// Puts an argument of the program at the front of a path, and answers its length; 0, which it says,
// where there is none that can be a path.
pub fn argument(rt: &impl Host, i: usize, path: &mut [u8]) -> usize
    ensures { result ≤ length path.new }
{
    let n = argument_in(rt, i, path);
    if n == 0 {
        complain(
            rt,
            b"argument",
            b"empty or too long; name a file or a folder by at most 4,095 bytes",
        );
    }
    n
}

// Reads a file of that name to its end, or until the buffer is full; says so where it cannot be read.
pub fn read_named(rt: &impl Host, name: &[u8], buf: &mut [u8]) -> Found
    ensures { FoundWithin result (length buf.new) }
{
    match open_read(rt, name) {
        Ok(mut file) => match read_all(&mut file, buf) {
            Input::Whole { n } => Found::Bytes { n },
            Input::Failed { error } => {
                fail(rt, name, &error);
                Found::Failed
            }
        },
        Err(error) => {
            if error.kind() == ErrorKind::NotFound {
                return Found::Nothing;
            }
            fail(rt, name, &error);
            Found::Failed
        }
    }
}

// Brings a file's bytes to the device that keeps them. A pipe or a device keeps none, and says so as an input
// that is not valid.
fn sync<F: OpenFile>(file: &F) -> Result<(), Error> {
    match file.sync_all() {
        Err(error) if error.kind() == ErrorKind::InvalidInput => Ok(()),
        done => done,
    }
}

fn write_whole<F: Write + OpenFile>(file: &mut F, bytes: &[u8]) -> Result<(), Error> {
    file.write_all(bytes)?;
    sync(file)
}

// Writes the whole of a file that was opened under that name, and closes it; says so where that fails,
// also of a file that could not be opened. Closing it tells no error, so its bytes are brought to their device
// before, which tells it.
pub fn write_opened<H: Host>(
    rt: &H,
    opened: Result<H::File, Error>,
    name: &[u8],
    bytes: &[u8],
) -> bool {
    match opened {
        Ok(mut file) => match write_whole(&mut file, bytes) {
            Ok(()) => true,
            Err(error) => {
                fail(rt, name, &error);
                false
            }
        },
        Err(error) => {
            fail(rt, name, &error);
            false
        }
    }
}

fn complain_long(rt: &impl Host, path: &[u8], folder: usize) {
    complain(
        rt,
        part(path, 0, folder),
        b"too long a name for a folder; move it nearer to the root",
    );
}

// The length of the path of the gate's file k in the folder that the first `folder` bytes of `path` name,
// which it puts there; 0, which it says, where it has no room.
pub fn path_of(rt: &impl Host, which: Which, path: &mut [u8], folder: usize, k: usize) -> usize
    ensures value { result ≡ folder_path_length which path.old folder k }
    ensures path_after { path.new ≡ (path_put which path.old folder k).bytes }
{
    let name = put_byte(path, folder, b'/');
    let end = put_file_of(which, path, name, k);
    if end < path.len() {
        return end;
    }
    complain_long(rt, path, folder);
    0
}

// Whether they name a folder that can be read; says so where they do not.
fn is_folder(rt: &impl Host, path: &mut [u8], folder: usize) -> bool {
    if path.len() < 2 {
        return false;
    }
    if path.len() - 2 < folder {
        complain_long(rt, path, folder);
        return false;
    }
    put_part(path, folder, b"/.");
    match open_read(rt, part(path, 0, folder + 2)) {
        Ok(_) => true,
        Err(error) => {
            fail(rt, part(path, 0, folder), &error);
            complain(
                rt,
                part(path, 0, folder),
                b"no folder that can be read; name the folder in which the files of the set stand",
            );
            false
        }
    }
}

// Changes file k of a bundle, and answers the new bundle's length; 0, which it says, where it is refused.
fn change<'a>(
    rt: &impl Host,
    which: Which,
    folder: &[u8],
    bundle: &'a [u8],
    k: usize,
    present: bool,
    new: &'a [u8],
    out: &mut [u8],
) -> usize
    ensures { Bundled (gate_called which).files result out.new }
{
    let made = make_bundle(bundle, file_count(which), k, present, new, out);
    if made.refusal != 0 {
        complain(
            rt,
            folder,
            b"its files come to more than 1,048,576 bytes with the header; shorten them",
        );
        return 0;
    }
    made.length
}

// Puts file k of the folder into the bundle of the first n bytes of one buffer, with the new bundle at
// the front of the other; its length, or 0 where that fails.
fn put_file(
    rt: &impl Host,
    which: Which,
    path: &mut [u8],
    folder: usize,
    k: usize,
    file: &mut [u8],
    old: &[u8],
    n: usize,
    new: &mut [u8],
) -> usize
    ensures { Bundled (gate_called which).files result new.new }
{
    let end = path_of(rt, which, path, folder, k);
    if end == 0 {
        return 0;
    }
    match read_named(rt, part(path, 0, end), file) {
        Found::Bytes { n: size } => {
            if 1048576 < size {
                complain(
                    rt,
                    part(path, 0, end),
                    b"longer than 1,048,576 bytes, the most that a whole set may have; shorten it",
                );
                return 0;
            }
            change(
                rt,
                which,
                part(path, 0, folder),
                part(old, 0, n),
                k,
                true,
                part(file, 0, size),
                new,
            )
        }
        Found::Nothing => change(
            rt,
            which,
            part(path, 0, folder),
            part(old, 0, n),
            k,
            false,
            part(file, 0, 0),
            new,
        ),
        Found::Failed => {
            complain(
                rt,
                part(path, 0, end),
                b"not read; make it a file that can be read, or take it out of the folder",
            );
            0
        }
    }
}

// Puts the bundle with none of the gate's files at the front of a buffer, and answers its length.
fn put_none(which: Which, bundle: &mut [u8]) -> usize {
    let files = file_count(which);
    let n = 4 + 8 * files;
    let mut none = [0u8; 260];
    none[0] = files as u8;
    put_part(bundle, 0, part(&none, 0, n));
    n
}

// Puts the bundle of a folder's files at the front of `bundle`, and answers its length; 0, which it says,
// where there is none. The files are those of the gate, and the folder's name is the first `folder` bytes
// of `path`; a file that is missing is omitted. The bundle is made file by file, in `bundle` and `other`
// by turns, from the one with none; each gate has an even number of files.
pub fn gather(
    rt: &impl Host,
    which: Which,
    path: &mut [u8],
    folder: usize,
    file: &mut [u8],
    bundle: &mut [u8],
    other: &mut [u8],
) -> usize
    ensures { Bundled (gate_called which).files result bundle.new }
{
    if !is_folder(rt, path, folder) {
        return 0;
    }
    let files = file_count(which);
    let mut n = put_none(which, bundle);
    let mut k = 0;
    while k < files {
        let half = put_file(rt, which, path, folder, k, file, bundle, n, other);
        if half == 0 {
            return 0;
        }
        n = put_file(rt, which, path, folder, k + 1, file, other, half, bundle);
        if n == 0 {
            return 0;
        }
        k += 2;
    }
    n
}
