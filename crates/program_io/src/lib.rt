// What the programs share of reading and writing. No contract can say what comes from outside or goes
// there, so the functions that read and write promise only how many bytes there can be.
#![tactic(auto)]

ghost use Rattle.std.specs.Prelude.{◌≡◌, ◌≤◌, length};
ghost use Rattle.bundle_bytes.specs.Pieces.{written};
ghost use Rattle.program_io.specs.Wire.{long_of};
ghost use Rattle.program_io.specs.Input.{Within};

use bundle_bytes::put_word;
use parts::part;
use std::env::{Env, FillError};
use std::fmt::Formatter;
use std::fs::Files;
use std::io::{Error, ErrorKind, Print, Read, Stderr, Stdin, Stdout};
use std::{fmt, fs};

// What a program reads, writes, opens and is started with. `main` is given one, and hands it down to what
// reads or writes.
pub trait Host: Files + Env {
    fn input(&self) -> Stdin;

    fn output(&self) -> Stdout;

    fn errors(&self) -> Stderr;
}

impl Host for HostRuntime {
    fn input(&self) -> Stdin {
        self.stdin()
    }

    fn output(&self) -> Stdout {
        self.stdout()
    }

    fn errors(&self) -> Stderr {
        self.stderr()
    }
}

// An input that was read to its end, or until the buffer was full, and its n bytes; or a read that failed.
#[derive(Clone, Copy)]
pub enum Input {
    Whole { n: usize },
    Failed { error: Error },
}

// Fills a buffer; false where the input ends before, or a read fails.
pub fn fill<R: Read>(input: &mut R, buf: &mut [u8]) -> bool {
    input.read_exact(buf).is_ok()
}

// Reads an input to its end, or until the buffer is full. So a caller that takes at most so many bytes
// lends a buffer of one more.
pub fn read_all<R: Read>(input: &mut R, buf: &mut [u8]) -> Input
    ensures { Within result (length buf.new) }
{
    let mut n = 0;
    while n < buf.len() {
        match input.read(&mut buf[n..]) {
            Ok(more) => {
                if more == 0 {
                    return Input::Whole { n };
                }
                n += more;
            }
            Err(error) => return Input::Failed { error },
        }
    }
    Input::Whole { n }
}

// Writes bytes to standard output; whether all were written.
pub fn write_out(rt: &impl Host, bytes: &[u8]) -> bool {
    rt.output().write_all(bytes).is_ok()
}

// Writes a number to standard output as it is printed.
pub fn write_decimal(rt: &impl Host, x: u64) {
    let _ = rt.output().print(x);
}

// Writes a text to standard error, as far as that takes it.
pub fn say(rt: &impl Host, text: &[u8]) {
    let _ = rt.errors().write_all(text);
}

// Writes a text to standard output; where that fails, says so on standard error and answers false.
pub fn print(rt: &impl Host, text: &[u8]) -> bool {
    match rt.output().write_all(text) {
        Ok(()) => true,
        Err(error) => {
            fail(rt, b"standard output", &error);
            false
        }
    }
}

// Writes a line to standard error: what it is about, and what is wrong with it or what to do.
pub fn complain(rt: &impl Host, about: &[u8], text: &[u8]) {
    say(rt, about);
    say(rt, b": ");
    say(rt, text);
    say(rt, b"\n");
}

// The first 256 bytes of a text that is formatted.
#[derive(Drop)]
struct Front {
    bytes: [u8; 256],
    length: usize,
}

impl fmt::Write for Front {
    fn write_str(&mut self, text: &str) -> fmt::Result {
        let bytes = text.as_bytes().iter();
        for byte in bytes {
            let at = self.length;
            if at < 256 {
                self.bytes[at] = *byte;
                self.length = at + 1;
            }
        }
        Ok(())
    }
}

fn front_of(error: &Error) -> Front {
    let mut f = Formatter::new(Front {
        bytes: [0; 256],
        length: 0,
    });
    let _ = f.write(error);
    f.into_inner()
}

// How much of an error's text is what went wrong: all but the number that the system has for it.
fn cause_length(text: &[u8]) -> usize
    ensures { result ≤ length text.now }
{
    for i in 0..text.len() {
        if text[i..].starts_with(b" (os error ") {
            return i;
        }
    }
    text.len()
}

// Writes a line to standard error: what failed, and the system's words for the error.
pub fn fail(rt: &impl Host, what: &[u8], error: &Error) {
    let front = front_of(error);
    let text = part(&front.bytes, 0, front.length);
    complain(rt, what, part(text, 0, cause_length(text)));
}

// Puts argument i of the program at the front of a buffer, and answers its length; 0 where there is none,
// or where it is longer than the buffer. Argument 0 is the program's own name.
pub fn argument_in(rt: &impl Host, i: usize, buf: &mut [u8]) -> usize
    ensures { result ≤ length buf.new }
{
    match rt.arg(i, buf) {
        Ok(n) => n,
        Err(_) => 0,
    }
}

fn is_argument(rt: &impl Host, i: usize) -> bool {
    let mut none = [0u8; 1];
    match rt.arg(i, &mut none) {
        Err(FillError::NotPresent) => false,
        _ => true,
    }
}

// How many arguments the program was started with, its own name among them.
pub fn argument_count(rt: &impl Host) -> usize {
    for i in 0..usize::MAX {
        if !is_argument(rt, i) {
            return i;
        }
    }
    usize::MAX
}

// A path as the system's files are named by; a name that is not UTF-8 is refused.
pub fn path_text(name: &[u8]) -> Result<&str, Error> {
    match str::from_utf8(name) {
        Ok(text) => Ok(text),
        Err(_) => Err(Error::from(ErrorKind::InvalidFilename)),
    }
}

// Opens a file for reading, or a folder.
pub fn open_read<H: Host>(rt: &H, name: &[u8]) -> Result<H::File, Error> {
    fs::open(rt, path_text(name)?)
}

// Opens a file for writing: an empty one, made where there is none of that name.
pub fn open_overwrite<H: Host>(rt: &H, name: &[u8]) -> Result<H::File, Error> {
    fs::create(rt, path_text(name)?)
}

// Writes a 64-bit number over eight bytes, the lowest first, where there are eight.
pub fn put_long(out: &mut [u8], at: usize, x: u64)
    ensures { out.new ≡ written out.old at (long_of x) }
{
    if out.len() < 8 {
        return;
    }
    if out.len() - 8 < at {
        return;
    }
    put_word(out, at, (x % 4294967296) as u32);
    put_word(out, at + 4, (x / 4294967296) as u32);
}
