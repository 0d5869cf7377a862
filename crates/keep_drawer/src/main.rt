// Keeps a set in a file, as a drawer (document 02, order 12). It is called
//   keep_drawer new FILE SIZE            a drawer of so many bytes with no files; FILE must not be there
//   keep_drawer put FILE NUMBER SOURCE   the bytes of SOURCE become file NUMBER
//   keep_drawer withdraw FILE NUMBER     file NUMBER is omitted from now on
//   keep_drawer fill FILE BUNDLE         the files of a bundle take the place of all that it holds
//   keep_drawer take FILE BUNDLE         the bundle of its files is written
//   keep_drawer list FILE                its files, its gaps and its free bytes
//   keep_drawer judge FILE               its marks with the reasons, and by `marks` as numbers alone
// A refusal is printed as the judging program prints it, `bundle` and a number.
//
// FILE is never written in place. A change is made in memory; where it is refused, nothing is written. Else
// the whole drawer goes to FILE.new, which then takes FILE's name. So a program that is stopped midway leaves
// FILE as it was, and at most FILE.new beside it, which the next change writes anew.
#![tactic(auto)]

ghost use Rattle.std.specs.Prelude.{◌≤◌};

use board::report_board;
use bundle_bytes::{put_part, put_word};
use drawer_bundles::{put_bundle, take_bundle};
use drawer_change::change_drawer;
use drawer_held::drawer_fault;
use drawer_text::{put_change, put_list};
use drawers::drawer_judge_in;
use folder::{Found, argument, read_named};
use gate_lists::Which;
use parts::part;
use program_io::{
    Host, argument_count, argument_in, complain, fail, open_overwrite, open_read, path_text, print,
    write_decimal,
};
use reason_text::reasons;
use report::put_counted;
use std::fs;
use std::fs::OpenFile;
use std::io::{Error, ErrorKind, Write};

#[derive(Clone, Copy)]
enum Command {
    New,
    Put,
    Withdraw,
    Fill,
    Take,
    List,
    Judge,
    Marks,
    Unknown,
}

// What is no number, and what is over every length that a drawer can have.
const NO_NUMBER: usize = 1048578;

const TOO_MUCH: usize = 1048577;

// ---- The arguments

fn of_file(word: &[u8]) -> Command {
    if word == b"list".as_slice() {
        return Command::List;
    }
    if word == b"judge".as_slice() {
        return Command::Judge;
    }
    if word == b"marks".as_slice() {
        return Command::Marks;
    }
    Command::Unknown
}

fn of_file_and_one(word: &[u8]) -> Command {
    if word == b"new".as_slice() {
        return Command::New;
    }
    if word == b"withdraw".as_slice() {
        return Command::Withdraw;
    }
    if word == b"fill".as_slice() {
        return Command::Fill;
    }
    if word == b"take".as_slice() {
        return Command::Take;
    }
    Command::Unknown
}

// The command of the first argument, where it has as many behind it as it takes.
fn what_is_asked(rt: &impl Host) -> Command {
    let mut word = [0u8; 16];
    let n = argument_in(rt, 1, &mut word);
    match argument_count(rt) {
        3 => of_file(part(&word, 0, n)),
        4 => of_file_and_one(part(&word, 0, n)),
        5 => {
            if part(&word, 0, n) == b"put".as_slice() {
                return Command::Put;
            }
            Command::Unknown
        }
        _ => Command::Unknown,
    }
}

// A digit, and 10 for any other byte.
fn digit(byte: u8) -> usize {
    match byte {
        b'0' => 0,
        b'1' => 1,
        b'2' => 2,
        b'3' => 3,
        b'4' => 4,
        b'5' => 5,
        b'6' => 6,
        b'7' => 7,
        b'8' => 8,
        b'9' => 9,
        _ => 10,
    }
}

fn capped(x: usize) -> usize
    ensures { result ≤ 1048577 }
{
    if TOO_MUCH < x {
        return TOO_MUCH;
    }
    x
}

fn number_in(text: &[u8]) -> usize {
    if text.len() == 0 {
        return NO_NUMBER;
    }
    let mut number = 0;
    let mut i = 0;
    while i < text.len() {
        let next = digit(text[i]);
        if 9 < next {
            return NO_NUMBER;
        }
        number = capped(10 * number + next);
        i += 1;
    }
    number
}

// The number that the third argument is, NO_NUMBER, which it says, where it is none.
fn number_asked(rt: &impl Host, about: &[u8], text: &[u8]) -> usize {
    let mut word = [0u8; 16];
    let n = argument_in(rt, 3, &mut word);
    let number = number_in(part(&word, 0, n));
    if number == NO_NUMBER {
        complain(rt, about, text);
    }
    number
}

fn file_asked(rt: &impl Host) -> usize {
    number_asked(rt, b"NUMBER", b"name the file by its number, 0 to 19")
}

// ---- What is said

// What is wrong with a drawer or a bundle of that name, by the number of the refusal.
fn refuse(rt: &impl Host, name: &[u8], refusal: u32) {
    let mut text = [0u8; 32];
    let n = put_counted(&mut text, 0, b"bundle ", refusal as usize);
    print(rt, part(&text, 0, n));
    match refusal {
        1 => complain(
            rt,
            name,
            b"refused as 1: under 164 or over 1,048,576 bytes; give it a length between them",
        ),
        2 => complain(
            rt,
            name,
            b"refused as 2: its first number is not 20; name a drawer or a bundle of a set",
        ),
        3 => complain(
            rt,
            name,
            b"refused as 3: its offsets and lengths break the layout; make it anew from the files of the set",
        ),
        4 => complain(
            rt,
            name,
            b"refused as 4: a set has files 0 to 19; name one of these",
        ),
        _ => complain(
            rt,
            name,
            b"refused as 11: no room: 164 and the lengths of all its files would be more bytes than it has; withdraw a file, or fill a longer drawer",
        ),
    }
}

fn print_list(rt: &impl Host, d: &[u8]) {
    let mut text = [0u8; 4096];
    let n = put_list(&mut text, 0, d);
    print(rt, part(&text, 0, n));
}

fn print_change(rt: &impl Host, d: &[u8], k: usize) {
    let mut text = [0u8; 256];
    let n = put_change(&mut text, 0, d, k);
    print(rt, part(&text, 0, n));
}

// ---- Files

fn rename(rt: &impl Host, from: &[u8], to: &[u8]) -> Result<(), Error> {
    fs::rename(rt, path_text(from)?, path_text(to)?)
}

fn unlink(rt: &impl Host, name: &[u8]) -> Result<(), Error> {
    fs::remove_file(rt, path_text(name)?)
}

fn write_synced<F: Write + OpenFile>(file: &mut F, bytes: &[u8]) -> Result<(), Error> {
    file.write_all(bytes)?;
    file.sync_all()
}

// Writes a file to its end and to its device; says so and takes the file away where that fails.
fn write_whole(rt: &impl Host, name: &[u8], bytes: &[u8]) -> bool {
    match open_overwrite(rt, name) {
        Ok(mut file) => match write_synced(&mut file, bytes) {
            Ok(()) => true,
            Err(error) => {
                fail(rt, name, &error);
                let _ = unlink(rt, name);
                false
            }
        },
        Err(error) => {
            fail(rt, name, &error);
            false
        }
    }
}

// Writes a file under another name first, and then gives it its own; says so where that fails.
fn replace(rt: &impl Host, beside: &[u8], name: &[u8], bytes: &[u8]) -> bool {
    if write_whole(rt, beside, bytes) {
        match rename(rt, beside, name) {
            Ok(()) => return true,
            Err(error) => {
                fail(rt, name, &error);
                let _ = unlink(rt, beside);
            }
        }
    }
    complain(
        rt,
        name,
        b"not written, and left as it was; see to it that the file with .new behind its name can be written",
    );
    false
}

// The same for a file whose name is the first n bytes of a path.
fn save(rt: &impl Host, path: &mut [u8], n: usize, bytes: &[u8]) -> bool
    requires { n ≤ 4096 }
{
    put_part(path, n, b".new");
    replace(rt, part(path, 0, n + 4), part(path, 0, n), bytes)
}

fn is_free(rt: &impl Host, name: &[u8]) -> bool {
    match open_read(rt, name) {
        Ok(_) => false,
        Err(error) => error.kind() == ErrorKind::NotFound,
    }
}

fn no_drawer(rt: &impl Host, name: &[u8]) {
    complain(rt, name, b"there is no drawer of that name; make one first");
}

fn no_source(rt: &impl Host, name: &[u8]) {
    complain(rt, name, b"there is no file of that name");
}

fn not_read(rt: &impl Host, name: &[u8]) {
    complain(rt, name, b"not read; name a file that can be read");
}

// ---- The commands. A drawer's name is the first n bytes of a path.

fn make_new(rt: &impl Host, path: &mut [u8], n: usize, drawer: &mut [u8])
    requires { n ≤ 4096 }
{
    let size = number_asked(
        rt,
        b"SIZE",
        b"give the drawer's length as a number of bytes",
    );
    if size == NO_NUMBER {
        return;
    }
    if !is_free(rt, part(path, 0, n)) {
        complain(
            rt,
            part(path, 0, n),
            b"in the way; name a file that is not there yet",
        );
        return;
    }
    put_word(drawer, 0, 20);
    let refusal = drawer_fault(part(drawer, 0, size));
    if refusal != 0 {
        refuse(rt, part(path, 0, n), refusal);
        return;
    }
    if save(rt, path, n, part(drawer, 0, size)) {
        print_list(rt, part(drawer, 0, size));
    }
}

fn change(
    rt: &impl Host,
    path: &mut [u8],
    n: usize,
    d: &mut [u8],
    k: usize,
    present: bool,
    new: &[u8],
)
    requires { n ≤ 4096 }
{
    let refusal = change_drawer(d, k, present, new);
    if refusal != 0 {
        refuse(rt, part(path, 0, n), refusal);
        return;
    }
    if save(rt, path, n, d) {
        print_change(rt, d, k);
    }
}

fn put(rt: &impl Host, path: &mut [u8], n: usize, d: &mut [u8], new: &mut [u8])
    requires { n ≤ 4096 }
{
    let mut name = [0u8; 4096];
    let m = argument(rt, 4, &mut name);
    if m == 0 {
        return;
    }
    let k = file_asked(rt);
    if k == NO_NUMBER {
        return;
    }
    match read_named(rt, part(&name, 0, m), new) {
        Found::Bytes { n: size } => change(rt, path, n, d, k, true, part(new, 0, size)),
        Found::Nothing => no_source(rt, part(&name, 0, m)),
        Found::Failed => not_read(rt, part(&name, 0, m)),
    }
}

fn withdraw(rt: &impl Host, path: &mut [u8], n: usize, d: &mut [u8], new: &mut [u8])
    requires { n ≤ 4096 }
{
    let k = file_asked(rt);
    if k == NO_NUMBER {
        return;
    }
    change(rt, path, n, d, k, false, part(new, 0, 0));
}

// Whether the refusal of a bundle that is put in speaks of the drawer, and not of the bundle.
fn is_drawers(refusal: u32, size: usize) -> bool {
    if refusal == 11 {
        return true;
    }
    if 1048576 < size {
        return true;
    }
    size < 164
}

fn fill_with(rt: &impl Host, path: &mut [u8], n: usize, d: &mut [u8], name: &[u8], bundle: &[u8])
    requires { n ≤ 4096 }
{
    let refusal = put_bundle(d, bundle);
    if refusal == 0 {
        if save(rt, path, n, d) {
            print_list(rt, d);
        }
        return;
    }
    if is_drawers(refusal, d.len()) {
        refuse(rt, part(path, 0, n), refusal);
        return;
    }
    refuse(rt, name, refusal);
}

fn fill(rt: &impl Host, path: &mut [u8], n: usize, d: &mut [u8], bundle: &mut [u8])
    requires { n ≤ 4096 }
{
    let mut name = [0u8; 4096];
    let m = argument(rt, 3, &mut name);
    if m == 0 {
        return;
    }
    match read_named(rt, part(&name, 0, m), bundle) {
        Found::Bytes { n: size } => {
            fill_with(rt, path, n, d, part(&name, 0, m), part(bundle, 0, size))
        }
        Found::Nothing => no_source(rt, part(&name, 0, m)),
        Found::Failed => not_read(rt, part(&name, 0, m)),
    }
}

fn take(rt: &impl Host, path: &[u8], n: usize, d: &[u8], bundle: &mut [u8]) {
    let mut name = [0u8; 4096];
    let m = argument(rt, 3, &mut name);
    if m == 0 {
        return;
    }
    let made = take_bundle(d, bundle);
    if made.refusal != 0 {
        refuse(rt, part(path, 0, n), made.refusal);
        return;
    }
    if save(rt, &mut name, m, part(bundle, 0, made.length)) {
        print(rt, part(&name, 0, m));
        print(rt, b": ");
        write_decimal(rt, made.length as u64);
        print(rt, b" bytes\n");
    }
}

fn list(rt: &impl Host, path: &[u8], n: usize, d: &[u8]) {
    let refusal = drawer_fault(d);
    if refusal != 0 {
        refuse(rt, part(path, 0, n), refusal);
        return;
    }
    print_list(rt, d);
}

fn judge_in(
    rt: &impl Host,
    name: &[u8],
    d: &[u8],
    bundle: &mut [u8],
    work: &mut [u32],
    text: &mut [u8],
) {
    let made = take_bundle(d, bundle);
    if made.refusal != 0 {
        refuse(rt, name, made.refusal);
        return;
    }
    let n = reasons(
        Which::Schedule,
        part(bundle, 0, made.length),
        true,
        work,
        text,
    );
    print(rt, part(text, 0, n));
}

fn judge(rt: &impl Host, name: &[u8], d: &[u8], bundle: &mut [u8]) {
    let mut work = [0u32; 794702];
    let mut text = [0u8; 65536];
    judge_in(rt, name, d, bundle, &mut work, &mut text);
}

fn marks_in(rt: &impl Host, name: &[u8], d: &[u8], work: &mut [u32]) {
    let mut text = [0u8; 6144];
    let drawn = drawer_judge_in(d, work);
    if drawn.refusal != 0 {
        refuse(rt, name, drawn.refusal);
        return;
    }
    let board = drawn.board;
    let n = report_board(0, board, &mut text);
    print(rt, part(&text, 0, n));
}

fn marks(rt: &impl Host, name: &[u8], d: &[u8]) {
    let mut work = [0u32; 794702];
    marks_in(rt, name, d, &mut work);
}

// Does what is asked of a drawer that was read, with memory for other bytes.
fn answer(
    rt: &impl Host,
    command: Command,
    path: &mut [u8],
    n: usize,
    d: &mut [u8],
    other: &mut [u8],
)
    requires { n ≤ 4096 }
{
    match command {
        Command::Put => put(rt, path, n, d, other),
        Command::Withdraw => withdraw(rt, path, n, d, other),
        Command::Fill => fill(rt, path, n, d, other),
        Command::Take => take(rt, path, n, d, other),
        Command::List => list(rt, path, n, d),
        Command::Judge => judge(rt, part(path, 0, n), d, other),
        Command::Marks => marks(rt, part(path, 0, n), d),
        Command::New => {}
        Command::Unknown => {}
    }
}

// The same of the drawer at the front of a buffer, which is as long.
fn answer_front(
    rt: &impl Host,
    command: Command,
    path: &mut [u8],
    n: usize,
    drawer: &mut [u8],
    size: usize,
    other: &mut [u8],
)
    requires { n ≤ 4096 }
{
    if drawer.len() < size {
        return;
    }
    answer(rt, command, path, n, &mut drawer[..size], other);
}

fn answer_file(
    rt: &impl Host,
    command: Command,
    path: &mut [u8],
    n: usize,
    drawer: &mut [u8],
    other: &mut [u8],
)
    requires { n ≤ 4096 }
{
    match read_named(rt, part(path, 0, n), drawer) {
        Found::Bytes { n: size } => answer_front(rt, command, path, n, drawer, size, other),
        Found::Nothing => no_drawer(rt, part(path, 0, n)),
        Found::Failed => not_read(rt, part(path, 0, n)),
    }
}

fn answer_named(rt: &impl Host, command: Command, drawer: &mut [u8], other: &mut [u8]) {
    let mut path = [0u8; 4096];
    let n = argument(rt, 2, &mut path);
    if n == 0 {
        return;
    }
    match command {
        Command::New => make_new(rt, &mut path, n, drawer),
        _ => answer_file(rt, command, &mut path, n, drawer, other),
    }
}

fn usage(rt: &impl Host) {
    complain(
        rt,
        b"usage",
        b"keep_drawer new FILE SIZE | put FILE NUMBER SOURCE | withdraw FILE NUMBER | fill FILE BUNDLE | take FILE BUNDLE | list FILE | judge FILE | marks FILE",
    );
}

// With memory of its own.
fn answer_asked(rt: &impl Host, command: Command) {
    let mut drawer = [0u8; 1048577];
    let mut other = [0u8; 1048577];
    answer_named(rt, command, &mut drawer, &mut other);
}

fn main(rt: HostRuntime) {
    let command = what_is_asked(&rt);
    match command {
        Command::Unknown => usage(&rt),
        _ => answer_asked(&rt, command),
    }
}
