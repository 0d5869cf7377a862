// Plays changes over two desks and one set of calendars (document 02, order 10), one after the other, and
// prints each desk's marks at the start and after each change. It is called
//   play_desks [--marks] A B CALENDARS [WHOSE FILE NEW]..
// with the folders of both desks and of the calendars, and for each change A, B or calendars, the number of
// a file, and the file that holds its new bytes or - to withdraw it. No folder is changed.
//
// A desk's marks are printed with the reason beside each that doesn't hold, as of one bundle, the joined
// set's; where that would be too long for a bundle, and with --marks, as the desk's board has them. Where the
// calendars were written while a desk was refused, that desk starts again from a full judgement. The last
// line says whether both sets are accepted at the end. It needs some 12 MB of stack, which `./desks` asks for.
#![tactic(auto)]

ghost use Rattle.std.specs.Prelude.{◌≤◌};

use board::{Board, is_accepted, report_board};
use bundle::make_bundle;
use bundle_bytes::put_part;
use desk_refusals::join_fault;
use desks::{Desk, Desks, judge_joined, try_desks};
use desks_calls::Whose;
use file_names::put_file_name;
use folder::{Found, argument, gather, read_named};
use gate_lists::Which;
use join_bundle::join_bundle;
use parts::part;
use program_io::{Host, argument_count, argument_in, complain, print, write_decimal};
use reason_text::reasons;

// What is at hand between two changes, beside the bundles, which stand in buffers: how long they are, the
// boards, and whether the play goes on.
#[derive(Clone, Copy)]
struct Hand {
    length_a: usize,
    length_b: usize,
    length_s: usize,
    board_a: Board,
    board_b: Board,
    going: bool,
}

// ---- The arguments

fn argument_is(rt: &impl Host, i: usize, text: &[u8]) -> bool {
    let mut word = [0u8; 16];
    let n = argument_in(rt, i, &mut word);
    part(&word, 0, n) == text
}

// The number of the argument that names desk A's folder.
fn first_folder(rt: &impl Host) -> usize
    ensures { result ≤ 2 }
{
    if argument_is(rt, 1, b"--marks") {
        return 2;
    }
    1
}

// How many groups of three arguments there are from that number on; 0 where some are left over.
fn groups_from(rt: &impl Host, first: usize) -> usize
    ensures { result ≤ 1000000 }
{
    let count = argument_count(rt);
    if count < first {
        return 0;
    }
    let n = count - first;
    if n % 3 != 0 {
        return 0;
    }
    if 3000000 < n {
        return 0;
    }
    n / 3
}

fn whose_of(number: usize) -> Whose {
    match number {
        0 => Whose::DeskA,
        1 => Whose::DeskB,
        _ => Whose::Calendars,
    }
}

// Whose the change is: 0 for A's, 1 for B's, 2 for the calendars, and 3, which it says, for none.
fn whose_at(rt: &impl Host, i: usize) -> usize {
    if argument_is(rt, i, b"A") {
        return 0;
    }
    if argument_is(rt, i, b"B") {
        return 1;
    }
    if argument_is(rt, i, b"calendars") {
        return 2;
    }
    complain(
        rt,
        b"a change",
        b"it is to A, to B or to calendars; name one of these first",
    );
    3
}

// A digit, and 10 for any other byte.
fn digit(byte: u8) -> usize {
    match byte {
        b'0' => 0,
        b'1' => 1,
        b'2' => 2,
        b'3' => 3,
        b'4' => 4,
        b'5' => 5,
        b'6' => 6,
        b'7' => 7,
        b'8' => 8,
        b'9' => 9,
        _ => 10,
    }
}

// A number of one digit or two; 100 for anything else.
fn number_in(text: &[u8]) -> usize {
    if text.len() == 1 {
        let one = digit(text[0]);
        if one < 10 {
            return one;
        }
        return 100;
    }
    if text.len() != 2 {
        return 100;
    }
    let ten = digit(text[0]);
    let one = digit(text[1]);
    if 9 < ten {
        return 100;
    }
    if 9 < one {
        return 100;
    }
    10 * ten + one
}

// The number of a file; 100, which it says, for none.
fn file_at(rt: &impl Host, i: usize) -> usize {
    let mut word = [0u8; 16];
    let n = argument_in(rt, i, &mut word);
    let file = number_in(part(&word, 0, n));
    if file == 100 {
        complain(rt, b"a change", b"name the file by its number, 0 to 19");
    }
    file
}

// The new bytes that an argument names.
#[derive(Clone, Copy)]
enum New {
    Bytes { n: usize },
    Withdrawn,
    Unknown,
}

// Reads the file that an argument names, and says so where it can't.
fn read_new(rt: &impl Host, i: usize, news: &mut [u8]) -> New {
    if argument_is(rt, i, b"-") {
        return New::Withdrawn;
    }
    let mut path = [0u8; 4096];
    let n = argument(rt, i, &mut path);
    if n == 0 {
        return New::Unknown;
    }
    match read_named(rt, part(&path, 0, n), news) {
        Found::Bytes { n: size } => New::Bytes { n: size },
        Found::Nothing => {
            complain(
                rt,
                part(&path, 0, n),
                b"not there; name a file that is, or - to withdraw the set's",
            );
            New::Unknown
        }
        Found::Failed => New::Unknown,
    }
}

// Puts the bundle of the folder that an argument names to the front of a buffer, with two more to make it
// in, and answers its length; 0, which it says, where there is none.
fn gather_in(
    rt: &impl Host,
    i: usize,
    file: &mut [u8],
    bundle: &mut [u8],
    other: &mut [u8],
) -> usize {
    let mut path = [0u8; 4096];
    let folder = argument(rt, i, &mut path);
    if folder == 0 {
        return 0;
    }
    gather(rt, Which::Schedule, &mut path, folder, file, bundle, other)
}

fn gather_folder(rt: &impl Host, i: usize, file: &mut [u8], bundle: &mut [u8]) -> usize {
    let mut other = [0u8; 1048577];
    gather_in(rt, i, file, bundle, &mut other)
}

// ---- What is printed

fn print_number(rt: &impl Host, before: &[u8], number: usize, behind: &[u8]) {
    print(rt, before);
    write_decimal(rt, number as u64);
    print(rt, behind);
}

// What a refusal means, and what to do. Folders are bundled right and the output is long enough, so these are
// the refusals that there can be.
fn print_refusal(rt: &impl Host, refusal: u32, bundles: u32) {
    print_number(rt, b"refused as ", refusal as usize, b": ");
    if bundles == 9 {
        print(
            rt,
            b"files 6, 7 and 8 stand in the folder of the calendars, and no other does; move what stands in the wrong one\n",
        );
        return;
    }
    match refusal {
        4 => print(rt, b"a set has files 0 to 19; name one of these\n"),
        6 => print(
            rt,
            b"the new bundle would be over 1,048,576 bytes; shorten the file\n",
        ),
        9 => print(
            rt,
            b"a desk changes any file but 6, 7 and 8, and the calendars those alone; make the change there\n",
        ),
        _ => print(rt, b"see the table of refusals in the README\n"),
    };
}

fn print_board(rt: &impl Host, board: Board) {
    let mut text = [0u8; 6144];
    let n = report_board(0, board, &mut text);
    print(rt, part(&text, 0, n));
}

fn print_reasons_in(rt: &impl Host, bundle: &[u8], work: &mut [u32], text: &mut [u8]) {
    let n = reasons(Which::Schedule, bundle, true, work, text);
    print(rt, part(text, 0, n));
}

fn print_reasons(rt: &impl Host, bundle: &[u8]) {
    let mut work = [0u32; 794702];
    let mut text = [0u8; 65536];
    print_reasons_in(rt, bundle, &mut work, &mut text);
}

// Prints a desk's marks, its joined set put into a spare buffer.
fn print_marks<'a>(
    rt: &impl Host,
    plain: bool,
    desk: &'a [u8],
    shared: &'a [u8],
    board: Board,
    spare: &mut [u8],
) {
    if plain {
        print_board(rt, board);
        return;
    }
    let n = join_bundle(desk, shared, spare);
    if n == 0 {
        print(
            rt,
            b"the joined set is over 1,048,576 bytes, and its marks come without reasons\n",
        );
        print_board(rt, board);
        return;
    }
    print_reasons(rt, part(spare, 0, n));
}

// Prints what a desk is answered, and its marks as they then stand; a desk that is refused by its bundles has
// none.
fn print_desk<'a>(
    rt: &impl Host,
    plain: bool,
    name: &[u8],
    desk: &'a [u8],
    shared: &'a [u8],
    refusal: u32,
    board: Board,
    spare: &mut [u8],
) {
    print(rt, name);
    let bundles = join_fault(desk, shared);
    if refusal != 0 {
        print_refusal(rt, refusal, bundles);
    }
    if bundles != 0 {
        print(rt, b"not judged\n");
        return;
    }
    print_marks(rt, plain, desk, shared, board, spare);
}

// Prints both, by the refusals that they got.
fn print_both<'a>(
    rt: &impl Host,
    plain: bool,
    a: &'a [u8],
    b: &'a [u8],
    shared: &'a [u8],
    refusal_a: u32,
    refusal_b: u32,
    hand: Hand,
    spare: &mut [u8],
) {
    let board_a = hand.board_a;
    let board_b = hand.board_b;
    print_desk(rt, plain, b"desk A\n", a, shared, refusal_a, board_a, spare);
    print_desk(rt, plain, b"desk B\n", b, shared, refusal_b, board_b, spare);
}

// Prints the number of a file, and its name where there is such a file.
fn print_file(rt: &impl Host, file: usize) {
    let mut name = [0u8; 36];
    let n = put_file_name(&mut name, 0, file);
    print_number(rt, b"file ", file, b" ");
    if n != 0 {
        print(rt, part(&name, 0, n));
        print(rt, b" ");
    }
}

// Prints which change comes.
fn print_change(rt: &impl Host, turn: usize, whose: usize, file: usize, present: bool) {
    print_number(rt, b"\nchange ", turn, b": ");
    match whose {
        0 => print(rt, b"desk A, "),
        1 => print(rt, b"desk B, "),
        _ => print(rt, b"calendars, "),
    };
    print_file(rt, file);
    if present {
        print(rt, b"new\n");
    } else {
        print(rt, b"withdrawn\n");
    }
}

fn print_size(rt: &impl Host, size: usize) {
    if size == 0 {
        print(rt, b"not written\n");
    } else {
        print_number(rt, b"written: ", size, b" bytes\n");
    }
}

// Prints how it ends; nothing where a change could not be made.
fn print_end(rt: &impl Host, hand: Hand) {
    if !hand.going {
        return;
    }
    if are_accepted(hand) {
        print(rt, b"\nboth accepted\n");
    } else {
        print(rt, b"\nnot both accepted\n");
    }
}

fn are_accepted(hand: Hand) -> bool {
    let board_a = hand.board_a;
    let board_b = hand.board_b;
    if is_accepted(board_a) {
        return is_accepted(board_b);
    }
    false
}

// ---- A change

// The board that a desk goes on with: where it was refused while the calendars were written, that of a full
// judgement.
fn board_now<'a>(desk: &'a [u8], shared: &'a [u8], calendars: bool, answer: Desk) -> Board {
    let board = answer.board;
    if answer.refusal == 0 {
        return board;
    }
    if !calendars {
        return board;
    }
    let judged = judge_joined(desk, shared);
    let fresh = judged.board;
    fresh
}

// Makes the new bundle of a change, which is not refused, and puts it into the place of the old one.
fn replace_in(
    bundle: &mut [u8],
    length: usize,
    k: usize,
    present: bool,
    new: &[u8],
    out: &mut [u8],
) {
    let size = made(part(bundle, 0, length), k, present, new, out);
    put_part(bundle, 0, part(out, 0, size));
}

fn made<'a>(bundle: &'a [u8], k: usize, present: bool, new: &'a [u8], out: &mut [u8]) -> usize {
    make_bundle(bundle, 20, k, present, new, out).length
}

fn replace(bundle: &mut [u8], length: usize, k: usize, present: bool, new: &[u8]) {
    let mut out = [0u8; 1048577];
    replace_in(bundle, length, k, present, new, &mut out);
}

// Puts the new bundle into the place of this one, where the change is to it and is written; answers how long
// the bundle then is.
fn put_new(
    bundle: &mut [u8],
    length: usize,
    is_changed: bool,
    size: usize,
    k: usize,
    present: bool,
    new: &[u8],
) -> usize {
    if !is_changed {
        return length;
    }
    if size == 0 {
        return length;
    }
    replace(bundle, length, k, present, new);
    size
}

fn are_written(whose: usize, size: usize) -> bool {
    if size == 0 {
        return false;
    }
    whose == 2
}

// Does so for the bundle that the change is to.
fn put_all_new(
    a: &mut [u8],
    b: &mut [u8],
    s: &mut [u8],
    hand: Hand,
    whose: usize,
    k: usize,
    present: bool,
    new: &[u8],
    size: usize,
) -> Hand {
    let length_a = put_new(a, hand.length_a, whose == 0, size, k, present, new);
    let length_b = put_new(b, hand.length_b, whose == 1, size, k, present, new);
    let length_s = put_new(s, hand.length_s, whose == 2, size, k, present, new);
    let board_a = hand.board_a;
    let board_b = hand.board_b;
    Hand {
        length_a,
        length_b,
        length_s,
        board_a,
        board_b,
        going: true,
    }
}

// The same with the boards that the desks go on with.
fn boards_now<'a>(
    a: &'a [u8],
    b: &'a [u8],
    s: &'a [u8],
    hand: Hand,
    calendars: bool,
    desks: Desks,
) -> Hand {
    let of_a = desks.a;
    let of_b = desks.b;
    let shared = part(s, 0, hand.length_s);
    let board_a = board_now(part(a, 0, hand.length_a), shared, calendars, of_a);
    let board_b = board_now(part(b, 0, hand.length_b), shared, calendars, of_b);
    Hand {
        length_a: hand.length_a,
        length_b: hand.length_b,
        length_s: hand.length_s,
        board_a,
        board_b,
        going: true,
    }
}

// Writes the new bundle where it has a length, and answers what is then at hand.
fn written(
    a: &mut [u8],
    b: &mut [u8],
    s: &mut [u8],
    hand: Hand,
    whose: usize,
    k: usize,
    present: bool,
    new: &[u8],
    desks: Desks,
) -> Hand {
    let size = desks.size;
    let put = put_all_new(a, b, s, hand, whose, k, present, new, size);
    boards_now(a, b, s, put, are_written(whose, size), desks)
}

// What both desks are answered. A try answers what a change does that has an output long enough.
fn answer<'a>(
    a: &'a [u8],
    b: &'a [u8],
    s: &'a [u8],
    hand: Hand,
    whose: usize,
    k: usize,
    present: bool,
    new: &'a [u8],
) -> Desks {
    let board_a = hand.board_a;
    let board_b = hand.board_b;
    try_desks(a, b, s, board_a, board_b, whose_of(whose), k, present, new)
}

// Makes a change and prints what it gives; the new bytes are the first n of their buffer, which is spare then.
fn change(
    rt: &impl Host,
    plain: bool,
    turn: usize,
    a: &mut [u8],
    b: &mut [u8],
    s: &mut [u8],
    news: &mut [u8],
    hand: Hand,
    whose: usize,
    k: usize,
    present: bool,
    n: usize,
) -> Hand {
    print_change(rt, turn, whose, k, present);
    let desks = answer(
        part(a, 0, hand.length_a),
        part(b, 0, hand.length_b),
        part(s, 0, hand.length_s),
        hand,
        whose,
        k,
        present,
        part(news, 0, n),
    );
    let of_a = desks.a;
    let of_b = desks.b;
    let refusal_a = of_a.refusal;
    let refusal_b = of_b.refusal;
    print_size(rt, desks.size);
    let next = written(a, b, s, hand, whose, k, present, part(news, 0, n), desks);
    print_both(
        rt,
        plain,
        part(a, 0, next.length_a),
        part(b, 0, next.length_b),
        part(s, 0, next.length_s),
        refusal_a,
        refusal_b,
        next,
        news,
    );
    next
}

fn ended(hand: Hand) -> Hand {
    let board_a = hand.board_a;
    let board_b = hand.board_b;
    Hand {
        length_a: hand.length_a,
        length_b: hand.length_b,
        length_s: hand.length_s,
        board_a,
        board_b,
        going: false,
    }
}

// Makes the change that three arguments name, unless one before it could not be made.
fn step(
    rt: &impl Host,
    plain: bool,
    turn: usize,
    i: usize,
    a: &mut [u8],
    b: &mut [u8],
    s: &mut [u8],
    news: &mut [u8],
    hand: Hand,
) -> Hand
    requires { i ≤ 3000002 }
{
    if !hand.going {
        return ended(hand);
    }
    let whose = whose_at(rt, i);
    let k = file_at(rt, i + 1);
    if whose == 3 {
        return ended(hand);
    }
    if k == 100 {
        return ended(hand);
    }
    match read_new(rt, i + 2, news) {
        New::Bytes { n } => change(rt, plain, turn, a, b, s, news, hand, whose, k, true, n),
        New::Withdrawn => change(rt, plain, turn, a, b, s, news, hand, whose, k, false, 0),
        New::Unknown => ended(hand),
    }
}

// ---- The play

// Judges both desks in full and prints their marks.
fn start<'a>(
    rt: &impl Host,
    plain: bool,
    a: &'a [u8],
    b: &'a [u8],
    s: &'a [u8],
    spare: &mut [u8],
) -> Hand {
    let of_a = judge_joined(a, s);
    let of_b = judge_joined(b, s);
    let board_a = of_a.board;
    let board_b = of_b.board;
    let hand = Hand {
        length_a: a.len(),
        length_b: b.len(),
        length_s: s.len(),
        board_a,
        board_b,
        going: true,
    };
    print(rt, b"start\n");
    print_both(rt, plain, a, b, s, of_a.refusal, of_b.refusal, hand, spare);
    hand
}

// Makes the changes that the groups of arguments behind the folders name.
fn play(
    rt: &impl Host,
    plain: bool,
    first: usize,
    groups: usize,
    a: &mut [u8],
    b: &mut [u8],
    s: &mut [u8],
    news: &mut [u8],
    begun: Hand,
) -> Hand
    requires { (first ≤ 2) × (groups ≤ 1000000) }
{
    let mut hand = begun;
    let mut turn = 1;
    while turn < groups {
        hand = step(rt, plain, turn, first + 3 * turn, a, b, s, news, hand);
        turn += 1;
    }
    hand
}

// How long the bundles of the folders are; 0 for the calendars' where there is none.
#[derive(Clone, Copy)]
struct Lengths {
    a: usize,
    b: usize,
    s: usize,
}

// Bundles the folders from that argument on, as far as it can.
fn gather_all(
    rt: &impl Host,
    first: usize,
    a: &mut [u8],
    b: &mut [u8],
    s: &mut [u8],
    news: &mut [u8],
) -> Lengths
    requires { first ≤ 2 }
{
    let na = gather_folder(rt, first, news, a);
    if na == 0 {
        return Lengths { a: 0, b: 0, s: 0 };
    }
    let nb = gather_folder(rt, first + 1, news, b);
    if nb == 0 {
        return Lengths { a: 0, b: 0, s: 0 };
    }
    let ns = gather_folder(rt, first + 2, news, s);
    Lengths {
        a: na,
        b: nb,
        s: ns,
    }
}

fn begin<'a>(
    rt: &impl Host,
    plain: bool,
    lengths: Lengths,
    a: &'a [u8],
    b: &'a [u8],
    s: &'a [u8],
    news: &mut [u8],
) -> Hand {
    start(
        rt,
        plain,
        part(a, 0, lengths.a),
        part(b, 0, lengths.b),
        part(s, 0, lengths.s),
        news,
    )
}

// Plays from the bundles of the folders on, and prints how it ends.
fn play_to_end(
    rt: &impl Host,
    plain: bool,
    first: usize,
    groups: usize,
    lengths: Lengths,
    a: &mut [u8],
    b: &mut [u8],
    s: &mut [u8],
    news: &mut [u8],
)
    requires { (first ≤ 2) × (groups ≤ 1000000) }
{
    let hand = begin(rt, plain, lengths, a, b, s, news);
    print_end(rt, play(rt, plain, first, groups, a, b, s, news, hand));
}

// Plays with memory for the three bundles and for new bytes.
fn play_all(
    rt: &impl Host,
    plain: bool,
    first: usize,
    groups: usize,
    a: &mut [u8],
    b: &mut [u8],
    s: &mut [u8],
    news: &mut [u8],
)
    requires { (first ≤ 2) × (groups ≤ 1000000) }
{
    let lengths = gather_all(rt, first, a, b, s, news);
    if lengths.s == 0 {
        return;
    }
    play_to_end(rt, plain, first, groups, lengths, a, b, s, news);
}

fn play_with_memory(rt: &impl Host, first: usize, groups: usize)
    requires { (first ≤ 2) × (groups ≤ 1000000) }
{
    let mut a = [0u8; 1048577];
    let mut b = [0u8; 1048577];
    let mut s = [0u8; 1048577];
    let mut news = [0u8; 1048577];
    play_all(
        rt,
        first == 2,
        first,
        groups,
        &mut a,
        &mut b,
        &mut s,
        &mut news,
    );
}

fn main(rt: HostRuntime) {
    let first = first_folder(&rt);
    let groups = groups_from(&rt, first);
    if groups == 0 {
        complain(
            &rt,
            b"usage",
            b"play_desks [--marks] A B CALENDARS [WHOSE FILE NEW]..",
        );
        return;
    }
    play_with_memory(&rt, first, groups);
}
