// Answers cases of the calls with a lent list of entries, and of the plain engine, so that a test can ask the
// compiled code thousands of them in one run. All numbers are little-endian u32. A case on standard input is
// seven numbers (what is asked; the bundle's length; a file number; 1 for new bytes; their length; the output's
// length; how many entries the list has), the bundle, the 81 marks that the call gets as kind, place and
// companion, and the new bytes. Asked is 0 to judge, 1 to try and 2 to make a change, each with a list, and 3
// to judge by the plain engine, without one. The answer is the refusal, the length, the number of entries, the
// 81 marks, and the whole output and the whole list, each byte of which was 0xA5 before. The program ends where
// the input does, and at a case that is too long or asks nothing known.
#![tactic(auto)]

ghost use Rattle.std.specs.Prelude.{◌≤◌, length};

use bundle_bytes::{put_word, word_at};
use cases::{fill_front, get_marks, low, put_marks, write_part};
use gate_flat::Listed;
use gate_plain::judge_plain;
use listed_numbers::{judge_numbers, make_numbers, try_numbers};
use parts::part;
use program_io::{Host, fill};

// A board of 81 marks takes so many bytes.
const BOARD: usize = 972;

// What a case asks, but for the bundle, the new bytes and the marks.
#[derive(Clone, Copy)]
struct Asked {
    op: u32,
    k: usize,
    present: bool,
    new_length: usize,
    room: usize,
    entries: usize,
}

// ---- Bytes in and out

// Puts the numbers of a list into bytes, as many as there is room for.
fn put_list(bytes: &mut [u8], list: &[u32])
    requires { length list.now ≤ 32768 }
{
    let mut j = 0;
    while j < list.len() {
        put_word(bytes, 4 * j, list[j]);
        j += 1;
    }
}

// Writes a list of up to 8,192 entries, by way of a buffer.
fn write_list(rt: &impl Host, bytes: &mut [u8], list: &[u32]) -> bool {
    if 32768 < list.len() {
        return false;
    }
    put_list(bytes, list);
    write_part(rt, part(bytes, 0, 4 * list.len()))
}

// Writes what every call answers, by way of a buffer.
fn write_answer(
    rt: &impl Host,
    told: Listed,
    bytes: &mut [u8],
    kinds: &[u32],
    places: &[usize],
    companions: &[usize],
) -> bool {
    put_marks(bytes, kinds, places, companions);
    put_word(bytes, 0, told.refusal);
    put_word(bytes, 4, low(told.length));
    put_word(bytes, 8, low(told.entries));
    write_part(rt, part(bytes, 0, 12 + BOARD))
}

// ---- The calls

fn plain(rt: &impl Host, bundle: &[u8]) -> bool {
    let mut bytes = [0u8; 984];
    let verdict = judge_plain(bundle);
    let told = Listed {
        refusal: verdict.refusal,
        length: verdict.length,
        entries: 0,
    };
    let board = verdict.board;
    let kinds = board.kinds;
    let places = board.places;
    let companions = board.companions;
    write_answer(rt, told, &mut bytes, &kinds, &places, &companions)
}

fn call<'a>(
    asked: Asked,
    bundle: &'a [u8],
    new: &'a [u8],
    out: &mut [u8],
    work: &mut [u32],
    kinds: &mut [u32],
    places: &mut [usize],
    companions: &mut [usize],
    list: &mut [u32],
) -> Listed {
    if asked.op == 0 {
        return judge_numbers(bundle, work, kinds, places, companions, list);
    }
    if asked.op == 1 {
        return try_numbers(
            bundle,
            asked.k,
            asked.present,
            new,
            work,
            kinds,
            places,
            companions,
            list,
        );
    }
    make_numbers(
        bundle,
        asked.k,
        asked.present,
        new,
        out,
        work,
        kinds,
        places,
        companions,
        list,
    )
}

// A call with all of an output and of a list, and its answer.
fn answer_call<'a>(
    rt: &impl Host,
    asked: Asked,
    bundle: &'a [u8],
    new: &'a [u8],
    board: &[u8],
    out: &mut [u8],
    work: &mut [u32],
    list: &mut [u32],
    bytes: &mut [u8],
) -> bool {
    let mut kinds = [0u32; 81];
    let mut places = [0usize; 81];
    let mut companions = [0usize; 81];
    get_marks(board, &mut kinds, &mut places, &mut companions);
    let told = call(
        asked,
        bundle,
        new,
        out,
        work,
        &mut kinds,
        &mut places,
        &mut companions,
        list,
    );
    if !write_answer(rt, told, bytes, &kinds, &places, &companions) {
        return false;
    }
    if !write_part(rt, out) {
        return false;
    }
    write_list(rt, bytes, list)
}

// The same with the fronts of both, where they are long enough.
fn answer_fronts<'a>(
    rt: &impl Host,
    asked: Asked,
    bundle: &'a [u8],
    new: &'a [u8],
    board: &[u8],
    out: &mut [u8],
    work: &mut [u32],
    list: &mut [u32],
    bytes: &mut [u8],
) -> bool {
    let room = asked.room;
    if out.len() < room {
        return false;
    }
    let entries = asked.entries;
    if list.len() / 4 < entries {
        return false;
    }
    answer_call(
        rt,
        asked,
        bundle,
        new,
        board,
        &mut out[..room],
        work,
        &mut list[..4 * entries],
        bytes,
    )
}

// Reads the new bytes first.
fn answer_new(
    rt: &impl Host,
    asked: Asked,
    bundle: &[u8],
    board: &[u8],
    news: &mut [u8],
    out: &mut [u8],
    work: &mut [u32],
    list: &mut [u32],
    bytes: &mut [u8],
) -> bool {
    let n = asked.new_length;
    if !fill_front(rt, news, n) {
        return false;
    }
    let new = part(news, 0, n);
    answer_fronts(rt, asked, bundle, new, board, out, work, list, bytes)
}

// A call with a list, in a workspace with numbers in it that no file leaves there. What it owns is given back
// before the plain engine makes its own lists: all together are more than a stack of 8 MB.
fn answer_listed(rt: &impl Host, asked: Asked, bundle: &[u8], board: &[u8]) -> bool {
    // too long by one, with a bundle of 20 omitted files
    let mut news = [0u8; 1048413];
    let mut out = [0xA5u8; 20000];
    let mut work = [0xA5A5A5A5u32; 1056846];
    let mut list = [0xA5A5A5A5u32; 32768];
    let mut bytes = [0u8; 131072];
    answer_new(
        rt, asked, bundle, board, &mut news, &mut out, &mut work, &mut list, &mut bytes,
    )
}

// ---- The cases

fn asked_of(head: &[u8]) -> Asked {
    Asked {
        op: word_at(head, 0),
        k: word_at(head, 8) as usize,
        present: word_at(head, 12) == 1,
        new_length: word_at(head, 16) as usize,
        room: word_at(head, 20) as usize,
        entries: word_at(head, 24) as usize,
    }
}

// Answers the next case; whether to go on.
fn answer(rt: &impl Host, buf: &mut [u8]) -> bool {
    let mut head = [0u8; 28];
    if !fill(&mut rt.input(), &mut head) {
        return false;
    }
    let n = word_at(&head, 4) as usize;
    if !fill_front(rt, buf, n + BOARD) {
        return false;
    }
    let bundle = part(buf, 0, n);
    let asked = asked_of(&head);
    if asked.op == 3 {
        return plain(rt, bundle);
    }
    if 3 < asked.op {
        return false;
    }
    answer_listed(rt, asked, bundle, part(buf, n, n + BOARD))
}

// A proved loop has to end, and nothing says that the input does. So the loop counts its turns down, from
// a number that no run uses up.
fn answer_all(rt: &impl Host, buf: &mut [u8]) {
    let mut turns = u64::MAX;
    while turns > 0 && answer(rt, buf) {
        turns -= 1;
    }
}

fn main(rt: HostRuntime) {
    let mut buf = [0u8; 240972];
    answer_all(&rt, &mut buf);
}
