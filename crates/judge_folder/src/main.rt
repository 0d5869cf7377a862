// Judges the set of files in a folder, by document 01's gate, with --baseline by the baseline profile or
// with --contract by the contract side's gate, and prints its marks as the programs `judge`,
// `judge_baseline` and `judge_contract` do.
#![tactic(auto)]

use folder::{argument, gather};
use gate_lists::Which;
use gate_option::{Asked, asked_by};
use parts::part;
use program_io::{Host, argument_count, argument_in, complain, print};

fn what_is_asked(rt: &impl Host) -> Asked {
    let mut first = [0u8; 16];
    let n = argument_in(rt, 1, &mut first);
    asked_by(argument_count(rt), part(&first, 0, n))
}

fn print_schedule(rt: &impl Host, bundle: &[u8]) {
    let mut text = [0u8; 6144];
    let verdict = gate::judge(bundle);
    let board = verdict.board;
    let n = board::report_board(verdict.refusal, board, &mut text);
    print(rt, part(&text, 0, n));
}

fn print_baseline(rt: &impl Host, bundle: &[u8]) {
    let mut text = [0u8; 6400];
    let verdict = gate_baseline::judge(bundle);
    let board = verdict.board;
    let n = gate_baseline::report_board(verdict.refusal, board, &mut text);
    print(rt, part(&text, 0, n));
}

fn print_contract(rt: &impl Host, bundle: &[u8]) {
    let mut text = [0u8; 2176];
    let verdict = gate_contract::judge(bundle);
    let board = verdict.board;
    let n = gate_contract::report_board(verdict.refusal, board, &mut text);
    print(rt, part(&text, 0, n));
}

fn print_judgement(rt: &impl Host, which: Which, bundle: &[u8]) {
    match which {
        Which::Schedule => print_schedule(rt, bundle),
        Which::Baseline => print_baseline(rt, bundle),
        Which::Contract => print_contract(rt, bundle),
    }
}

// Judges the folder that an argument names, with memory for a file and for two bundles.
fn judge_folder(
    rt: &impl Host,
    which: Which,
    named: usize,
    file: &mut [u8],
    bundle: &mut [u8],
    other: &mut [u8],
) {
    let mut path = [0u8; 4096];
    let folder = argument(rt, named, &mut path);
    if folder == 0 {
        return;
    }
    let n = gather(rt, which, &mut path, folder, file, bundle, other);
    if n == 0 {
        return;
    }
    print_judgement(rt, which, part(bundle, 0, n));
}

// The same with memory of its own.
fn judge_with_memory(rt: &impl Host, which: Which, named: usize) {
    let mut file = [0u8; 1048577];
    let mut bundle = [0u8; 1048577];
    let mut other = [0u8; 1048577];
    judge_folder(rt, which, named, &mut file, &mut bundle, &mut other);
}

fn usage(rt: &impl Host) {
    complain(
        rt,
        b"usage",
        b"judge_folder [--baseline | --contract] FOLDER",
    );
    complain(
        rt,
        b"FOLDER",
        b"holds the files of the set under their own names, FileType.txt and so on; one that is missing is omitted",
    );
}

fn main(rt: HostRuntime) {
    match what_is_asked(&rt) {
        Asked::Of { which, named } => judge_with_memory(&rt, which, named),
        Asked::Unclear => usage(&rt),
    }
}
