// Replays recorded answers: reads the case files that its arguments name, makes the calls of each case on one storage, and compares what
// each answers and what can be read after it. `cases::line` says how a case is written; sequence.rt and calls.rt say what its words are.
#![tactic(auto)]

mod calls;
mod digest;
mod many;
mod sequence;

use cases::line::Case;
use cases::tally;
use std::fs::File;

// As many cases as are run of a file.
const MOST_CASES: u64 = 1099511627776;

fn main(rt: HostRuntime) {
    let mut name = [0u8; 4096];
    for i in 1..usize::MAX {
        let Some(n) = case_files::argument(rt, i, &mut name) else {
            return;
        };
        replay_file(rt, &name[..n]);
    }
}

fn replay_file(rt: HostRuntime, name: &[u8]) {
    let Some(mut file) = case_files::open(rt, name) else {
        return;
    };
    let _ = rt.write_all(name);
    replay_in_rooms(rt, &mut file);
}

// The rooms that every case uses again: a longest line with its words, and the words of an answer.
fn replay_in_rooms(rt: HostRuntime, file: &mut File) {
    let mut room = [0u8; 1048576];
    let mut words = [0u64; 65536];
    let mut ours = [0u64; 4096];
    replay(rt, file, &mut room, &mut words, &mut ours);
}

// The first line says what space the cases are from; the cases follow.
fn replay(rt: HostRuntime, file: &mut File, room: &mut [u8], words: &mut [u64], ours: &mut [u64]) {
    let mut counts = [0u64; 78];
    let mut made = [0u64; 2];
    let mut end = case_files::refill(file, room, 0, 0);
    let mut at = case_files::print_line(rt, &room[..end]);
    for _ in 0..MOST_CASES {
        let case = cases::line::next(file, room, words, at, end);
        if case.kind == 0 {
            finish(rt, case, &counts, &made);
            return;
        }
        run(case, words, ours, &mut counts, &mut made);
        at = case.next;
        end = case.end;
    }
}

// Prints the counts where the file is at its end.
fn finish(rt: HostRuntime, case: Case, counts: &[u64], made: &[u64]) {
    if 0 < case.end {
        let _ = rt.write_all(b"what follows is no case\n");
        return;
    }
    tally::print_kind(rt, counts, b's', b"short sequences");
    tally::print_kind(rt, counts, b'l', b"long sequences");
    tally::print_kind(rt, counts, b'n', b"no room");
    tally::print_kind(rt, counts, b'f', b"full storages");
    calls::print(rt, made);
    tally::print_sums(rt, counts);
}

// One case more.
fn run(case: Case, words: &[u64], ours: &mut [u64], counts: &mut [u64], made: &mut [u64]) {
    let inputs = case.inputs;
    if words.len() < inputs {
        return;
    }
    let n = sequence::play(&words[0..inputs], ours);
    judge(case, words, &ours[0..n], counts, made);
}

// A sequence counts as refused where its first call is.
fn judge(case: Case, words: &[u64], ours: &[u64], counts: &mut [u64], made: &mut [u64]) {
    let agrees = cases::line::agrees(case, words, ours);
    let refused = 0 < cases::words::at(ours, 0);
    tally::count(counts, case.kind, refused, agrees);
    calls::count(ours, made);
}
