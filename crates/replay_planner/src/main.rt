// Replays recorded answers: reads the case files that its arguments name, makes the calls of each case on one storage, and compares what
// each answers and leaves. `cases::line` says how a case is written; turns.rt, `plan_lent` and `planner_calls` say what its words are.
#![tactic(auto)]

mod turns;

use cases::line::Case;
use cases::{tally, words};
use std::fs::File;
use std::num::wrapping_add_u64;

// As many cases as are run of a file.
const MOST_CASES: u64 = 1099511627776;

fn main(rt: HostRuntime) {
    let mut name = [0u8; 4096];
    for i in 1..usize::MAX {
        let Some(n) = case_files::argument(rt, i, &mut name) else {
            return;
        };
        replay_file(rt, &name[..n]);
    }
}

fn replay_file(rt: HostRuntime, name: &[u8]) {
    let Some(mut file) = case_files::open(rt, name) else {
        return;
    };
    let _ = rt.write_all(name);
    replay_in_rooms(rt, &mut file);
}

// The rooms that every case uses again: a longest line with its words, the words of an answer, and the lists that plans are lent.
fn replay_in_rooms(rt: HostRuntime, file: &mut File) {
    let mut room = [0u8; 1048576];
    let mut words = [0u64; 65536];
    let mut ours = [0u64; 16384];
    let mut floats = [0.0f64; 262144];
    let mut wholes = [0u32; 75776];
    replay(
        rt,
        file,
        &mut room,
        &mut words,
        &mut ours,
        &mut floats,
        &mut wholes,
    );
}

// The first line says what space the cases are from; the cases follow.
fn replay(
    rt: HostRuntime,
    file: &mut File,
    room: &mut [u8],
    words: &mut [u64],
    ours: &mut [u64],
    floats: &mut [f64],
    wholes: &mut [u32],
) {
    let mut counts = [0u64; 80];
    let mut end = case_files::refill(file, room, 0, 0);
    let mut at = case_files::print_line(rt, &room[..end]);
    for _ in 0..MOST_CASES {
        let case = cases::line::next(file, room, words, at, end);
        if case.kind == 0 {
            finish(rt, case, &counts);
            return;
        }
        run(case, words, ours, floats, wholes, &mut counts);
        at = case.next;
        end = case.end;
    }
}

// Prints the counts where the file is at its end.
fn finish(rt: HostRuntime, case: Case, counts: &[u64]) {
    if 0 < case.end {
        let _ = rt.write_all(b"what follows is no case\n");
        return;
    }
    if counts.len() < 80 {
        return;
    }
    tally::print_kind(rt, counts, b'p', b"whole planners");
    tally::print_kind(rt, counts, b'd', b"planners with damaged plans");
    tally::print_kind(rt, counts, b'f', b"full planners");
    tally::print_kind(rt, counts, b's', b"planners whose widths settle");
    print_plans(rt, words::at(counts, 78), words::at(counts, 79));
    tally::print_sums(rt, &counts[0..78]);
}

fn print_plans(rt: HostRuntime, made: u64, refused: u64) {
    let _ = println!(rt; "plans {made}, refused {refused}");
}

// One case more.
fn run(
    case: Case,
    words: &[u64],
    ours: &mut [u64],
    floats: &mut [f64],
    wholes: &mut [u32],
    counts: &mut [u64],
) {
    let inputs = case.inputs;
    if words.len() < inputs {
        return;
    }
    let n = turns::play(&words[0..inputs], floats, wholes, ours);
    judge(case, words, &ours[0..n], counts);
}

// A case counts as refused where one of its plans is. Behind the counts of the kinds stand those of the plans and of the refused ones.
fn judge(case: Case, words: &[u64], ours: &[u64], counts: &mut [u64]) {
    let agrees = cases::line::agrees(case, words, ours);
    let refused = words::at(ours, 1);
    tally::count(counts, case.kind, 0 < refused, agrees);
    add(counts, 78, words::at(ours, 0));
    add(counts, 79, refused);
}

fn add(counts: &mut [u64], place: usize, more: u64) {
    if place < counts.len() {
        counts[place] = wrapping_add_u64(counts[place], more);
    }
}
