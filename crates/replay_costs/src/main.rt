// Replays recorded answers: reads the case files that its arguments name, calls for each case the entry point that its kind names with the
// words that it lends, and compares the words that come out. `cases::line` says how a case is written; the files beside this one say what
// the words of each kind are.
#![tactic(auto)]

mod decisions;
mod drafters;
mod kinds;
mod lookups;
mod tables;

ghost use Rattle.std.specs.Prelude.{◌≤◌, length};

use cases::line::Case;
use std::fs::File;

// As many cases as are run of a file.
const MOST_CASES: u64 = 1099511627776;

fn main(rt: HostRuntime) {
    let mut name = [0u8; 4096];
    for i in 1..usize::MAX {
        let Some(n) = case_files::argument(rt, i, &mut name) else {
            return;
        };
        replay_file(rt, &name[..n]);
    }
}

fn replay_file(rt: HostRuntime, name: &[u8]) {
    let Some(mut file) = case_files::open(rt, name) else {
        return;
    };
    let _ = rt.write_all(name);
    replay_in_rooms(rt, &mut file);
}

// The rooms that every case uses again: a longest line with its words, the words of an answer, a text, and three columns.
fn replay_in_rooms(rt: HostRuntime, file: &mut File) {
    let mut room = [0u8; 1048576];
    let mut words = [0u64; 65536];
    let mut ours = [0u64; 16384];
    let mut text = [0u8; 262144];
    let mut first = [0u32; 4160];
    let mut second = [0u32; 4160];
    let mut floats = [0.0f64; 4160];
    replay(
        rt,
        file,
        &mut room,
        &mut words,
        &mut ours,
        &mut text,
        &mut first,
        &mut second,
        &mut floats,
    );
}

// The first line says what space the cases are from; the cases follow.
fn replay(
    rt: HostRuntime,
    file: &mut File,
    room: &mut [u8],
    words: &mut [u64],
    ours: &mut [u64],
    text: &mut [u8],
    first: &mut [u32],
    second: &mut [u32],
    floats: &mut [f64],
) {
    let mut counts = [0u64; 78];
    let mut end = case_files::refill(file, room, 0, 0);
    let mut at = case_files::print_line(rt, &room[..end]);
    for _ in 0..MOST_CASES {
        let case = cases::line::next(file, room, words, at, end);
        if case.kind == 0 {
            finish(rt, case, &counts);
            return;
        }
        run(case, words, ours, text, first, second, floats, &mut counts);
        at = case.next;
        end = case.end;
    }
}

// Prints the counts where the file is at its end.
fn finish(rt: HostRuntime, case: Case, counts: &[u64]) {
    if 0 < case.end {
        let _ = rt.write_all(b"what follows is no case\n");
        return;
    }
    tables::print(rt, counts);
    lookups::print(rt, counts);
    drafters::print(rt, counts);
    decisions::print(rt, counts);
    cases::tally::print_sums(rt, counts);
}

// One case more.
fn run(
    case: Case,
    words: &[u64],
    ours: &mut [u64],
    text: &mut [u8],
    first: &mut [u32],
    second: &mut [u32],
    floats: &mut [f64],
    counts: &mut [u64],
) {
    let inputs = case.inputs;
    if words.len() < inputs {
        return;
    }
    let n = answer(
        case.kind,
        &words[0..inputs],
        text,
        first,
        second,
        floats,
        ours,
    );
    judge(case, words, &ours[0..n], counts);
}

fn judge(case: Case, words: &[u64], ours: &[u64], counts: &mut [u64]) {
    let agrees = cases::line::agrees(case, words, ours);
    let refused = 0 < cases::words::at(ours, 0);
    cases::tally::count(counts, case.kind, refused, agrees);
}

// Puts the words that the entry point of a kind answers, and says how many; a kind that there is not has none.
fn answer(
    kind: u8,
    input: &[u64],
    text: &mut [u8],
    first: &mut [u32],
    second: &mut [u32],
    floats: &mut [f64],
    ours: &mut [u64],
) -> usize
    ensures { result ≤ length ours.new }
{
    if kind == b't' {
        return tables::read(input, text, first, second, floats, ours);
    }
    if lookups::is_lookup(kind) {
        return lookups::lookup(kind, input, first, second, floats, ours);
    }
    if drafters::is_cost(kind) {
        return drafters::cost(kind, input, first, floats, ours);
    }
    if decisions::is_decision(kind) {
        return decisions::decision(kind, input, first, floats, ours);
    }
    settings(kind, input, ours)
}

// The kinds that lend numbers alone.
fn settings(kind: u8, input: &[u64], ours: &mut [u64]) -> usize
    ensures { result ≤ length ours.new }
{
    if drafters::is_setting(kind) {
        return drafters::setting(kind, input, ours);
    }
    decisions::setting(kind, input, ours)
}
