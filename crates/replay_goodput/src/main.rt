// Replays recorded answers: reads the case files that its arguments name, calls for each case the entry point that its kind names with the
// words that it lends, and compares the words that come out. `cases::line` says how a case is written; the files beside this one say what
// the words of each kind are.
#![tactic(auto)]

mod batches;
mod costs;
mod expectations;
mod signals;

ghost use Rattle.std.specs.Prelude.{◌≤◌, length};

use cases::line::Case;
use std::fs::File;

// As many cases as are run of a file.
const MOST_CASES: u64 = 1099511627776;

fn main(rt: HostRuntime) {
    let mut name = [0u8; 4096];
    for i in 1..usize::MAX {
        let Some(n) = case_files::argument(rt, i, &mut name) else {
            return;
        };
        replay_file(rt, &name[..n]);
    }
}

fn replay_file(rt: HostRuntime, name: &[u8]) {
    let Some(mut file) = case_files::open(rt, name) else {
        return;
    };
    let _ = rt.write_all(name);
    replay_in_rooms(rt, &mut file);
}

// The rooms that every case uses again: a longest line with its words, the words of an answer, and the chains of 1,026 sequences.
fn replay_in_rooms(rt: HostRuntime, file: &mut File) {
    let mut room = [0u8; 1048576];
    let mut words = [0u64; 65536];
    let mut ours = [0u64; 16384];
    let mut chains = [0.0f64; 65664];
    replay(rt, file, &mut room, &mut words, &mut ours, &mut chains);
}

// The first line says what space the cases are from; the cases follow.
fn replay(
    rt: HostRuntime,
    file: &mut File,
    room: &mut [u8],
    words: &mut [u64],
    ours: &mut [u64],
    chains: &mut [f64],
) {
    let mut counts = [0u64; 78];
    let mut end = case_files::refill(file, room, 0, 0);
    let mut at = case_files::print_line(rt, &room[..end]);
    for _ in 0..MOST_CASES {
        let case = cases::line::next(file, room, words, at, end);
        if case.kind == 0 {
            finish(rt, case, &counts);
            return;
        }
        run(case, words, ours, chains, &mut counts);
        at = case.next;
        end = case.end;
    }
}

// Prints the counts where the file is at its end.
fn finish(rt: HostRuntime, case: Case, counts: &[u64]) {
    if 0 < case.end {
        let _ = rt.write_all(b"what follows is no case\n");
        return;
    }
    signals::print(rt, counts);
    expectations::print(rt, counts);
    costs::print(rt, counts);
    batches::print(rt, counts);
    cases::tally::print_sums(rt, counts);
}

// One case more.
fn run(case: Case, words: &[u64], ours: &mut [u64], chains: &mut [f64], counts: &mut [u64]) {
    let inputs = case.inputs;
    if words.len() < inputs {
        return;
    }
    let n = answer(case.kind, &words[0..inputs], chains, ours);
    judge(case, words, &ours[0..n], counts);
}

fn judge(case: Case, words: &[u64], ours: &[u64], counts: &mut [u64]) {
    let agrees = cases::line::agrees(case, words, ours);
    let refused = 0 < cases::words::at(ours, 0);
    cases::tally::count(counts, case.kind, refused, agrees);
}

// Puts the words that the entry point of a kind answers, and says how many; a kind that there is not has none.
fn answer(kind: u8, input: &[u64], chains: &mut [f64], ours: &mut [u64]) -> usize
    ensures { result ≤ length ours.new }
{
    if batches::is_batch(kind) {
        return batches::batch(kind, input, chains, ours);
    }
    if costs::is_price(kind) {
        return costs::price(kind, input, ours);
    }
    if expectations::is_expectation(kind) {
        return expectations::expectation(kind, input, ours);
    }
    signals::signal(kind, input, ours)
}
