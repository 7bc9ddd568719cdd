// Replays recorded answers: reads the case files that its arguments name, reads each case's bank or asks its model anew, and compares
// answers and buffers by bits. A case is a line that starts with its kind and two or four columns of 16 bytes: trace.rt and model.rt say
// more.
#![tactic(auto)]

mod column;
mod model;
mod tally;
mod trace;
mod words;

ghost use Rattle.std.specs.Prelude.{◌≤◌, length};

use std::fs::File;
use tally::Tally;

// A case without its text or its words. A model has at least five words and a value four, so no case is shorter than the first.
const BANK_COLUMNS: usize = 97;

const MODEL_COLUMNS: usize = 77;

const VALUE_COLUMNS: usize = 43;

// As often as this the room is filled: a file of 16 TB.
const FILLINGS: u64 = 67108864;

// The cases of a room that were run, and where the first that is not whole starts.
#[derive(Clone, Copy)]
struct Run {
    tally: Tally,
    end: usize,
}

fn main(rt: HostRuntime) {
    let mut name = [0u8; 4096];
    for i in 1..usize::MAX {
        let Some(n) = case_files::argument(rt, i, &mut name) else {
            return;
        };
        replay_file(rt, &name[..n]);
    }
}

fn replay_file(rt: HostRuntime, name: &[u8]) {
    let Some(mut file) = case_files::open(rt, name) else {
        return;
    };
    let _ = rt.write_all(name);
    let mut room = [0u8; 262144];
    replay(rt, &mut file, &mut room);
}

// The first line says what space the cases are from; the cases follow.
fn replay(rt: HostRuntime, file: &mut File, room: &mut [u8]) {
    let mut end = case_files::refill(file, room, 0, 0);
    let mut at = case_files::print_line(rt, &room[..end]);
    let mut tally = Tally::default();
    for _ in 0..FILLINGS {
        end = case_files::refill(file, room, at, end);
        if end == 0 {
            tally.print(rt);
            return;
        }
        let run = cases_in(tally, &room[..end]);
        tally = run.tally;
        at = run.end;
        if at == 0 {
            let _ = rt.write_all(b"what follows is no case\n");
            return;
        }
    }
}

// Runs the whole cases that the bytes start with.
fn cases_in(tally: Tally, bytes: &[u8]) -> Run {
    let mut so_far = tally;
    let mut at = 0usize;
    // no index is counted: each turn goes on behind a case
    while at < bytes.len() {
        let size = case_size(&bytes[at..]);
        if size == 0 {
            return Run {
                tally: so_far,
                end: at,
            };
        }
        let next = at + size;
        so_far = case_in(so_far, &bytes[at..next]);
        at = next;
    }
    Run {
        tally: so_far,
        end: at,
    }
}

// How many bytes the case has that the bytes start with, and 0 where they start with none.
fn case_size(bytes: &[u8]) -> usize
    ensures { result ≤ length bytes.now }
{
    if bytes.len() < BANK_COLUMNS {
        return 0;
    }
    match bytes[0] {
        b'b' => size_with(bytes, &bytes[88..95], BANK_COLUMNS),
        b'm' => size_with(bytes, &bytes[70..75], MODEL_COLUMNS),
        b'a' => size_with(bytes, &bytes[36..41], VALUE_COLUMNS),
        _ => 0,
    }
}

// The same, where the digits say how much the case has besides its columns.
fn size_with(bytes: &[u8], digits: &[u8], columns: usize) -> usize
    requires { (1 ≤ columns) × (columns ≤ 97) }
    ensures { result ≤ length bytes.now }
{
    let Ok(n) = numeral::whole(digits) else {
        return 0;
    };
    let size = columns + n as usize;
    if size <= bytes.len() && bytes[size - 1] == b'\n' {
        size
    } else {
        0
    }
}

// The tally with one case more.
fn case_in(tally: Tally, case: &[u8]) -> Tally {
    if case.len() < BANK_COLUMNS {
        return tally;
    }
    match case[0] {
        b'b' => bank_in(tally, case),
        b'a' => value_in(tally, case),
        _ => model_in(tally, case),
    }
}

// The columns are ANSWER, SUM1, SUM2 and RUST.
fn bank_in(tally: Tally, case: &[u8]) -> Tally
    requires { 97 ≤ length case.now }
{
    let end = case.len() - 1;
    let run = trace::run(&case[96..end], &case[70..75], &case[76..81], &case[82..87]);
    let answer = run.answer;
    let sums = run.sums;
    let rust = &case[53..69];
    let agrees = answer.agrees(&case[2..18], rust);
    let left = column::are_sums(sums, &case[19..35], &case[36..52]);
    tally
        .bank(answer.is_value, column::is_answer(rust))
        .judged(agrees && left)
}

// The columns are EXPECTED and SAMPLE, and the Rust's of both.
fn model_in(tally: Tally, case: &[u8]) -> Tally
    requires { 97 ≤ length case.now }
{
    let end = case.len() - 1;
    let run = model::run(&case[76..end]);
    let expected = run.expected;
    let sample = run.sample;
    let first = expected.agrees(&case[2..18], &case[36..52]);
    let second = sample.agrees(&case[19..35], &case[53..69]);
    tally
        .model(expected.is_value, sample.is_value)
        .judged(first && second)
}

// The columns are VALUE and RUST.
fn value_in(tally: Tally, case: &[u8]) -> Tally
    requires { 97 ≤ length case.now }
{
    let end = case.len() - 1;
    let value = model::value(&case[42..end]);
    let agrees = value.agrees(&case[2..18], &case[19..35]);
    tally.value().judged(agrees)
}
