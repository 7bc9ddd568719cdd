// Replays recorded answers: reads the case files that its arguments name, reads each case's text anew, and compares by bits.
// A case is a line `KIND ANSWER RUST LENGTH TEXT`: what the rules say of the text and what the Rust answers, 16 bytes each.
#![tactic(auto)]

mod column;
mod tally;

ghost use Rattle.std.specs.Prelude.{◌≤◌, ◌<◌, length, IfSome};

use column::Column;
use std::fs::File;
use tally::Tally;

// A case without its text: the four columns, the spaces behind them and the line's end.
const COLUMNS: usize = 41;

// As often as this the room is filled: a file of 4 TB.
const FILLINGS: u64 = 67108864;

// The cases of a room that were run, and where the first that is not whole starts.
#[derive(Clone, Copy)]
struct Run {
    tally: Tally,
    end: usize,
}

fn main(rt: HostRuntime) {
    let mut name = [0u8; 4096];
    for i in 1..usize::MAX {
        let Some(n) = case_files::argument(rt, i, &mut name) else {
            return;
        };
        replay_file(rt, &name[..n]);
    }
}

fn replay_file(rt: HostRuntime, name: &[u8]) {
    let Some(mut file) = case_files::open(rt, name) else {
        return;
    };
    let _ = rt.write_all(name);
    let mut room = [0u8; 65536];
    replay(rt, &mut file, &mut room);
}

// The first line says what space the cases are from; the cases follow.
fn replay(rt: HostRuntime, file: &mut File, room: &mut [u8]) {
    let mut end = case_files::refill(file, room, 0, 0);
    let mut at = case_files::print_line(rt, &room[..end]);
    let mut tally = Tally::default();
    for _ in 0..FILLINGS {
        end = case_files::refill(file, room, at, end);
        if end == 0 {
            tally.print(rt);
            return;
        }
        let run = cases_in(tally, &room[..end]);
        tally = run.tally;
        at = run.end;
        if at == 0 {
            let _ = rt.write_all(b"what follows is no case\n");
            return;
        }
    }
}

// Runs the whole cases that the bytes start with.
fn cases_in(tally: Tally, bytes: &[u8]) -> Run {
    let mut so_far = tally;
    let mut at = 0usize;
    // No index is counted: each turn goes on by a case's own size.
    while let Some(size) = case_size(&bytes[at..]) {
        let next = at + size;
        so_far = case_in(so_far, &bytes[at..next]);
        at = next;
    }
    Run {
        tally: so_far,
        end: at,
    }
}

// How many bytes the case has that the bytes start with, where they start with one.
fn case_size(bytes: &[u8]) -> Option<usize>
    ensures { IfSome result (λ size. (0 < size) × (size ≤ length bytes.now)) }
{
    if bytes.len() < COLUMNS {
        return None;
    }
    let length = numeral::whole(&bytes[36..39]).ok()?;
    let size = COLUMNS + length as usize;
    if size <= bytes.len() && bytes[size - 1] == b'\n' {
        Some(size)
    } else {
        None
    }
}

// The tally with one case more.
fn case_in(tally: Tally, case: &[u8]) -> Tally {
    if case.len() < COLUMNS {
        return tally;
    }
    let kind = case[0];
    let end = case.len() - 1;
    let ours = column::of_text(kind, &case[40..end]);
    tally
        .counted(kind)
        .compared(ours, &case[2..18], &case[19..35])
}
