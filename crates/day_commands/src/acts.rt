// The other commands that may change what the planner holds: a collection and a withdrawal.
use day_turns::turns::Turn;
use day_turns::{turns, values};

pub fn collect(
    turn: Turn,
    line: &[u8],
    storage: &mut [u64],
    clock: &mut [u64],
    page: &mut [u8],
) -> Turn {
    let a = values::whole(line, 1);
    let b = values::whole(line, 2);
    note_change(is_held(storage, a, b), clock);
    match planner::collect(storage, a, b) {
        Ok(seconds) => collected(turn, seconds, page),
        Err(refusal) => turns::refused(turn, refusal, page),
    }
}

fn is_held(storage: &[u64], a: u64, b: u64) -> bool {
    matches!(ledger::worker(storage, a, b), Ok(Some(_)))
}

// Collecting from a worker that is held is a change, which a withdrawal takes back as it does a plan.
fn note_change(held: bool, clock: &mut [u64]) {
    if held {
        day_clock::changed(clock);
    }
}

fn collected(turn: Turn, seconds: f64, page: &mut [u8]) -> Turn {
    let at = page::make_room(turn.rt, page, turn.used);
    let used = series_lines::collect(page, at, turn.number, seconds);
    turns::done(turn, used)
}

pub fn withdraw(turn: Turn, storage: &mut [u64], clock: &mut [u64], page: &mut [u8]) -> Turn {
    match planner::withdraw(storage) {
        Ok(()) => {
            day_clock::taken_back(clock);
            withdrawn(turn, page)
        }
        Err(refusal) => turns::refused(turn, refusal, page),
    }
}

fn withdrawn(turn: Turn, page: &mut [u8]) -> Turn {
    let at = page::make_room(turn.rt, page, turn.used);
    let used = shown::withdrawn(page, at, turn.number);
    turns::done(turn, used)
}
