// A day file run from its first line to its last, from a fresh planner.
use crate::fronts;
use day_commands::commands;
use day_turns::turns::Turn;
use day_turns::{files, turns};
use std::env::{Env, FillError};

// Runs the day file that an argument names, in these rooms, and answers how it went.
pub fn argument(
    rt: HostRuntime,
    which: usize,
    named: bool,
    day: &mut [u8],
    file: &mut [u8],
    floats: &mut [f64],
    wholes: &mut [u32],
) -> u64 {
    let mut path = [0u8; 4096];
    match rt.arg(which, &mut path) {
        Ok(n) => fresh(rt, &path[..n], named, day, file, floats, wholes),
        Err(FillError::TooLong) => unnamed(rt, "File name too long"),
        Err(FillError::NotPresent) => unnamed(rt, "Invalid argument"),
    }
}

// An argument that is no path. Standard error has why.
fn unnamed(rt: HostRuntime, why: &str) -> u64 {
    case_files::tell(rt, b"day file", why);
    2
}

// Nothing is held, and every setting is 0: gamma 0, Fixed, constant acceptance 0, no drafter, no limits on switching, no rates, no prices,
// and the default price mode.
fn fresh(
    rt: HostRuntime,
    path: &[u8],
    named: bool,
    day: &mut [u8],
    file: &mut [u8],
    floats: &mut [f64],
    wholes: &mut [u32],
) -> u64 {
    let mut storage = [0u64; 22468];
    let mut set = [0u64; 33];
    let mut clock = [0u64; 66];
    let mut page = [0u8; 65536];
    // The words are enough, so that it is not refused.
    let _ = ledger::fresh(&mut storage);
    day_file(
        rt,
        path,
        named,
        day,
        file,
        floats,
        wholes,
        &mut storage,
        &mut set,
        &mut clock,
        &mut page,
    )
}

fn day_file(
    rt: HostRuntime,
    path: &[u8],
    named: bool,
    day: &mut [u8],
    file: &mut [u8],
    floats: &mut [f64],
    wholes: &mut [u32],
    storage: &mut [u64],
    set: &mut [u64],
    clock: &mut [u64],
    page: &mut [u8],
) -> u64 {
    let start = start(rt, path, named, page);
    let turn = match files::read(rt, path, day) {
        Some(bytes) => lines(
            start,
            path,
            &day[..bytes],
            set,
            floats,
            wholes,
            storage,
            clock,
            file,
            page,
        ),
        None => turns::unreadable(start, path, page),
    };
    finish(turn, page)
}

// The day file's name goes first where there are several.
fn start(rt: HostRuntime, path: &[u8], named: bool, page: &mut [u8]) -> Turn {
    if named {
        turns::named(turns::first(rt), path, page)
    } else {
        turns::first(rt)
    }
}

fn lines(
    start: Turn,
    path: &[u8],
    day: &[u8],
    set: &mut [u64],
    floats: &mut [f64],
    wholes: &mut [u32],
    storage: &mut [u64],
    clock: &mut [u64],
    file: &mut [u8],
    page: &mut [u8],
) -> Turn {
    let mut turn = start;
    let mut rest = day;
    // no index is counted: each turn takes the rest behind a line
    while 0 < rest.len() {
        let line = fronts::front(rest);
        let stop = line.stop;
        let next = line.next;
        turn = commands::run(
            turns::next(turn),
            path,
            &rest[0..stop],
            set,
            floats,
            wholes,
            storage,
            clock,
            file,
            page,
        );
        rest = &rest[next..];
    }
    turn
}

// Writes out what is left on the page: where that fails the day did not go well.
fn finish(turn: Turn, page: &[u8]) -> u64 {
    if page::write_out(turn.rt, page, turn.used) {
        turn.status
    } else {
        2
    }
}
