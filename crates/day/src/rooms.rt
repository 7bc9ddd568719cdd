// Whether a day needs the large rooms: the small ones take a day file and files named in it of so many bytes each.
use crate::fronts;
use day_names::{AcceptanceName, Command};
use day_turns::files;

// A bank of so many bytes has at most half as many signals, for which the small rooms have place.
pub const SMALL: i64 = 262144;

// Whether the day file that an argument names, or a file that it names, is too long for the small rooms.
pub fn is_large(rt: HostRuntime, which: usize) -> bool {
    let mut path = [0u8; 4096];
    match case_files::argument(rt, which, &mut path) {
        Some(n) => is_large_day(rt, &path[..n]),
        None => false,
    }
}

// One that cannot be opened is told of where it is run.
fn is_large_day(rt: HostRuntime, path: &[u8]) -> bool {
    if files::is_longer(rt, path, SMALL) {
        return true;
    }
    if !files::is_longer(rt, path, -1) {
        return false;
    }
    let mut room = [0u8; 262144];
    reads_large(rt, path, &mut room)
}

fn reads_large(rt: HostRuntime, path: &[u8], room: &mut [u8]) -> bool {
    match files::read(rt, path, room) {
        Some(bytes) => names_large(rt, path, &room[..bytes]),
        None => false,
    }
}

fn names_large(rt: HostRuntime, path: &[u8], day: &[u8]) -> bool {
    let mut rest = day;
    // no index is counted: each turn takes the rest behind a line
    while 0 < rest.len() {
        let line = fronts::front(rest);
        let stop = line.stop;
        let next = line.next;
        if line_names_large(rt, path, &rest[0..stop]) {
            return true;
        }
        rest = &rest[next..];
    }
    false
}

fn line_names_large(rt: HostRuntime, path: &[u8], line: &[u8]) -> bool {
    match day_names::command_of(line) {
        Some(Command::Table) => files::is_longer_beside(rt, path, day_line::field(line, 1), SMALL),
        Some(Command::Acceptance) => acceptance_names_large(rt, path, line),
        _ => false,
    }
}

fn acceptance_names_large(rt: HostRuntime, path: &[u8], line: &[u8]) -> bool {
    match day_names::acceptance_of(day_line::field(line, 1)) {
        Some(AcceptanceName::Trace) => {
            files::is_longer_beside(rt, path, day_line::field(line, 2), SMALL)
        }
        _ => false,
    }
}
