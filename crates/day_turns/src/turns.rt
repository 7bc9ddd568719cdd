// Where the program stands behind a line: which line of the day file it is, how far the page is used, and how it went so far. What is told of
// a line goes to the page by one of these.

use day_shapes::{Expected, WrongField};
use refusals::{Refusal, RefusedRow};

// The status is 0 where every line was carried out, 1 where one was refused or wrong, 2 where a file could not be read. `rt` is the way to
// the system: a full page is written out by it.
#[derive(Clone, Copy)]
pub struct Turn {
    pub rt: HostRuntime,
    pub number: u64,
    pub used: usize,
    pub status: u64,
}

// Before the first line.
pub fn first(rt: HostRuntime) -> Turn {
    Turn {
        rt,
        number: 0,
        used: 0,
        status: 0,
    }
}

// At the line behind.
pub fn next(turn: Turn) -> Turn {
    Turn {
        number: std::num::wrapping_add_u64(turn.number, 1),
        ..turn
    }
}

// Where the page is used up to here.
pub fn done(turn: Turn, used: usize) -> Turn {
    Turn { used, ..turn }
}

// The same where something did not go well.
fn amiss(turn: Turn, used: usize, status: u64) -> Turn {
    let status = worse(turn.status, status);
    Turn {
        used,
        status,
        ..turn
    }
}

// The worse of two states.
pub fn worse(a: u64, b: u64) -> u64 {
    a.max(b)
}

// A line that set something.
pub fn set(turn: Turn, line: &[u8], page: &mut [u8]) -> Turn {
    let at = page::make_room(turn.rt, page, turn.used);
    let used = shown::setting(page, at, turn.number, day_line::field(line, 0));
    done(turn, used)
}

// A refusal of a call, which has no row.
pub fn refused(turn: Turn, refusal: Refusal, page: &mut [u8]) -> Turn {
    refused_by(turn, refusal.number(), 0, page)
}

// A refusal of a text, with its row.
pub fn refused_at(turn: Turn, refused: RefusedRow, page: &mut [u8]) -> Turn {
    refused_by(turn, refused.refusal.number(), refused.row, page)
}

// A refusal by its number, and its row.
pub fn refused_by(turn: Turn, number: u64, row: u64, page: &mut [u8]) -> Turn {
    let at = page::make_room(turn.rt, page, turn.used);
    let used = shown::refusal(page, at, turn.number, number, row);
    amiss(turn, used, 1)
}

// A line whose field is not what was expected there.
pub fn wrong(turn: Turn, wrong: WrongField, page: &mut [u8]) -> Turn {
    let at = page::make_room(turn.rt, page, turn.used);
    let used = shown::wrong(page, at, turn.number, wrong.field, wrong.expected.number());
    amiss(turn, used, 1)
}

// A line whose second field is none of the names that it may be.
pub fn unnamed(turn: Turn, page: &mut [u8]) -> Turn {
    let second = WrongField {
        field: 1,
        expected: Expected::OneOfTheNames,
    };
    wrong(turn, second, page)
}

// A file that cannot be read.
pub fn unreadable(turn: Turn, name: &[u8], page: &mut [u8]) -> Turn {
    let at = page::make_room(turn.rt, page, turn.used);
    let used = shown::unreadable(page, at, turn.number, name);
    amiss(turn, used, 2)
}

// The name of a day file, on a line of its own.
pub fn named(turn: Turn, name: &[u8], page: &mut [u8]) -> Turn {
    let at = page::make_room(turn.rt, page, turn.used);
    let end = page::append(page, at, name);
    let used = page::append(page, end, b"\n");
    done(turn, used)
}
