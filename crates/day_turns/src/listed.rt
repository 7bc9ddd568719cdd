// The commands that set a list which stands on the line, and the lists that a plan brings.
use crate::turns;
use crate::turns::Turn;
use day_lists::NoList;
use day_shapes::{Expected, WrongField};
use plan_lent::{lists, registers};
use std::num::wrapping_add_u64;

// The lists by their numbers, as `plan_lent` has them.
const POSITIONS: usize = 0;

const ROOFLINE: usize = 1;

const LOADED: usize = 5;

const DRAWS: usize = 9;

const INDICES: usize = 10;

// A chance of its own for each position.
pub fn per_position(
    turn: Turn,
    line: &[u8],
    set: &mut [u64],
    floats: &mut [f64],
    page: &mut [u8],
) -> Turn {
    match decimals(line, 2, POSITIONS, set, floats) {
        Ok(()) => {
            registers::put(set, 10, 1);
            turns::set(turn, line, page)
        }
        Err(wrong) => turns::wrong(turn, wrong, page),
    }
}

// Prices by draft depth; a table is then no longer the source.
pub fn roofline(
    turn: Turn,
    line: &[u8],
    set: &mut [u64],
    floats: &mut [f64],
    page: &mut [u8],
) -> Turn {
    match decimals(line, 1, ROOFLINE, set, floats) {
        Ok(()) => {
            registers::put(set, 17, 0);
            turns::set(turn, line, page)
        }
        Err(wrong) => turns::wrong(turn, wrong, page),
    }
}

// Loaded experts by batch.
pub fn loaded(
    turn: Turn,
    line: &[u8],
    set: &mut [u64],
    floats: &mut [f64],
    page: &mut [u8],
) -> Turn {
    match decimals(line, 1, LOADED, set, floats) {
        Ok(()) => turns::set(turn, line, page),
        Err(wrong) => turns::wrong(turn, wrong, page),
    }
}

// The draws of a plan, or its round indices where the model is a trace.
pub fn rounds(
    line: &[u8],
    set: &mut [u64],
    floats: &mut [f64],
    wholes: &mut [u32],
) -> Result<(), WrongField> {
    if cases::words::at(set, 10) == 2 {
        return indices(line, set, wholes);
    }
    decimals(line, 5, DRAWS, set, floats)
}

// Reads the decimals from a field on into their list.
fn decimals(
    line: &[u8],
    from: usize,
    list: usize,
    set: &mut [u64],
    floats: &mut [f64],
) -> Result<(), WrongField> {
    let part = lists::place_of(list, floats.len());
    let start = part.start;
    let end = part.end;
    let read = day_lists::read_decimals(line, from, &mut floats[start..end]);
    keep(read, from, end - start, list, set)
}

fn indices(line: &[u8], set: &mut [u64], wholes: &mut [u32]) -> Result<(), WrongField> {
    let part = lists::place_of(INDICES, wholes.len());
    let start = part.start;
    let end = part.end;
    let read = day_lists::read_wholes(line, 5, &mut wholes[start..end]);
    keep(read, 5, end - start, INDICES, set)
}

// Keeps how long a list is that was read; one that is too long for its room has too many fields.
fn keep(
    read: Result<u64, NoList>,
    from: usize,
    room: usize,
    list: usize,
    set: &mut [u64],
) -> Result<(), WrongField> {
    match read {
        Ok(count) => {
            registers::set_length(set, list, count);
            Ok(())
        }
        Err(NoList::TooMany) => Err(WrongField {
            field: wrapping_add_u64(from as u64, room as u64),
            expected: Expected::NoMoreFields,
        }),
        Err(NoList::Wrong(wrong)) => Err(WrongField {
            field: wrong.field,
            expected: Expected::Number(wrong.refusal),
        }),
    }
}
