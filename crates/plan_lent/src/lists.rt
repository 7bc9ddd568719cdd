// The lists, in the order in which a plan takes them: positions, roofline, the table's depths, batches and seconds, loaded experts, the
// bank's commits, signals and curve, draws, indices. Each has its own part of a room of floats or of a room of whole numbers.
ghost use Rattle.std.specs.Prelude.{◌≤◌};

use crate::registers;
use cases::words;
use cases::words::Word;

// As many as there are.
pub const LISTS: usize = 11;

// How long the two rooms are.
pub const FLOATS: usize = 262144;

pub const WHOLES: usize = 75776;

// Where the first word of a list stands among those that set it.
const FIRST: usize = 4;

fn is_of_wholes(list: usize) -> bool {
    matches!(list, 2 | 3 | 6 | 10)
}

// Where a list's part starts in its room.
fn start(list: usize) -> usize {
    match list {
        0 => 0,
        1 => 128,
        4 => 256,
        5 => 4608,
        8 => 5760,
        9 => 5888,
        7 => 71552,
        2 => 0,
        3 => 4352,
        10 => 8704,
        _ => 9856,
    }
}

// Where a list's part ends in its room, which is so long: where the next one starts.
fn end(list: usize, room: usize) -> usize {
    match list {
        0 => 128,
        1 => 256,
        4 => 4608,
        5 => 5760,
        8 => 5888,
        9 => 71552,
        2 => 4352,
        3 => 8704,
        10 => 9856,
        _ => room,
    }
}

// A list's part of its room.
#[derive(Clone, Copy)]
pub struct Part {
    pub start: usize,
    pub end: usize,
}

// The part that a list has of a room of this length, for whoever writes it.
pub fn place_of(list: usize, room: usize) -> Part
    ensures { (result.start ≤ result.end) × (result.end ≤ room) }
{
    let start = start(list);
    let end = end(list, room);
    if room < end {
        return Part {
            start: room,
            end: room,
        };
    }
    if end < start {
        return Part { start: end, end };
    }
    Part { start, end }
}

// Sets a list. The words are its number, its length, how many words of it are given, and those; the list takes them in turn, from the first
// again behind the last.
pub fn set(call: &[u64], registers: &mut [u64], floats: &mut [f64], wholes: &mut [u32]) {
    let list = words::least_at(call, 1, LISTS);
    let length = words::at(call, 2);
    registers::set_length(registers, list, length);
    if is_of_wholes(list) {
        fill(call, start(list), length, wholes);
    } else {
        fill(call, start(list), length, floats);
    }
}

// The turn behind one, of so many.
fn behind(turn: usize, given: usize) -> usize {
    if given <= turn || given - turn <= 1 {
        return 0;
    }
    turn + 1
}

fn word(call: &[u64], turn: usize) -> u64 {
    if call.len() <= turn || call.len() - turn <= FIRST {
        return 0;
    }
    call[FIRST + turn]
}

// So many of the call's words, in turn, from a place of the room on; what is past the room is left out.
fn fill<T: Word>(call: &[u64], start: usize, length: u64, room: &mut [T]) {
    let given = words::least_at(call, 3, FLOATS);
    let length = length as usize;
    let mut turn = 0usize;
    for slot in entries_mut(room, start, length) {
        *slot = T::of_word(word(call, turn));
        turn = behind(turn, given);
    }
}

// A list of floats.
pub fn floats<'a>(registers: &[u64], room: &'a [f64], list: usize) -> &'a [f64] {
    let length = registers::length_of(registers, list);
    entries(room, start(list), length as usize)
}

// A list of whole numbers.
pub fn wholes<'a>(registers: &[u64], room: &'a [u32], list: usize) -> &'a [u32] {
    let length = registers::length_of(registers, list);
    entries(room, start(list), length as usize)
}

// So many entries from a place on, or as many as there are.
fn entries<T>(room: &[T], at: usize, count: usize) -> &[T] {
    let rest = &room[at.min(room.len())..];
    &rest[..count.min(rest.len())]
}

fn entries_mut<T>(room: &mut [T], at: usize, count: usize) -> &mut [T] {
    let start = at.min(room.len());
    let rest = &mut room[start..];
    let end = count.min(rest.len());
    &mut rest[..end]
}
