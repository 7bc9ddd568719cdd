// The commands that read a file: a trace bank and a cost table.
use crate::turns::Turn;
use crate::{files, turns};
use bank_judge::BankSize;
use plan_lent::{lists, registers};
use refusals::RefusedRow;

// The lists by their numbers, as `plan_lent` has them.
const DEPTHS: usize = 2;

const BATCHES: usize = 3;

const SECONDS: usize = 4;

const COMMITS: usize = 6;

const SIGNALS: usize = 7;

const CURVE: usize = 8;

// The rounds of a trace bank. Where its text is refused, all stays as it was.
pub fn bank(
    turn: Turn,
    day: &[u8],
    line: &[u8],
    set: &mut [u64],
    floats: &mut [f64],
    wholes: &mut [u32],
    file: &mut [u8],
    page: &mut [u8],
) -> Turn {
    let name = day_line::field(line, 2);
    match files::read_beside(turn.rt, day, name, file) {
        Some(bytes) => bank_of(turn, &file[..bytes], set, floats, wholes, page),
        None => turns::unreadable(turn, name, page),
    }
}

fn bank_of(
    turn: Turn,
    text: &[u8],
    set: &mut [u64],
    floats: &mut [f64],
    wholes: &mut [u32],
    page: &mut [u8],
) -> Turn {
    let mut curve = [0.0f64; 65];
    match read_bank(text, floats, wholes, &mut curve) {
        Ok(size) => {
            keep_bank(size, set);
            keep_curve(&curve, set, floats);
            bank_told(turn, size, page)
        }
        Err(refused) => turns::refused_at(turn, refused, page),
    }
}

fn read_bank(
    text: &[u8],
    floats: &mut [f64],
    wholes: &mut [u32],
    curve: &mut [f64],
) -> Result<BankSize, RefusedRow> {
    let commits = lists::place_of(COMMITS, wholes.len());
    let c = commits.start;
    let d = commits.end;
    let signals = lists::place_of(SIGNALS, floats.len());
    let s = signals.start;
    let t = signals.end;
    bank::read(text, &mut wholes[c..d], &mut floats[s..t], curve)
}

// The model is a trace of so many rounds; its signals reach as far as they have room.
fn keep_bank(size: BankSize, set: &mut [u64]) {
    registers::put(set, 10, 2);
    registers::put(set, 19, size.depth as u64);
    registers::put(set, 20, size.rounds as u64);
    registers::set_length(set, COMMITS, size.rounds as u64);
    registers::set_length(set, SIGNALS, 4194304);
}

fn keep_curve(curve: &[f64], set: &mut [u64], floats: &mut [f64]) {
    registers::set_length(set, CURVE, curve.len() as u64);
    let part = lists::place_of(CURVE, floats.len());
    let start = part.start;
    let end = part.end;
    copy_front(curve, &mut floats[start..end]);
}

// What there is room for, copied to the front.
pub fn copy_front<T: Copy>(from: &[T], to: &mut [T]) {
    let n = from.len().min(to.len());
    to[..n].copy_from_slice(&from[..n]);
}

fn bank_told(turn: Turn, size: BankSize, page: &mut [u8]) -> Turn {
    let at = page::make_room(turn.rt, page, turn.used);
    let used = shown::bank(page, at, turn.number, size.rounds as u64, size.depth as u64);
    turns::done(turn, used)
}

// The rows of a cost table, which is then the source of prices. Where its text is refused, all stays as it was.
pub fn table(
    turn: Turn,
    day: &[u8],
    line: &[u8],
    set: &mut [u64],
    floats: &mut [f64],
    wholes: &mut [u32],
    file: &mut [u8],
    page: &mut [u8],
) -> Turn {
    let name = day_line::field(line, 1);
    match files::read_beside(turn.rt, day, name, file) {
        Some(bytes) => table_of(turn, &file[..bytes], set, floats, wholes, page),
        None => turns::unreadable(turn, name, page),
    }
}

fn table_of(
    turn: Turn,
    text: &[u8],
    set: &mut [u64],
    floats: &mut [f64],
    wholes: &mut [u32],
    page: &mut [u8],
) -> Turn {
    let mut batches = [0u32; 4096];
    match read_table(text, floats, wholes, &mut batches) {
        Ok(rows) => {
            keep_table(rows as u64, set);
            keep_batches(&batches, wholes);
            table_told(turn, rows as u64, page)
        }
        Err(refused) => turns::refused_at(turn, refused, page),
    }
}

fn read_table(
    text: &[u8],
    floats: &mut [f64],
    wholes: &mut [u32],
    batches: &mut [u32],
) -> Result<u32, RefusedRow> {
    let depths = lists::place_of(DEPTHS, wholes.len());
    let c = depths.start;
    let d = depths.end;
    let seconds = lists::place_of(SECONDS, floats.len());
    let s = seconds.start;
    let t = seconds.end;
    measured::read(text, &mut wholes[c..d], batches, &mut floats[s..t])
}

fn keep_table(rows: u64, set: &mut [u64]) {
    registers::put(set, 17, 1);
    registers::put(set, 18, rows);
    registers::set_length(set, DEPTHS, rows);
    registers::set_length(set, BATCHES, rows);
    registers::set_length(set, SECONDS, rows);
}

fn keep_batches(batches: &[u32], wholes: &mut [u32]) {
    let part = lists::place_of(BATCHES, wholes.len());
    let start = part.start;
    let end = part.end;
    copy_front(batches, &mut wholes[start..end]);
}

fn table_told(turn: Turn, rows: u64, page: &mut [u8]) -> Turn {
    let at = page::make_room(turn.rt, page, turn.used);
    let used = shown::table(page, at, turn.number, rows);
    turns::done(turn, used)
}
