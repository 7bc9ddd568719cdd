// What the clock lines of a day add to the times of its plans: so many seconds for all workers, and for some workers their own. Lent as words: the
// seconds for all, by their bits; how many workers have their own; and of each its two numbers and its seconds, by their bits, in the order in which
// they were first set. What a call answers and leaves is said for any content.
#![tactic(auto)]

ghost use Rattle.std.specs.Prelude.{◌≡◌, ◌+◌, ◌≤◌, ◌<◌, length};
ghost use Rattle.float.specs.Floats.{plus};
ghost use Rattle.day_shifts.specs.Shifts.{words, most, row_at, is_of, row_from, held, shift_bits, shift_of, for_all, added, for_one};

use ledger_rows::inner;
use refusals::Refusal;

// The words of all. All 0 adds nothing.
pub const WORDS: usize = 770;

// How many workers may have their own: as many as a planner holds.
const MOST: usize = 256;

// Where the workers' rows start, and the words of one.
const ROWS: usize = 2;

const WIDE: usize = 3;

// From here on so many seconds are added to every worker's times: what workers had of their own is gone.
#[tactic(auto, unfolding(crate::specs::Shifts::for_all))]
pub fn all(shifts: &mut [u64], seconds: f64)
    ensures { shifts.new ≡ for_all shifts.old seconds }
{
    if shifts.len() < WORDS {
        return;
    }
    shifts[0] = float::bits(seconds);
    shifts[1] = 0;
}

// From here on so many seconds are added to one worker's times. Refused as too short a buffer where the words are too few, and for want of room
// where as many other workers have their own as may.
#[tactic(auto, unfolding(crate::specs::Shifts::for_one, crate::specs::Shifts::for_one_at))]
pub fn one(shifts: &mut [u64], a: u64, b: u64, seconds: f64) -> Result<(), Refusal>
    ensures { (result, shifts.new) ≡ for_one shifts.old a b seconds }
{
    if shifts.len() < WORDS {
        return Err(Refusal::ShortBuffer);
    }
    let rows = held(shifts);
    let row = row_of(shifts, rows, a, b);
    if row < rows {
        let at = ROWS + WIDE * row;
        shifts[at + 2] = float::bits(seconds);
        return Ok(());
    }
    if MOST <= rows {
        return Err(Refusal::WorkerRoom);
    }
    add(shifts, rows, a, b, float::bits(seconds));
    Ok(())
}

// A worker's end time with what is added to it: one addition.
#[tactic(auto, unfolding(crate::specs::Shifts::shift_of))]
pub fn shifted(shifts: &[u64], a: u64, b: u64, end: f64) -> f64
    ensures { result ≡ plus end (shift_of shifts.now a b) }
{
    if shifts.len() < WORDS {
        return end + float::of_bits(0);
    }
    end + float::of_bits(bits_of(shifts, a, b))
}

// The bits of what is added to a worker's times: its own, or those for all.
#[tactic(auto, unfolding(crate::specs::Shifts::shift_bits))]
fn bits_of(shifts: &[u64], a: u64, b: u64) -> u64
    requires { words ≤ length shifts.now }
    ensures { result ≡ shift_bits shifts.now a b }
{
    let rows = held(shifts);
    let row = row_of(shifts, rows, a, b);
    if row < rows {
        let at = ROWS + WIDE * row;
        return shifts[at + 2];
    }
    shifts[0]
}

// How many workers have their own, whatever the word says.
fn held(shifts: &[u64]) -> usize
    requires { words ≤ length shifts.now }
    ensures { result ≡ held shifts.now }
{
    (shifts[1] as usize).min(MOST)
}

// Whether a row is that worker's.
fn is_of(shifts: &[u64], row: usize, a: u64, b: u64) -> bool
    requires { row_at row + 3 ≤ length shifts.now }
    ensures { result ≡ is_of shifts.now a b row }
{
    let at = ROWS + WIDE * row;
    shifts[at] == a && shifts[at + 1] == b
}

// The first of so many rows that is that worker's: as many as there are where none is.
fn row_of(shifts: &[u64], rows: usize, a: u64, b: u64) -> usize
    requires { (words ≤ length shifts.now) × (rows ≤ most) }
    ensures { (result ≡ row_from shifts.now a b rows 0) × (result ≤ rows) }
{
    for row in 0..rows {
        if is_of(shifts, row, a, b) {
            return row;
        }
    }
    rows
}

// One more row behind so many.
#[tactic(auto, unfolding(crate::specs::Shifts::added))]
fn add(shifts: &mut [u64], rows: usize, a: u64, b: u64, bits: u64)
    requires { (words ≤ length shifts.old) × (rows < most) }
    ensures { shifts.new ≡ added shifts.old rows a b bits }
{
    let at = ROWS + WIDE * rows;
    let new = [a, b, bits];
    inner::put(shifts, at, &new);
    shifts[1] = (rows + 1) as u64;
}
