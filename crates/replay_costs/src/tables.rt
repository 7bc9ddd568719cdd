// Cost tables in text. The words of `t` are the slots of the three columns that are lent, and the text.
ghost use Rattle.std.specs.Prelude.{◌≤◌, length};

use cases::{answers, lists, tally, words};
use refusals::RefusedRow;

// What each slot of whole numbers, and each of floats, holds before a text is read.
const WHOLE_BEFORE: u32 = 0xDEAD_BEEF;

const FLOAT_BEFORE: f64 = 42.0;

pub fn print(rt: HostRuntime, counts: &[u64]) {
    tally::print_kind(rt, counts, b't', b"read");
}

// Reads the text into as many slots as the words say.
pub fn read(
    input: &[u64],
    text: &mut [u8],
    depths: &mut [u32],
    batches: &mut [u32],
    seconds: &mut [f64],
    ours: &mut [u64],
) -> usize
    ensures { result ≤ length ours.new }
{
    let d = words::least_at(input, 0, depths.len());
    let b = words::least_at(input, 1, batches.len());
    let s = words::least_at(input, 2, seconds.len());
    let n = lists::text(input, 3, text);
    read_in(
        &text[0..n],
        &mut depths[0..d],
        &mut batches[0..b],
        &mut seconds[0..s],
        ours,
    )
}

fn read_in(
    text: &[u8],
    depths: &mut [u32],
    batches: &mut [u32],
    seconds: &mut [f64],
    ours: &mut [u64],
) -> usize
    ensures { result ≤ length ours.new }
{
    lend(depths, batches, seconds);
    let answer = measured::read(text, depths, batches, seconds);
    let at = put_answer(ours, answer);
    put_columns(ours, at, depths, batches, seconds)
}

// Each slot holds what it holds before the call.
fn lend(depths: &mut [u32], batches: &mut [u32], seconds: &mut [f64]) {
    depths.fill(WHOLE_BEFORE);
    batches.fill(WHOLE_BEFORE);
    seconds.fill(FLOAT_BEFORE);
}

// The refusal, its row and the rows that were kept.
fn put_answer(ours: &mut [u64], answer: Result<u32, RefusedRow>) -> usize
    ensures { result ≤ length ours.new }
{
    match answer {
        Ok(rows) => answers::three(ours, 0, 0, rows as u64),
        Err(fault) => answers::three(ours, fault.refusal.number(), fault.row, 0),
    }
}

// The columns, whole.
fn put_columns(
    ours: &mut [u64],
    at: usize,
    depths: &[u32],
    batches: &[u32],
    seconds: &[f64],
) -> usize
    ensures { result ≤ length ours.new }
{
    let next = answers::put_whole_numbers(ours, at, depths);
    let last = answers::put_whole_numbers(ours, next, batches);
    answers::put_floats(ours, last, seconds)
}
