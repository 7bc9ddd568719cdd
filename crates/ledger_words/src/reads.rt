// The calls that change nothing: `k` is a worker's record, `v` the series in buffers of so many slots, `g` the day figure, and any other how
// many seconds and workers are held and how many withdrawals are available. Each puts its refusal, then its values, 0 where there are none.
ghost use Rattle.std.specs.Prelude.{◌≤◌, length};

use crate::outcome;
use crate::outcome::of_value;
use cases::{answers, words};
use ledger::answer::Held;
use refusals::Refusal;

pub fn make(letter: u8, call: &[u64], storage: &[u64], ours: &mut [u64], at: usize) -> usize
    ensures { result ≤ length ours.new }
{
    if letter == b'k' {
        let found = ledger::worker(storage, words::at(call, 1), words::at(call, 2));
        return put_found(ours, at, found);
    }
    if letter == b'v' {
        return series(call, storage, ours, at);
    }
    if letter == b'g' {
        return outcome::put(ours, at, of_value(ledger::day_figure(storage)));
    }
    counts(storage, ours, at)
}

// The refusal, whether the worker is held, and its record.
fn put_found(ours: &mut [u64], at: usize, found: Result<Option<Held>, Refusal>) -> usize
    ensures { result ≤ length ours.new }
{
    match found {
        Ok(Some(held)) => {
            answers::put_list(ours, at, &[0, 1, held.width, held.rounds, held.stall])
        }
        Ok(None) => outcome::put(ours, at, outcome::value(0)),
        Err(refusal) => outcome::put(ours, at, outcome::refused(refusal)),
    }
}

fn counts(storage: &[u64], ours: &mut [u64], at: usize) -> usize
    ensures { result ≤ length ours.new }
{
    let second = outcome::put(ours, at, of_value(ledger::seconds_held(storage)));
    let third = outcome::put(ours, second, of_value(ledger::workers_held(storage)));
    outcome::put(ours, third, of_value(ledger::available(storage)))
}

fn series(call: &[u64], storage: &[u64], ours: &mut [u64], at: usize) -> usize
    ensures { result ≤ length ours.new }
{
    let mut seconds = [0xDEAD_BEEFu64; 4104];
    let mut drafts = [42.0f64; 4104];
    let mut batches = [42.0f64; 4104];
    let mut committed = [42.0f64; 4104];
    let slots = words::least_at(call, 1, 4104);
    series_in(
        storage,
        &mut seconds[0..slots],
        &mut drafts[0..slots],
        &mut batches[0..slots],
        &mut committed[0..slots],
        ours,
        at,
    )
}

// The refusal, how many seconds, and of each buffer as many slots and one more.
fn series_in(
    storage: &[u64],
    seconds: &mut [u64],
    drafts: &mut [f64],
    batches: &mut [f64],
    committed: &mut [f64],
    ours: &mut [u64],
    at: usize,
) -> usize
    ensures { result ≤ length ours.new }
{
    let read = of_value(ledger::series(storage, seconds, drafts, batches, committed));
    let shown = read.value;
    let next = outcome::put(ours, at, read);
    put_fronts(shown, seconds, drafts, batches, committed, ours, next)
}

fn put_fronts(
    shown: u64,
    seconds: &[u64],
    drafts: &[f64],
    batches: &[f64],
    committed: &[f64],
    ours: &mut [u64],
    at: usize,
) -> usize
    ensures { result ≤ length ours.new }
{
    let s = front(shown, seconds.len());
    let d = front(shown, drafts.len());
    let b = front(shown, batches.len());
    let c = front(shown, committed.len());
    let second = answers::put_list(ours, at, &seconds[0..s]);
    let third = answers::put_list(ours, second, &drafts[0..d]);
    let fourth = answers::put_list(ours, third, &batches[0..b]);
    answers::put_list(ours, fourth, &committed[0..c])
}

// How many slots of a buffer are shown: as many as were written and one more, or all.
pub fn front(shown: u64, length: usize) -> usize
    ensures { result ≤ length }
{
    if shown < length as u64 {
        return shown as usize + 1;
    }
    length
}
