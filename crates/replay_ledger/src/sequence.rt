// A case: the words of the storage that are lent, the slots of the four buffers of the series, the workers that the calls name (how many,
// and two numbers each), and the calls (how many, and the words of each). Answered are four words for each call, its refusal, its value and
// the two sums of what can be read after it, and last the sums of the storage's words that no call may write.
ghost use Rattle.std.specs.Prelude.{◌≤◌, length};

use crate::calls::MOST;
use crate::{calls, digest};
use cases::sums::Sums;
use cases::{answers, lists, words};
use ledger_rows::layout::ROOM;
use ledger_words::outcome;

// The storage's words: eight more than a planner takes.
const WHOLE: usize = ROOM + 8;

// Plays a case on a whole storage and four buffers of the series.
pub fn play(input: &[u64], ours: &mut [u64]) -> usize
    ensures { result ≤ length ours.new }
{
    let mut storage = [0xDEAD_BEEFu64; WHOLE];
    let mut seconds = [0xDEAD_BEEFu64; 4104];
    let mut drafts = [42.0f64; 4104];
    let mut batches = [42.0f64; 4104];
    let mut committed = [42.0f64; 4104];
    let at = play_lent(
        input,
        &mut storage,
        &mut seconds,
        &mut drafts,
        &mut batches,
        &mut committed,
        ours,
    );
    put_sums(ours, at, unwritten(&storage, words::at(input, 0)))
}

// The sums of what is behind the room, and of the whole where less was lent.
fn unwritten(storage: &[u64], lent: u64) -> Sums {
    if lent < ROOM as u64 {
        return Sums::new().and_list(storage);
    }
    if storage.len() < ROOM {
        return Sums::new();
    }
    Sums::new().and_list(&storage[ROOM..])
}

// Lends as much of the storage and of the buffers as the case says.
fn play_lent(
    input: &[u64],
    storage: &mut [u64],
    seconds: &mut [u64],
    drafts: &mut [f64],
    batches: &mut [f64],
    committed: &mut [f64],
    ours: &mut [u64],
) -> usize
    ensures { result ≤ length ours.new }
{
    let w = words::least_at(input, 0, storage.len());
    let s = words::least_at(input, 1, seconds.len());
    let d = words::least_at(input, 2, drafts.len());
    let b = words::least_at(input, 3, batches.len());
    let m = words::least_at(input, 4, committed.len());
    play_whole(
        input,
        &mut storage[0..w],
        &mut seconds[0..s],
        &mut drafts[0..d],
        &mut batches[0..b],
        &mut committed[0..m],
        ours,
    )
}

// Takes the workers and the calls apart.
fn play_whole(
    input: &[u64],
    storage: &mut [u64],
    seconds: &mut [u64],
    drafts: &mut [f64],
    batches: &mut [f64],
    committed: &mut [f64],
    ours: &mut [u64],
) -> usize
    ensures { result ≤ length ours.new }
{
    let workers = words::least_at(input, 5, MOST);
    let behind = lists::behind(input, 5, 2 * workers);
    if behind < 6 || input.len() <= behind {
        return 0;
    }
    play_calls(
        &input[6..behind],
        &input[behind..],
        storage,
        seconds,
        drafts,
        batches,
        committed,
        ours,
    )
}

fn play_calls(
    names: &[u64],
    calls: &[u64],
    storage: &mut [u64],
    seconds: &mut [u64],
    drafts: &mut [f64],
    batches: &mut [f64],
    committed: &mut [f64],
    ours: &mut [u64],
) -> usize
    requires { 1 ≤ length calls.now }
    ensures { result ≤ length ours.new }
{
    let count = words::least_at(calls, 0, MOST);
    let mut from = 1usize;
    let mut at = 0usize;
    for _ in 0..count {
        at = turn(
            &calls[from..],
            names,
            storage,
            seconds,
            drafts,
            batches,
            committed,
            ours,
            at,
        );
        from = calls::behind(calls, from);
    }
    at
}

// One call, and the reading of all that can be read after it.
fn turn(
    call: &[u64],
    names: &[u64],
    storage: &mut [u64],
    seconds: &mut [u64],
    drafts: &mut [f64],
    batches: &mut [f64],
    committed: &mut [f64],
    ours: &mut [u64],
    at: usize,
) -> usize
    ensures { result ≤ length ours.new }
{
    let made = calls::make(call, names, storage);
    let sums = digest::of(storage, names, seconds, drafts, batches, committed);
    let next = outcome::put(ours, at, made);
    put_sums(ours, next, sums)
}

fn put_sums(ours: &mut [u64], at: usize, sums: Sums) -> usize
    ensures { result ≤ length ours.new }
{
    answers::put_list(ours, at, &[sums.first, sums.second])
}
