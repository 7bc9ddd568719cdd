// The workers held, ascending by their two numbers, each with its record.
ghost use Rattle.std.specs.Prelude.{◌≡◌, cond, false, ◌+◌, ◌≤◌, ◌<◌, ltb, length};
ghost use Rattle.ledger_rows.specs.Words.{searched};
ghost use Rattle.ledger_rows.specs.Layout.{room, worker_wide, workers_most, workers_held, worker_at};
ghost use Rattle.ledger_workers.specs.Workers.{earlier_worker, that_worker, worker_place, worker_stored, worker_inserted, worker_put, worker_dropped, past_at, past_of};

use ledger_rows::layout::{Past, Place, WORKER, WORKERS, WORKERS_MOST};
use ledger_rows::{inner, rows};

// The number of workers held: at most WORKERS_MOST, whatever the word says.
pub fn held(words: &[u64]) -> usize
    requires { room ≤ length words.now }
    ensures { result ≡ workers_held words.now }
{
    (words[1] as usize).min(WORKERS_MOST)
}

// Whether the worker of row `row` comes before another: by the first number, then by the second.
fn is_earlier(words: &[u64], row: usize, a: u64, b: u64) -> bool
    requires { (row < workers_most) × (room ≤ length words.now) }
    ensures { result ≡ earlier_worker words.now a b row }
{
    let at = WORKERS + WORKER * row;
    words[at] < a || words[at] == a && words[at + 1] < b
}

// How many of the first `rows` workers come before a worker: a search by halves.
fn count_earlier(words: &[u64], rows: usize, a: u64, b: u64) -> usize
    requires { (rows ≤ workers_most) × (room ≤ length words.now) }
    ensures { (result ≡ searched (earlier_worker words.now a b) rows) × (result ≤ rows) }
{
    let mut low = 0;
    let mut width = rows;
    // no index is counted: each turn leaves one half of the rows
    while 0 < width {
        let half = width / 2;
        let step = half + 1;
        if is_earlier(words, low + half, a, b) {
            low += step;
            width -= step;
        } else {
            width = half;
        }
    }
    low
}

// Whether row `row` is one of the first `rows` and is that worker's.
fn is_that(words: &[u64], row: usize, rows: usize, a: u64, b: u64) -> bool
    requires { (rows ≤ workers_most) × (room ≤ length words.now) }
    ensures { result ≡ cond (ltb row rows) (that_worker words.now a b row) false }
{
    row < rows && words[WORKERS + WORKER * row] == a && words[WORKERS + WORKER * row + 1] == b
}

// Where a worker is held or belongs.
#[tactic(auto, unfolding(crate::specs::Workers::worker_place, crate::specs::Workers::worker_row))]
pub fn place(words: &[u64], a: u64, b: u64) -> Place
    requires { room ≤ length words.now }
    ensures { result ≡ worker_place words.now a b }
{
    let rows = held(words);
    let row = count_earlier(words, rows, a, b);
    let known = is_that(words, row, rows, a, b);
    Place { row, rows, known }
}

// The record in row `row`.
#[tactic(auto, unfolding(crate::specs::Workers::past_at))]
fn read(words: &[u64], row: usize) -> Past
    requires { (row < workers_most) × (room ≤ length words.now) }
    ensures { result ≡ past_at words.now row }
{
    let at = WORKERS + WORKER * row;
    let width = words[at + 2];
    let rounds = words[at + 3];
    let stall = words[at + 4];
    Past {
        kind: 2,
        width,
        rounds,
        stall,
    }
}

// What a worker's record is: kind 2 and the record where it is held, kind 1 where there is none.
#[tactic(auto, unfolding(crate::specs::Workers::past_of))]
pub fn past(words: &[u64], a: u64, b: u64) -> Past
    requires { room ≤ length words.now }
    ensures { result ≡ past_of words.now a b }
{
    let found = place(words, a, b);
    if found.known {
        read(words, found.row)
    } else {
        Past {
            kind: 1,
            width: 0,
            rounds: 0,
            stall: 0,
        }
    }
}

// A worker's words stored in row `row`.
#[tactic(auto, unfolding(crate::specs::Workers::worker_stored))]
fn store(words: &mut [u64], row: usize, a: u64, b: u64, width: u64, rounds: u64, stall: u64)
    requires { worker_at row + worker_wide ≤ length words.old }
    ensures { words.new ≡ worker_stored words.old row a b width rounds stall }
{
    let at = WORKERS + WORKER * row;
    let new = [a, b, width, rounds, stall];
    inner::put(words, at, &new);
}

// A new row before row `row` of `rows`, unless as many are held as there may be.
#[tactic(auto, unfolding(crate::specs::Workers::worker_inserted))]
fn insert(
    words: &mut [u64],
    row: usize,
    rows: usize,
    a: u64,
    b: u64,
    width: u64,
    rounds: u64,
    stall: u64,
)
    requires { (row ≤ rows) × (room ≤ length words.old) }
    ensures { words.new ≡ worker_inserted words.old row rows a b width rounds stall }
{
    let new = [a, b, width, rounds, stall];
    rows::insert::<1, WORKERS, WORKERS_MOST>(words, row, rows, &new);
}

// A worker's record put in the place of the one that it has, or as its first.
#[tactic(auto, unfolding(crate::specs::Workers::worker_put), using(crate::proofs::Ways::worker_within))]
pub fn put(words: &mut [u64], a: u64, b: u64, width: u64, rounds: u64, stall: u64)
    requires { room ≤ length words.old }
    ensures { words.new ≡ worker_put words.old a b width rounds stall }
{
    let found = place(words, a, b);
    if found.known {
        store(words, found.row, a, b, width, rounds, stall);
    } else {
        insert(words, found.row, found.rows, a, b, width, rounds, stall);
    }
}

// A worker no longer held.
#[tactic(auto, unfolding(crate::specs::Workers::worker_dropped, crate::specs::Workers::worker_taken))]
pub fn drop_worker(words: &mut [u64], a: u64, b: u64)
    requires { room ≤ length words.old }
    ensures { words.new ≡ worker_dropped words.old a b }
{
    let found = place(words, a, b);
    if found.known {
        rows::take::<1, WORKERS, WORKERS_MOST>(words, found.row, found.rows);
    }
}
