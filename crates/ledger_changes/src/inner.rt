// The newest changes, each in its slot with what it takes to take it back. The slots stand in a ring: the newest change goes over the oldest.
ghost use Rattle.std.specs.Prelude.{◌≡◌, ◌+◌, ◌<◌, ◌≤◌, length, set};
ghost use Rattle.ledger_rows.specs.Layout.{room, changes_most, change_wide, workers_from, available, next_slot};
ghost use Rattle.ledger_changes.specs.Changes.{following, newest_slot, newest_at, pushed, popped, step_back, record_back, worker_back};

use ledger_rows::inner;
use ledger_rows::layout::{
    CHANGE, CHANGES, CHANGES_MOST, COMMITTED, DRAFTS, KIND, PLANNED, ROUNDS, SEQUENCES, STALL,
    Step, WIDTH, WORKER_A, WORKER_B,
};

// The number of withdrawals available: at most CHANGES_MOST, whatever the word says.
pub fn kept(words: &[u64]) -> usize
    requires { room ≤ length words.now }
    ensures { result ≡ available words.now }
{
    (words[2] as usize).min(CHANGES_MOST)
}

// The slot of the next change: the last at most, whatever the word says.
fn next_slot(words: &[u64]) -> usize
    requires { room ≤ length words.now }
    ensures { result ≡ next_slot words.now }
{
    (words[3] as usize).min(CHANGES_MOST - 1)
}

// The slot after one; the first comes after the last.
#[tactic(auto, unfolding(crate::specs::Changes::following))]
fn slot_after(slot: usize) -> usize
    requires { slot < changes_most }
    ensures { result ≡ following slot }
{
    let next = slot + 1;
    if next < CHANGES_MOST { next } else { 0 }
}

// The slot of the newest change.
#[tactic(auto, unfolding(crate::specs::Changes::newest_slot, crate::specs::Changes::preceding))]
fn newest_slot(words: &[u64]) -> usize
    requires { room ≤ length words.now }
    ensures { (result ≡ newest_slot words.now) × (result < changes_most) }
{
    let next = next_slot(words);
    if 0 < next { next - 1 } else { CHANGES_MOST - 1 }
}

// Where the newest change starts.
fn newest_at(words: &[u64]) -> usize
    requires { room ≤ length words.now }
    ensures { (result ≡ newest_at words.now) × (result + change_wide ≤ workers_from) }
{
    CHANGES + CHANGE * newest_slot(words)
}

// The withdrawals available and the slot of the next change written down.
fn note(words: &mut [u64], left: usize, slot: usize)
    requires { room ≤ length words.old }
    ensures { words.new ≡ set (set words.old 2 left) 3 slot }
{
    words[2] = left as u64;
    words[3] = slot as u64;
}

// A change kept as the newest; the oldest of CHANGES_MOST falls out.
#[tactic(auto, unfolding(crate::specs::Changes::pushed))]
pub fn push(words: &mut [u64], change: &[u64])
    requires { (length change.now ≡ change_wide) × (room ≤ length words.old) }
    ensures { words.new ≡ pushed words.old change.now }
{
    let left = (kept(words) + 1).min(CHANGES_MOST);
    let slot = next_slot(words);
    let next = slot_after(slot);
    inner::put(words, CHANGES + CHANGE * slot, change);
    note(words, left, next);
}

// The newest of `before` changes no longer kept: its slot is free, and the next change's.
#[tactic(auto, unfolding(crate::specs::Changes::popped))]
pub fn pop(words: &mut [u64], before: usize)
    requires { (0 < before) × (room ≤ length words.old) }
    ensures { words.new ≡ popped words.old before }
{
    let slot = newest_slot(words);
    let free = [0u64; CHANGE];
    inner::put(words, CHANGES + CHANGE * slot, &free);
    note(words, before - 1, slot);
}

// The newest change's step taken back, if it has one.
#[tactic(auto, unfolding(crate::specs::Changes::step_back))]
pub fn step_back(words: &mut [u64])
    requires { room ≤ length words.old }
    ensures { words.new ≡ step_back words.old }
{
    let at = newest_at(words);
    let second = words[at];
    let drafts = words[at + DRAFTS];
    let sequences = words[at + SEQUENCES];
    let committed = words[at + COMMITTED];
    if words[at + PLANNED] == 1 {
        let step = Step {
            second,
            drafts,
            sequences,
            committed,
        };
        ledger_seconds::inner::remove_step(words, step);
    }
}

// The change at `at`: its worker put back to the record that it had, if it had one.
#[tactic(auto, unfolding(crate::specs::Changes::record_back))]
fn record_back(words: &mut [u64], at: usize, a: u64, b: u64)
    requires { (at + change_wide ≤ workers_from) × (room ≤ length words.old) }
    ensures { words.new ≡ record_back words.old at a b }
{
    let width = words[at + WIDTH];
    let rounds = words[at + ROUNDS];
    let stall = words[at + STALL];
    if words[at + KIND] == 2 {
        ledger_workers::inner::put(words, a, b, width, rounds, stall);
    }
}

// The newest change's worker put back to its record from before: none where it was new.
#[tactic(auto, unfolding(crate::specs::Changes::worker_back))]
pub fn worker_back(words: &mut [u64])
    requires { room ≤ length words.old }
    ensures { words.new ≡ worker_back words.old }
{
    let at = newest_at(words);
    let a = words[at + WORKER_A];
    let b = words[at + WORKER_B];
    if words[at + KIND] == 1 {
        ledger_workers::inner::drop_worker(words, a, b);
    } else {
        record_back(words, at, a, b);
    }
}
