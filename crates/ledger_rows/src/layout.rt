// How the words of the storage lie: three counts (seconds, workers, changes), the slot of the next change, the newest changes, the workers, the seconds.

// How many there are at most: seconds held, workers held, changes that can be withdrawn, steps in a second.
pub const SECONDS_MOST: usize = 4096;

pub const WORKERS_MOST: usize = 256;

pub const CHANGES_MOST: usize = 64;

pub const STEPS_MOST: u64 = 1_000_000;

// The words of a second: itself and its sums. Those of a worker: two numbers, width, rounds, the stall's bits. Those of a change.
pub const SECOND: usize = 5;

pub const WORKER: usize = 5;

pub const CHANGE: usize = 11;

// Which word of a second's row has what, behind the second itself. A change has the same first words for what its plan added.
pub const DRAFTS: usize = 1;

pub const SEQUENCES: usize = 2;

pub const COMMITTED: usize = 3;

pub const STEPS: usize = 4;

// Which word of a change has what, behind those: 1 where it is a plan; the worker's kind, its two numbers, its record from before.
pub const PLANNED: usize = 4;

pub const KIND: usize = 5;

pub const WORKER_A: usize = 6;

pub const WORKER_B: usize = 7;

pub const WIDTH: usize = 8;

pub const ROUNDS: usize = 9;

pub const STALL: usize = 10;

// Where the newest changes, the workers and the seconds start.
pub const CHANGES: usize = 4;

pub const WORKERS: usize = CHANGES + CHANGE * CHANGES_MOST;

pub const SECONDS: usize = WORKERS + WORKER * WORKERS_MOST;

// The words that a planner takes.
pub const ROOM: usize = SECONDS + SECOND * SECONDS_MOST;

// The row of a key among the rows held, or before which it belongs, and whether it is held.
#[derive(Clone, Copy)]
pub struct Place {
    pub row: usize,
    pub rows: usize,
    pub known: bool,
}

// What a plan adds at its second: its drafts, its sequences, and the committed of its drafts. One step goes with them.
#[derive(Clone, Copy)]
pub struct Step {
    pub second: u64,
    pub drafts: u64,
    pub sequences: u64,
    pub committed: u64,
}

// What a worker's record was before a change: kind 2 where it was held, 1 where there was none, 0 where the change is of no worker.
#[derive(Clone, Copy)]
pub struct Past {
    pub kind: u64,
    pub width: u64,
    pub rounds: u64,
    pub stall: u64,
}
