// Where a mark lies, and what it says. Plans are numbered from 1 on, the oldest first; the mark of a plan lies in the ring's place of its number,
// modulo how many marks fit.
ghost use Rattle.std.specs.Prelude.{◌≡◌, ◌+◌, ◌<◌, ◌≤◌, length};
ghost use Rattle.ledger_rows.specs.Words.{stored};
ghost use Rattle.clock_marks.specs.Marks.{wide, Ring, ring_of, place_of, word_at, is_of, is_known};

use ledger_rows::inner;

// A clock has two words before its marks: how many plans stand, and which of the newest changes are plans.
pub const HEAD: usize = 2;

// The words of a mark.
pub const WIDE: usize = 12;

// How many changes can be withdrawn: the marks of as many plans may lie in the ring that are newer than those that stand.
pub const WITHDRAWN: u64 = 64;

// The columns of a mark: its worker's two numbers, and its second;
pub const WORKER_A: usize = 0;

pub const WORKER_B: usize = 1;

pub const SECOND: usize = 2;

// where its worker's clock stands after it, the highest second since it last went back;
pub const HIGH: usize = 3;

// the number of the worker's last plan before its clock last went back, and the highest second before that: 0 where it never did;
pub const UNTIL: usize = 4;

pub const EARLIER: usize = 5;

// the number of the worker's plan before it, 0 where there is none;
pub const PREVIOUS: usize = 6;

// how many of the worker's steps since its clock last went back were counted again;
pub const AGAIN: usize = 7;

// and the day's totals after it.
pub const WORKERS: usize = 8;

pub const BACK: usize = 9;

pub const FORWARD: usize = 10;

pub const DOUBLED: usize = 11;

// How many marks fit into the words of a clock.
pub fn ring_of(clock: &[u64]) -> u64
    ensures { result ≡ ring_of (length clock.now) }
{
    if clock.len() < HEAD {
        return 0;
    }
    ((clock.len() - HEAD) / WIDE) as u64
}

// The word from which on the mark of a plan lies.
fn place(clock: &[u64], ring: u64, plan: u64) -> usize
    requires { Ring ring clock.now }
    ensures { (result ≡ place_of ring plan) × (result + wide ≤ length clock.now) }
{
    let row = (plan % ring) as usize;
    HEAD + WIDE * row
}

// One word of a plan's mark.
pub fn word_at(clock: &[u64], ring: u64, plan: u64, column: usize) -> u64
    requires { (Ring ring clock.now) × (column < wide) }
    ensures { result ≡ word_at clock.now ring plan column }
{
    clock[place(clock, ring, plan) + column]
}

// A plan's mark put into its place.
pub fn put(clock: &mut [u64], ring: u64, plan: u64, mark: &[u64])
    requires { (Ring ring clock.old) × (length mark.now ≤ wide) }
    ensures { clock.new ≡ stored (place_of ring plan) mark.now clock.old }
{
    let at = place(clock, ring, plan);
    inner::put(clock, at, mark);
}

// Whether a plan is that worker's.
pub fn is_of(clock: &[u64], ring: u64, plan: u64, a: u64, b: u64) -> bool
    requires { Ring ring clock.now }
    ensures { result ≡ is_of clock.now ring a b plan }
{
    word_at(clock, ring, plan, WORKER_A) == a && word_at(clock, ring, plan, WORKER_B) == b
}

// Whether the mark of a plan still lies in the ring, where so many plans stand.
pub fn is_known(ring: u64, plans: u64, plan: u64) -> bool
    ensures { result ≡ is_known ring plans plan }
{
    plan != 0 && plan <= plans && WITHDRAWN <= ring && plans - plan < ring - WITHDRAWN
}
