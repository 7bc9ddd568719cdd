// What is looked up in the marks: a worker's newest plan, and its plans of an earlier time.
ghost use Rattle.std.specs.Prelude.{◌≡◌, ◌-◌, ◌≤◌};
ghost use Rattle.clock_marks.specs.Marks.{Ring, newest_of, holds_from, reaches, standing_from};

use crate::ring;

// The number of a worker's newest plan among so many, the newest first: 0 where none is that worker's.
pub fn newest(clock: &[u64], ring: u64, plans: u64, among: u64, a: u64, b: u64) -> u64
    requires { (Ring ring clock.now) × (among ≤ plans) }
    ensures { result ≡ newest_of clock.now ring a b among plans }
{
    for newer in 0..among {
        let plan = plans - newer;
        if ring::is_of(clock, ring, plan, a, b) {
            return plan;
        }
    }
    0
}

// Whether one of a worker's plans is of that second: from a plan on, each time the one before it, as far as they are known, and so many at most.
pub fn holds(clock: &[u64], ring: u64, plans: u64, second: u64, from: u64, most: u64) -> bool
    requires { Ring ring clock.now }
    ensures { result ≡ holds_from clock.now ring plans second most from }
{
    let mut plan = from;
    for _ in 0..most {
        if !ring::is_known(ring, plans, plan) {
            return false;
        }
        if ring::word_at(clock, ring, plan, ring::SECOND) == second {
            return true;
        }
        plan = ring::word_at(clock, ring, plan, ring::PREVIOUS);
    }
    false
}

// How many of a worker's plans are of that second or a later one, by the same walk.
pub fn standing(clock: &[u64], ring: u64, plans: u64, second: u64, from: u64, most: u64) -> u64
    requires { Ring ring clock.now }
    ensures { result ≡ standing_from clock.now ring plans second most from }
{
    let mut plan = from;
    let mut count = 0u64;
    for _ in 0..most {
        if !ring::is_known(ring, plans, plan) {
            return count;
        }
        count += reaching(second, ring::word_at(clock, ring, plan, ring::SECOND));
        plan = ring::word_at(clock, ring, plan, ring::PREVIOUS);
    }
    count
}

// 1 where a plan's second is that one or a later one.
fn reaching(second: u64, its: u64) -> u64
    ensures { (result ≡ reaches second its) × (result ≤ 1) }
{
    if second <= its { 1 } else { 0 }
}
