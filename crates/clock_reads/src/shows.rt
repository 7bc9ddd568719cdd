// What a plan shows: read off the marks of the plans that stand, before its own is put there.
ghost use Rattle.std.specs.Prelude.{◌≡◌, ◌<◌};
ghost use Rattle.clock_marks.specs.Marks.{Ring, withdrawn};
ghost use Rattle.clock_reads.specs.Reads.{last_of, stand_of, counted_again, first_again, shown_by, shown_of, totals_at};

use crate::stands;
use crate::stands::Stand;
use clock_marks::{ring, walks};

// The worker's plan before, 0 where it has none; by how much its clock went back or forward; how it stands; whether the step is counted again, as 1
// or 0; and how many earlier steps there are where it is the first such step.
#[derive(Clone, Copy)]
pub struct Shown {
    pub last: u64,
    pub back: u64,
    pub forward: u64,
    pub high: u64,
    pub until: u64,
    pub earlier: u64,
    pub again: u64,
    pub counted: u64,
    pub doubled: u64,
}

// Of the plans that stand: how many workers made them, how often their clocks went back and forward, and how many steps are counted again.
#[derive(Clone, Copy)]
pub struct Totals {
    pub workers: u64,
    pub back: u64,
    pub forward: u64,
    pub doubled: u64,
}

// The number of a worker's newest plan among those that are known, 0 where none is.
fn last_plan(clock: &[u64], ring: u64, plans: u64, a: u64, b: u64) -> u64
    requires { (Ring ring clock.now) × (withdrawn < ring) }
    ensures { result ≡ last_of clock.now ring plans a b }
{
    let kept = ring - ring::WITHDRAWN;
    if plans < kept {
        return walks::newest(clock, ring, plans, plans, a, b);
    }
    walks::newest(clock, ring, plans, kept, a, b)
}

// How a worker's clock stood after its plan before: at the second at hand where it has none.
fn stand_of(clock: &[u64], ring: u64, last: u64, second: u64) -> Stand
    requires { Ring ring clock.now }
    ensures { result ≡ stand_of clock.now ring last second }
{
    if last == 0 {
        return Stand {
            high: second,
            until: 0,
            earlier: 0,
            again: 0,
        };
    }
    let high = ring::word_at(clock, ring, last, ring::HIGH);
    let until = ring::word_at(clock, ring, last, ring::UNTIL);
    let earlier = ring::word_at(clock, ring, last, ring::EARLIER);
    let again = ring::word_at(clock, ring, last, ring::AGAIN);
    Stand {
        high,
        until,
        earlier,
        again,
    }
}

// 1 where a step is counted again: its second holds a step of the worker from before its clock last went back.
fn counted_again(clock: &[u64], ring: u64, plans: u64, second: u64, stand: Stand) -> u64
    requires { (Ring ring clock.now) × (withdrawn < ring) }
    ensures { result ≡ counted_again clock.now ring plans second stand }
{
    if stand.earlier < second {
        return 0;
    }
    let kept = ring - ring::WITHDRAWN;
    if walks::holds(clock, ring, plans, second, stand.until, kept) {
        1
    } else {
        0
    }
}

// Where it is the first since then: how many of those steps stand in its second or a later one.
fn first_again(clock: &[u64], ring: u64, plans: u64, second: u64, stand: Stand, counted: u64) -> u64
    requires { (Ring ring clock.now) × (withdrawn < ring) }
    ensures { result ≡ first_again clock.now ring plans second stand counted }
{
    if counted == 0 {
        return 0;
    }
    if stand.again == 0 {
        let kept = ring - ring::WITHDRAWN;
        return walks::standing(clock, ring, plans, second, stand.until, kept);
    }
    0
}

// All of it for a worker whose plan before is known.
fn shown_by(clock: &[u64], ring: u64, plans: u64, second: u64, last: u64, old: Stand) -> Shown
    requires { (Ring ring clock.now) × (withdrawn < ring) }
    ensures { result ≡ shown_by clock.now ring plans second last old }
{
    let back = stands::back_by(old.high, second);
    let forward = stands::forward_by(old.high, second);
    let new = stands::moved(old, last, second);
    let counted = counted_again(clock, ring, plans, second, new);
    let doubled = first_again(clock, ring, plans, second, new, counted);
    let again = std::num::wrapping_add_u64(new.again, counted);
    Shown {
        last,
        back,
        forward,
        high: new.high,
        until: new.until,
        earlier: new.earlier,
        again,
        counted,
        doubled,
    }
}

// What a worker's plan for a second shows, where so many plans stand.
pub fn plan_shows(clock: &[u64], ring: u64, plans: u64, a: u64, b: u64, second: u64) -> Shown
    requires { (Ring ring clock.now) × (withdrawn < ring) }
    ensures { result ≡ shown_of clock.now ring plans a b second }
{
    let last = last_plan(clock, ring, plans, a, b);
    let old = stand_of(clock, ring, last, second);
    shown_by(clock, ring, plans, second, last, old)
}

// The day's totals, where so many plans stand.
pub fn totals_at(clock: &[u64], ring: u64, plans: u64) -> Totals
    requires { Ring ring clock.now }
    ensures { result ≡ totals_at clock.now ring plans }
{
    if plans == 0 {
        return Totals {
            workers: 0,
            back: 0,
            forward: 0,
            doubled: 0,
        };
    }
    let workers = ring::word_at(clock, ring, plans, ring::WORKERS);
    let back = ring::word_at(clock, ring, plans, ring::BACK);
    let forward = ring::word_at(clock, ring, plans, ring::FORWARD);
    let doubled = ring::word_at(clock, ring, plans, ring::DOUBLED);
    Totals {
        workers,
        back,
        forward,
        doubled,
    }
}
