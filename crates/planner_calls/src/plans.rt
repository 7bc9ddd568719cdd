// One plan. Its words are the worker's two numbers, the sequences, the end time, and how many words of the storage and slots of the drafts and
// of the commits are lent. Answered are the refusal, what became of it (0 refused, 1 a plan, 2 an empty one), the draws used, the slots
// weighed, whether a word of the storage changed (0 no, 1 in its room alone, 2 behind it), and the slots of the drafts and of the commits.
ghost use Rattle.std.specs.Prelude.{◌≤◌, length};

use cases::{answers, words};
use ledger_rows::layout::ROOM;
use plan_lent::{lists, registers};
use planner::Planned;
use std::num::wrapping_add_u64;

// The words of the storage that there is: eight more than a planner takes.
pub const WHOLE: usize = ROOM + 8;

// Who asks, for how many sequences, and when.
#[derive(Clone, Copy)]
pub struct Asker {
    pub a: u64,
    pub b: u64,
    pub sequences: u32,
    pub end: f64,
}

// A plan of all that the registers and lists lend.
pub fn plan(
    asker: Asker,
    set: &[u64],
    floats: &[f64],
    wholes: &[u32],
    storage: &mut [u64],
    drafts: &mut [u32],
    commits: &mut [u32],
) -> Planned {
    let settings = registers::settings(set);
    let ask = registers::ask(set, asker.a, asker.b, asker.sequences, asker.end);
    planner::plan(
        settings,
        ask,
        lists::floats(set, floats, 0),
        lists::floats(set, floats, 1),
        lists::wholes(set, wholes, 2),
        lists::wholes(set, wholes, 3),
        lists::floats(set, floats, 4),
        lists::floats(set, floats, 5),
        lists::wholes(set, wholes, 6),
        lists::floats(set, floats, 7),
        lists::floats(set, floats, 8),
        lists::floats(set, floats, 9),
        lists::wholes(set, wholes, 10),
        storage,
        drafts,
        commits,
    )
}

// Keeps the storage as it was, and has room for the drafts and the commits.
pub fn one(
    call: &[u64],
    set: &[u64],
    floats: &[f64],
    wholes: &[u32],
    storage: &mut [u64],
    ours: &mut [u64],
    at: usize,
) -> usize
    ensures { result ≤ length ours.new }
{
    let mut drafts = [0xDEAD_BEEFu32; 1088];
    let mut commits = [0xDEAD_BEEFu32; 1088];
    let mut before = [0u64; WHOLE];
    copy(storage, &mut before);
    let planned = lend(
        call,
        set,
        floats,
        wholes,
        storage,
        &mut drafts,
        &mut commits,
    );
    let touched = touched(&before, storage);
    let next = put_planned(ours, at, planned, touched);
    put_slots(call, &drafts, &commits, ours, next)
}

fn copy(from: &[u64], to: &mut [u64]) {
    let n = from.len().min(to.len());
    to[..n].copy_from_slice(&from[..n]);
}

// Lends as much as the call says.
fn lend(
    call: &[u64],
    set: &[u64],
    floats: &[f64],
    wholes: &[u32],
    storage: &mut [u64],
    drafts: &mut [u32],
    commits: &mut [u32],
) -> Planned {
    let asker = asker_of(call, words::float_at(call, 4));
    let w = words::least_at(call, 5, storage.len());
    let d = words::least_at(call, 6, drafts.len());
    let c = words::least_at(call, 7, commits.len());
    plan(
        asker,
        set,
        floats,
        wholes,
        &mut storage[0..w],
        &mut drafts[0..d],
        &mut commits[0..c],
    )
}

pub fn asker_of(call: &[u64], end: f64) -> Asker {
    Asker {
        a: words::at(call, 1),
        b: words::at(call, 2),
        sequences: words::whole_at(call, 3),
        end,
    }
}

fn touched(before: &[u64], after: &[u64]) -> u64 {
    if before.len() < ROOM || after.len() < ROOM || before[ROOM..] != after[ROOM..] {
        return 2;
    }
    if before == after { 0 } else { 1 }
}

// A plan's first words; the plans and the refused ones are counted in front.
fn put_planned(ours: &mut [u64], at: usize, planned: Planned, touched: u64) -> usize
    ensures { result ≤ length ours.new }
{
    add_one(ours, 0);
    match planned {
        Planned::Plan { used, weighed } => put_five(ours, at, 0, 1, used, weighed, touched),
        Planned::Empty => put_five(ours, at, 0, 2, 0, 0, touched),
        Planned::Refused(number) => {
            add_one(ours, 1);
            put_five(ours, at, number, 0, 0, 0, touched)
        }
    }
}

fn add_one(ours: &mut [u64], place: usize) {
    if place < ours.len() {
        ours[place] = wrapping_add_u64(ours[place], 1);
    }
}

fn put_five(
    ours: &mut [u64],
    at: usize,
    refusal: u64,
    became: u64,
    used: usize,
    weighed: usize,
    touched: u64,
) -> usize
    ensures { result ≤ length ours.new }
{
    let second = answers::put(ours, at, refusal);
    let third = answers::put(ours, second, became);
    let fourth = answers::put(ours, third, used as u64);
    let fifth = answers::put(ours, fourth, weighed as u64);
    answers::put(ours, fifth, touched)
}

// The slots that were lent.
fn put_slots(call: &[u64], drafts: &[u32], commits: &[u32], ours: &mut [u64], at: usize) -> usize
    ensures { result ≤ length ours.new }
{
    let d = words::least_at(call, 6, drafts.len());
    let c = words::least_at(call, 7, commits.len());
    let next = answers::put_whole_numbers(ours, at, &drafts[0..d]);
    answers::put_whole_numbers(ours, next, &commits[0..c])
}
