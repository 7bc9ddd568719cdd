// The calls of a sequence. The first word of each is a letter that says which it is; the others are what it is lent. A worker is named by its
// place among those of the case.
ghost use Rattle.std.specs.Prelude.{◌≤◌, length};

use crate::many;
use cases::words;
use ledger::answer::Decision;
use ledger_rows::layout::Step;
use ledger_words::outcome::{Outcome, of_answer, of_value};
use std::num::wrapping_add_u64;

// More than a case has of calls and of workers.
pub const MOST: usize = 1000;

// The two numbers of a worker.
#[derive(Clone, Copy)]
pub struct Name {
    pub a: u64,
    pub b: u64,
}

pub fn name_at(names: &[u64], place: usize) -> Name
    requires { place ≤ 2000 }
{
    Name {
        a: words::at(names, 2 * place),
        b: words::at(names, 2 * place + 1),
    }
}

// Where the call behind the one at a place starts, at most at the end.
pub fn behind(calls: &[u64], at: usize) -> usize
    requires { at ≤ length calls.now }
    ensures { result ≤ length calls.now }
{
    let size = words_of(words::at(calls, at));
    if size <= calls.len() - at {
        at + size
    } else {
        calls.len()
    }
}

// How many words a call has, its letter included.
fn words_of(letter: u64) -> usize {
    match (letter % 256) as u8 {
        b'p' => 5,
        b'd' => 9,
        b'c' | b'j' | b'k' | b'x' => 2,
        b's' => 7,
        b'm' => 8,
        _ => 1,
    }
}

// Makes a call.
pub fn make(call: &[u64], names: &[u64], storage: &mut [u64]) -> Outcome {
    let letter = (words::at(call, 0) % 256) as u8;
    match letter {
        b'p' => plan(call, Decision::Nothing, storage),
        b'd' => plan(call, decision(call, names), storage),
        b'w' => of_answer(ledger::withdraw(storage)),
        b'f' => of_answer(ledger::fresh(storage)),
        b'c' => collect(call, names, storage),
        b's' | b'm' | b'x' => many::make(letter, call, names, storage),
        _ => judge(letter, call, names, storage),
    }
}

fn plan(call: &[u64], decision: Decision, storage: &mut [u64]) -> Outcome {
    let step = step_from(call, 1);
    of_answer(ledger::record(storage, step, decision))
}

// What a plan adds, from a place of the call on: its second, its drafts, its sequences, its committed.
pub fn step_from(call: &[u64], at: usize) -> Step
    requires { at ≤ 8 }
{
    Step {
        second: words::at(call, at),
        drafts: words::at(call, at + 1),
        sequences: words::at(call, at + 2),
        committed: words::at(call, at + 3),
    }
}

// The worker's place, and its record behind the decision.
fn decision(call: &[u64], names: &[u64]) -> Decision {
    let name = name_at(names, words::least_at(call, 5, MOST));
    Decision::Put {
        a: name.a,
        b: name.b,
        width: words::at(call, 6),
        rounds: words::at(call, 7),
        stall: words::at(call, 8),
    }
}

fn collect(call: &[u64], names: &[u64], storage: &mut [u64]) -> Outcome {
    let name = name_at(names, words::least_at(call, 1, MOST));
    of_value(ledger::collect(storage, name.a, name.b))
}

fn judge(letter: u8, call: &[u64], names: &[u64], storage: &[u64]) -> Outcome {
    if letter == b'j' {
        return of_answer(ledger::judge_step(storage, words::at(call, 1)));
    }
    let name = name_at(names, words::least_at(call, 1, MOST));
    of_answer(ledger::judge_worker(storage, name.a, name.b))
}

// Adds the calls of an answer's words to the number of those made and of those refused.
pub fn count(ours: &[u64], made: &mut [u64]) {
    if made.len() < 2 {
        return;
    }
    let calls = (ours.len() / 4) as u64;
    made[0] = wrapping_add_u64(made[0], calls);
    made[1] = wrapping_add_u64(made[1], refusals(ours));
}

// How many of the calls are refused.
fn refusals(ours: &[u64]) -> u64 {
    ours.chunks_exact(4)
        .filter(|call| 0 < words::at(call, 0))
        .count() as u64
}

pub fn print(rt: HostRuntime, made: &[u64]) {
    let calls = words::at(made, 0);
    let refused = words::at(made, 1);
    let _ = println!(rt; "calls {calls}, refused {refused}");
}
