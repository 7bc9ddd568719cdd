// Many calls in one. Its value is how many were accepted, its refusal the newest of the others.
ghost use Rattle.std.specs.Prelude.{◌≤◌};

use crate::calls::{MOST, name_at, step_from};
use cases::words;
use ledger::answer::Decision;
use ledger_rows::layout::Step;
use ledger_words::outcome::{Outcome, of_answer, value};
use std::num::wrapping_add_u64;

pub fn make(letter: u8, call: &[u64], names: &[u64], storage: &mut [u64]) -> Outcome {
    match letter {
        b's' => plans(call, storage),
        b'm' => decisions(call, names, storage),
        _ => withdrawals(words::at(call, 1), storage),
    }
}

// One call more.
fn and(before: Outcome, one: Outcome) -> Outcome {
    if one.refusal == 0 {
        Outcome {
            refusal: before.refusal,
            value: wrapping_add_u64(before.value, 1),
        }
    } else {
        Outcome {
            refusal: one.refusal,
            value: before.value,
        }
    }
}

// So many plans of no worker that add the same, at seconds that lie so far apart.
fn plans(call: &[u64], storage: &mut [u64]) -> Outcome {
    let apart = words::at(call, 2);
    let mut step = step_from(call, 3);
    let mut all = value(0);
    for _ in 0..words::at(call, 1) {
        all = and(
            all,
            of_answer(ledger::record(storage, step, Decision::Nothing)),
        );
        step = later(step, apart);
    }
    all
}

// The same, so many seconds later.
fn later(step: Step, seconds: u64) -> Step {
    Step {
        second: wrapping_add_u64(step.second, seconds),
        drafts: step.drafts,
        sequences: step.sequences,
        committed: step.committed,
    }
}

// First decisions of so many workers, from a place on.
fn decisions(call: &[u64], names: &[u64], storage: &mut [u64]) -> Outcome {
    let count = words::least_at(call, 1, MOST);
    let from = words::least_at(call, 2, MOST);
    let mut all = value(0);
    for place in from..from + count {
        all = and(all, decide(call, names, place, storage));
    }
    all
}

fn decide(call: &[u64], names: &[u64], place: usize, storage: &mut [u64]) -> Outcome
    requires { place ≤ 2000 }
{
    let name = name_at(names, place);
    let decision = Decision::Put {
        a: name.a,
        b: name.b,
        width: words::at(call, 7),
        rounds: 0,
        stall: 0,
    };
    let step = step_from(call, 3);
    of_answer(ledger::record(storage, step, decision))
}

fn withdrawals(count: u64, storage: &mut [u64]) -> Outcome {
    let mut all = value(0);
    for _ in 0..count {
        all = and(all, of_answer(ledger::withdraw(storage)));
    }
    all
}
