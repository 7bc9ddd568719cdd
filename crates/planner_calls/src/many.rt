// Many plans in one call. Its words are those of a plan, with a second for the end time, and three more: how many, and by how much the
// worker's second number and the second rise from plan to plan. Answered are the newest refusal and how many were accepted.
ghost use Rattle.std.specs.Prelude.{◌≤◌, length};

use crate::plans;
use crate::plans::Asker;
use cases::{answers, words};
use planner::Planned;
use std::num::wrapping_add_u64;

#[derive(Clone, Copy)]
struct Outcome {
    refusal: u64,
    accepted: u64,
}

pub fn plans(
    call: &[u64],
    set: &[u64],
    floats: &[f64],
    wholes: &[u32],
    storage: &mut [u64],
    ours: &mut [u64],
    at: usize,
) -> usize
    ensures { result ≤ length ours.new }
{
    let mut drafts = [0u32; 64];
    let mut commits = [0u32; 64];
    let all = each(
        call,
        set,
        floats,
        wholes,
        storage,
        &mut drafts,
        &mut commits,
    );
    let next = answers::put(ours, at, all.refusal);
    answers::put(ours, next, all.accepted)
}

fn each(
    call: &[u64],
    set: &[u64],
    floats: &[f64],
    wholes: &[u32],
    storage: &mut [u64],
    drafts: &mut [u32],
    commits: &mut [u32],
) -> Outcome {
    let count = words::at(call, 8);
    let mut all = Outcome {
        refusal: 0,
        accepted: 0,
    };
    let mut asker = plans::asker_of(call, second(words::at(call, 4)));
    let mut at = words::at(call, 4);
    for _ in 0..count {
        let planned = plans::plan(asker, set, floats, wholes, storage, drafts, commits);
        all = and(all, planned);
        at = wrapping_add_u64(at, words::at(call, 10));
        asker = further(asker, words::at(call, 9), second(at));
    }
    all
}

// The end time in a second below 2^32.
fn second(at: u64) -> f64 {
    (at % 4294967296) as u32 as f64
}

fn further(asker: Asker, more: u64, end: f64) -> Asker {
    let b = wrapping_add_u64(asker.b, more);
    Asker {
        a: asker.a,
        b,
        sequences: asker.sequences,
        end,
    }
}

// One plan more.
fn and(before: Outcome, planned: Planned) -> Outcome {
    match planned {
        Planned::Plan { .. } => Outcome {
            refusal: before.refusal,
            accepted: wrapping_add_u64(before.accepted, 1),
        },
        Planned::Empty => before,
        Planned::Refused(number) => Outcome {
            refusal: number,
            accepted: before.accepted,
        },
    }
}
