// One worker's switching: the width in force follows the gate's target as the settings allow. The record's small steps take it
// by value and hand it back; `switching_lent` is for a record that is updated where it stands.
#![tactic(auto)]

ghost use Rattle.std.specs.Prelude.{◌≡◌};
ghost use Rattle.switching.specs.Deciding.{walked, collected, at_first, record_judged, all_prices, decide_judged, first_decision, decision, collection};

use refusals::Refusal;
use switch_settings::SwitchConstraints;

pub mod inner;

// The width in force, the rounds since it last walked, and the stall in seconds that is not yet collected.
#[derive(Clone, Copy)]
pub struct Switching {
    pub width: u32,
    pub rounds: u32,
    pub stall: f64,
}

// The width that is decided, and the record that stands after the decision.
#[derive(Clone, Copy)]
pub struct Decided {
    pub answer: Result<u32, Refusal>,
    pub kept: Switching,
}

// The stall that is collected, and the record that stands after it.
#[derive(Clone, Copy)]
pub struct Collected {
    pub answer: Result<f64, Refusal>,
    pub kept: Switching,
}

// The largest width.
const MOST_WIDTH: u32 = 64;

// The most depths of a price curve.
const MOST_DEPTHS: usize = 65;

// The most rounds of a record.
const MOST_ROUNDS: u32 = 4294967294;

impl Switching {
    // The record after a first decision.
    fn at_first(width: u32) -> Switching
        ensures { result ≡ at_first width }
    {
        Switching {
            width,
            rounds: 0,
            stall: 0.0,
        }
    }

    // The counter is reset and the width walks; a changed width adds its cost to the stall.
    pub fn walk(
        mut self,
        candidates: &[u32],
        target: u32,
        constraints: SwitchConstraints,
    ) -> Switching
        ensures { result ≡ walked self candidates.now target constraints }
    {
        let step = constraints.max_step;
        let next = width_walk::walk_candidates(candidates, self.width, target, step);
        self.rounds = 0;
        if next != self.width {
            self.width = next;
            self.stall += 1e-3 * constraints.cost_ms;
        }
        self
    }

    // The stall is collected: it is zero again.
    pub fn collect(mut self) -> Switching
        ensures { result ≡ collected self }
    {
        self.stall = 0.0;
        self
    }
}

// Refused as an input where the record is out of range.
#[tactic(auto, unfolding(crate::specs::Deciding::record_judged))]
pub fn judge_record(held: Switching) -> Result<(), Refusal>
    ensures { result ≡ record_judged held }
{
    let is_record = held.width <= MOST_WIDTH
        && held.rounds <= MOST_ROUNDS
        && float::is_finite(held.stall)
        && float::is_clear(held.stall);
    if is_record {
        Ok(())
    } else {
        Err(Refusal::Input)
    }
}

// A worker's first decision is free: the target is its width. Refused for its size where that is above 64.
#[tactic(auto, unfolding(crate::specs::Deciding::first_decision))]
pub fn first(target: u32) -> Decided
    ensures { result ≡ first_decision target }
{
    if MOST_WIDTH < target {
        return Decided {
            answer: Err(Refusal::Size),
            kept: Switching::at_first(0),
        };
    }
    Decided {
        answer: Ok(target),
        kept: Switching::at_first(target),
    }
}

// Every later decision counts a round and, when that is due, walks toward the target among the depths of finite price. A refusal
// keeps the record.
#[tactic(auto, unfolding(crate::specs::Deciding::decision))]
pub fn decide(
    held: Switching,
    curve: &[f64],
    target: u32,
    constraints: SwitchConstraints,
) -> Decided
    ensures { result ≡ decision held curve.now target constraints }
{
    match judge(held, curve, constraints) {
        Ok(()) => {
            let kept = inner::decided(held, curve, target, constraints);
            Decided {
                answer: Ok(kept.width),
                kept,
            }
        }
        Err(refusal) => Decided {
            answer: Err(refusal),
            kept: held,
        },
    }
}

// The stall of the record, which is cleared. A refusal keeps the record.
#[tactic(auto, unfolding(crate::specs::Deciding::collection))]
pub fn collect(held: Switching) -> Collected
    ensures { result ≡ collection held }
{
    match judge_record(held) {
        Ok(()) => Collected {
            answer: Ok(held.stall),
            kept: held.collect(),
        },
        Err(refusal) => Collected {
            answer: Err(refusal),
            kept: held,
        },
    }
}

// Whether every price is in range or +infinity.
fn are_prices(curve: &[f64]) -> bool
    ensures { result ≡ all_prices curve.now }
{
    for x in curve {
        if !float::in_range_or_infinite(*x, 0.0, 1e9) {
            return false;
        }
    }
    true
}

// The settings, how many depths the curve has, the record, then the prices.
#[tactic(auto, unfolding(crate::specs::Deciding::decide_judged))]
fn judge(held: Switching, curve: &[f64], constraints: SwitchConstraints) -> Result<(), Refusal>
    ensures { result ≡ decide_judged held curve.now constraints }
{
    switch_settings::judge_switch(constraints)?;
    if MOST_DEPTHS < curve.len() {
        return Err(Refusal::Size);
    }
    judge_record(held)?;
    if are_prices(curve) {
        Ok(())
    } else {
        Err(Refusal::Input)
    }
}
