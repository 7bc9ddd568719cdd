// Decisions and collections, of a record by value and of one that is lent.
ghost use Rattle.std.specs.Prelude.{◌≡◌};
ghost use Rattle.switching.specs.Deciding.{first_decision, decision, collection};
ghost use Rattle.exported_switching.specs.Asked.{switch_of};
ghost use Rattle.exported_switching.specs.Answers.{decided_told, collected_told};

use crate::answers::Switched;
use crate::{answers, asked};
use switching::Switching;

// A worker's first decision.
#[unsafe(no_mangle)]
pub extern "C" fn switching_first(target: u32) -> Switched
    ensures { result ≡ decided_told (first_decision target) }
{
    let decided = switching::first(target);
    answers::of_decided(decided)
}

// A later decision.
#[unsafe(no_mangle)]
pub extern "C" fn switching_decide(
    width: u32,
    rounds: u32,
    stall: f64,
    curve: &[f64],
    target: u32,
    cooldown_rounds: u32,
    steps: u32,
    max_step: u32,
    cost_ms: f64,
) -> Switched
    ensures { result ≡ decided_told (decision (record { width = width; rounds = rounds; stall = stall }) curve.now target (switch_of cooldown_rounds steps max_step cost_ms)) }
{
    let switch = asked::switch_of(cooldown_rounds, steps, max_step, cost_ms);
    let held = Switching {
        width,
        rounds,
        stall,
    };
    let decided = switching::decide(held, curve, target, switch);
    answers::of_decided(decided)
}

// The stall collected.
#[unsafe(no_mangle)]
pub extern "C" fn switching_collect(width: u32, rounds: u32, stall: f64) -> Switched
    ensures { result ≡ collected_told (collection (record { width = width; rounds = rounds; stall = stall })) }
{
    let held = Switching {
        width,
        rounds,
        stall,
    };
    let collected = switching::collect(held);
    answers::of_collected(collected)
}

// A later decision, on a record that is lent.
#[unsafe(no_mangle)]
pub extern "C" fn switching_lent_lend_and_decide(
    width: u32,
    rounds: u32,
    stall: f64,
    curve: &[f64],
    target: u32,
    cooldown_rounds: u32,
    steps: u32,
    max_step: u32,
    cost_ms: f64,
) -> Switched
    ensures { result ≡ decided_told (decision (record { width = width; rounds = rounds; stall = stall }) curve.now target (switch_of cooldown_rounds steps max_step cost_ms)) }
{
    let switch = asked::switch_of(cooldown_rounds, steps, max_step, cost_ms);
    let given = Switching {
        width,
        rounds,
        stall,
    };
    let decided = switching_lent::lend_and_decide(given, curve, target, switch);
    answers::of_decided(decided)
}

// The stall collected, from a record that is lent.
#[unsafe(no_mangle)]
pub extern "C" fn switching_lent_lend_and_collect(width: u32, rounds: u32, stall: f64) -> Switched
    ensures { result ≡ collected_told (collection (record { width = width; rounds = rounds; stall = stall })) }
{
    let given = Switching {
        width,
        rounds,
        stall,
    };
    let collected = switching_lent::lend_and_collect(given);
    answers::of_collected(collected)
}
