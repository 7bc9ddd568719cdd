// The switch settings, the walk toward a target and a record's range.
ghost use Rattle.std.specs.Prelude.{◌≡◌};
ghost use Rattle.switch_settings.specs.Switch.{is_unconstrained, switch_refusal};
ghost use Rattle.width_walk.specs.Walk.{walk_candidates};
ghost use Rattle.switching.specs.Deciding.{record_refusal};
ghost use Rattle.exported_switching.specs.Asked.{step_of, switch_of};

use crate::asked;
use switching::Switching;

// Whether every target is taken at once and for nothing.
#[unsafe(no_mangle)]
pub extern "C" fn switch_settings_is_unconstrained(
    cooldown_rounds: u32,
    steps: u32,
    max_step: u32,
    cost_ms: f64,
) -> bool
    ensures { result ≡ is_unconstrained (switch_of cooldown_rounds steps max_step cost_ms) }
{
    let switch = asked::switch_of(cooldown_rounds, steps, max_step, cost_ms);
    switch.is_unconstrained()
}

// The number of the refusal, 0 for none.
#[unsafe(no_mangle)]
pub extern "C" fn switch_settings_switch_refusal(
    cooldown_rounds: u32,
    steps: u32,
    max_step: u32,
    cost_ms: f64,
) -> u64
    ensures { result ≡ switch_refusal (switch_of cooldown_rounds steps max_step cost_ms) }
{
    let switch = asked::switch_of(cooldown_rounds, steps, max_step, cost_ms);
    refusals::number_in(switch_settings::judge_switch(switch))
}

// The width after one walk.
#[unsafe(no_mangle)]
pub extern "C" fn width_walk_walk_candidates(
    candidates: &[u32],
    width: u32,
    target: u32,
    steps: u32,
    max_step: u32,
) -> u32
    ensures { result ≡ walk_candidates candidates.now width target (step_of steps max_step) }
{
    let step = asked::step_of(steps, max_step);
    width_walk::walk_candidates(candidates, width, target, step)
}

// The number of the refusal, 0 for none.
#[unsafe(no_mangle)]
pub extern "C" fn switching_record_refusal(width: u32, rounds: u32, stall: f64) -> u64
    ensures { result ≡ record_refusal (record { width = width; rounds = rounds; stall = stall }) }
{
    let held = Switching {
        width,
        rounds,
        stall,
    };
    refusals::number_in(switching::judge_record(held))
}
