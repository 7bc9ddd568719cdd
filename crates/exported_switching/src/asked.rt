// What plain numbers stand for.
ghost use Rattle.std.specs.Prelude.{◌≡◌};
ghost use Rattle.exported_switching.specs.Asked.{step_of, switch_of};

use switch_settings::{MaxStep, SwitchConstraints};

// 0 any number of candidates a walk, any other number at most `max_step`.
#[tactic(auto, unfolding(crate::specs::Asked::step_of))]
pub fn step_of(steps: u32, max_step: u32) -> MaxStep
    ensures { result ≡ step_of steps max_step }
{
    if steps == 0 {
        return MaxStep::Unlimited;
    }
    MaxStep::AtMost(max_step)
}

pub fn switch_of(cooldown_rounds: u32, steps: u32, max_step: u32, cost_ms: f64) -> SwitchConstraints
    ensures { result ≡ switch_of cooldown_rounds steps max_step cost_ms }
{
    let step = step_of(steps, max_step);
    SwitchConstraints {
        cooldown_rounds,
        max_step: step,
        cost_ms,
    }
}
