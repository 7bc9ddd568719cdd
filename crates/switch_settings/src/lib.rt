// The settings of switching: how often a width is weighed anew, how far it may go at once, and what a change costs.
#![tactic(auto)]

ghost use Rattle.std.specs.Prelude.{◌≡◌};
ghost use Rattle.switch_settings.specs.Switch.{is_unlimited, is_unconstrained, switch_judged};

use refusals::Refusal;

// How many candidates one decision may walk.
#[derive(Clone, Copy)]
pub enum MaxStep {
    Unlimited,
    AtMost(u32),
}

impl MaxStep {
    fn is_unlimited(self) -> bool
        ensures { result ≡ is_unlimited self }
    {
        match self {
            MaxStep::Unlimited => true,
            MaxStep::AtMost(_) => false,
        }
    }
}

#[derive(Clone, Copy)]
pub struct SwitchConstraints {
    // The rounds between two walks; 0 and 1 are every round.
    pub cooldown_rounds: u32,
    pub max_step: MaxStep,
    // What a changed width costs, in milliseconds.
    pub cost_ms: f64,
}

impl SwitchConstraints {
    // Whether every target is taken at once and for nothing.
    pub fn is_unconstrained(self) -> bool
        ensures { result ≡ is_unconstrained self }
    {
        self.cooldown_rounds <= 1 && self.max_step.is_unlimited() && self.cost_ms == 0.0
    }
}

// Refused as a setting where a change costs less than nothing or more than an hour. The other settings may have any value.
pub fn judge_switch(switch: SwitchConstraints) -> Result<(), Refusal>
    ensures { result ≡ switch_judged switch }
{
    if float::in_range(switch.cost_ms, 0.0, 3600000.0) {
        Ok(())
    } else {
        Err(Refusal::Setting)
    }
}
