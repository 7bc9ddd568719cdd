// What a depth costs.
ghost use Rattle.std.specs.Prelude.{◌≡◌};
ghost use Rattle.goodput.specs.Pricing.{cost_of};

use refusals::Refusal;
use speculative::drafter::{DrafterCost, Rates};

// The total cost of depth g over n sequences: the verify cost and the drafter's seconds; a verify cost of +infinity stays.
// 12, 11, then 16, then 15. `loaded` has the routed experts that each number of sequences loads, and is looked at for an
// autoregressive head alone.
#[tactic(auto, unfolding(crate::specs::Pricing::cost_of))]
pub fn total_cost(
    drafter: DrafterCost,
    g: u32,
    n: u32,
    rates: Rates,
    verify: f64,
    loaded: &[f64],
) -> Result<f64, Refusal>
    ensures { result ≡ cost_of drafter g n rates verify loaded.now }
{
    goodput_judges::judge_cost(drafter, g, n, rates, verify, loaded)?;
    let experts = speculative::inner::loaded_at(drafter, loaded, n as usize);
    Ok(depths::inner::total_cost(drafter, g, n, rates, verify, experts))
}
