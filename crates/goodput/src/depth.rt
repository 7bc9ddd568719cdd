// The best depth.
ghost use Rattle.std.specs.Prelude.{◌≡◌};
ghost use Rattle.goodput.specs.Depth.{depth_answer, aggregate_answer};

use refusals::Refusal;
use speculative::drafter::{DrafterCost, Rates};

// The smallest depth of finite total cost whose goodput no other such depth exceeds, of the depths 0 to gamma; 0 where no
// cost is finite. 12, 11, then 16 where the expected values, the curve or, for an autoregressive head, the loaded experts are
// too short, then 15.
#[tactic(auto, using(goodput_judges::proofs::Passed::depth_passed), unfolding(crate::specs::Depth::depth_answer))]
pub fn best_depth(
    expected: &[f64],
    curve: &[f64],
    gamma: u32,
    n: u32,
    drafter: DrafterCost,
    rates: Rates,
    loaded: &[f64],
) -> Result<u32, Refusal>
    ensures { result ≡ depth_answer expected.now curve.now gamma n drafter rates loaded.now }
{
    goodput_judges::judge_depth(expected, curve, gamma, n, drafter, rates, loaded)?;
    let count = gamma as usize + 1;
    let experts = speculative::inner::loaded_at(drafter, loaded, n as usize);
    Ok(depths::inner::depth_over(
        &expected[..count],
        &curve[..count],
        n,
        drafter,
        rates,
        experts,
    ))
}

// The best depth of a batch: that of the expected acceptance of its chains, which stand one after the other, 64 slots each,
// each with its length. 12, 11, then 16 where the chains, the curve or, for an autoregressive head, the loaded experts are
// too short, then 15.
#[tactic(auto, using(goodput_judges::proofs::Passed::aggregate_passed), unfolding(crate::specs::Depth::aggregate_answer))]
pub fn aggregate_depth(
    chains: &[f64],
    lengths: &[u32],
    curve: &[f64],
    gamma: u32,
    drafter: DrafterCost,
    rates: Rates,
    loaded: &[f64],
) -> Result<u32, Refusal>
    ensures { result ≡ aggregate_answer chains.now lengths.now curve.now gamma drafter rates loaded.now }
{
    goodput_judges::judge_aggregate(chains, lengths, curve, gamma, drafter, rates, loaded)?;
    let count = gamma as usize + 1;
    let experts = speculative::inner::loaded_at(drafter, loaded, lengths.len());
    Ok(depths::inner::gate_depth(chains, lengths, &curve[..count], drafter, rates, experts))
}
