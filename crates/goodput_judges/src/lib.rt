// What is refused of what the entry points of goodput are lent. Every function takes every number, list and record.
#![tactic(auto)]

ghost use Rattle.std.specs.Prelude.{◌≡◌, ◌≤◌, ◌*◌, length, Ok};
ghost use Rattle.refusals.specs.Refusals.{passed_if};
ghost use Rattle.speculative.specs.Drafter.{drafter_judged, inputs_judged};
ghost use Rattle.goodput_judges.specs.Refusals.{counts_judged, survival_judged, chains_judged, model_values_judged, bank_sizes_judged, bank_values_judged, sizes_judged, cost_judged, is_weighed, depth_judged, is_priced_batch, aggregate_judged};

use acceptance::AcceptanceModel;
use refusals::Refusal;
use speculative::drafter;
use speculative::drafter::{DrafterCost, Rates};

// The most drafts, and the most sequences.
const MOST_GAMMA: u32 = 64;

const MOST_SEQUENCES: usize = 1024;

// Refused unless a test holds.
fn passed_if(test: bool, refusal: Refusal) -> Result<(), Refusal>
    ensures { result ≡ passed_if test refusal }
{
    if test { Ok(()) } else { Err(refusal) }
}

// Refused as a size where gamma is too large or there are too many sequences.
#[tactic(auto, unfolding(crate::specs::Refusals::counts_judged))]
fn judge_counts(gamma: u32, n: usize) -> Result<(), Refusal>
    ensures { result ≡ counts_judged gamma n }
{
    passed_if(gamma <= MOST_GAMMA && n <= MOST_SEQUENCES, Refusal::Size)
}

// 12 where the drafter is out of range, then 11.
#[tactic(auto, unfolding(crate::specs::Refusals::sizes_judged))]
fn judge_sizes(drafter: DrafterCost, gamma: u32, n: usize) -> Result<(), Refusal>
    ensures { result ≡ sizes_judged drafter gamma n }
{
    drafter::judge_drafter(drafter)?;
    judge_counts(gamma, n)
}

// 16 or 15 of the loaded experts, 15 of the rates, and 15 where the call's other values are not in range. What a drafter reads
// is what one pass of it would read.
fn judge_inputs(
    drafter: DrafterCost,
    n: u32,
    rates: Rates,
    valued: bool,
    loaded: &[f64],
) -> Result<(), Refusal>
    requires drafter_value { drafter_judged drafter ≡ Ok tt }
    requires n_bound { n ≤ 1024 }
    ensures { result ≡ inputs_judged drafter n rates valued loaded.now }
{
    drafter::pass_seconds(drafter, n, rates, loaded)?;
    passed_if(valued, Refusal::Input)
}

// 11, then 15.
#[tactic(auto, unfolding(crate::specs::Refusals::survival_judged))]
pub fn judge_survival(signal: [f64; 64], length: usize) -> Result<(), Refusal>
    ensures { result ≡ survival_judged signal length }
{
    if 64 < length {
        return Err(Refusal::Size);
    }
    passed_if(chain_tests::are_finite(&signal[..length]), Refusal::Input)
}

// 11, then 16, then 15. `room` is how many values there is room for.
#[tactic(auto, using(crate::proofs::Judges::counts_few), unfolding(crate::specs::Refusals::chains_judged))]
pub fn judge_chains(chains: &[f64], lengths: &[u32], gamma: u32, room: usize) -> Result<(), Refusal>
    ensures { result ≡ chains_judged chains.now lengths.now gamma room }
{
    judge_counts(gamma, lengths.len())?;
    if lengths.len() * 64 <= chains.len() && (gamma as usize) < room {
        passed_if(
            chain_tests::are_chains(chains, lengths, gamma),
            Refusal::Input,
        )
    } else {
        Err(Refusal::ShortBuffer)
    }
}

// 12, then 11, then 16. `room` is how many values there is room for.
#[tactic(auto, unfolding(crate::specs::Refusals::model_values_judged))]
pub fn judge_model_values(
    model: AcceptanceModel,
    positions: &[f64],
    gamma: u32,
    n: u32,
    room: usize,
) -> Result<(), Refusal>
    ensures { result ≡ model_values_judged model positions.now gamma n room }
{
    acceptance::judge_model(model, positions)?;
    judge_counts(gamma, n as usize)?;
    passed_if(gamma as usize + 1 <= room, Refusal::ShortBuffer)
}

// 11 where the depth is no bank's, gamma is too large or there are too many sequences.
#[tactic(auto, unfolding(crate::specs::Refusals::bank_sizes_judged))]
fn judge_bank_sizes(depth: u32, gamma: u32, n: u32) -> Result<(), Refusal>
    ensures { result ≡ bank_sizes_judged depth gamma n }
{
    passed_if(1 <= depth && depth <= MOST_GAMMA, Refusal::Size)?;
    judge_counts(gamma, n as usize)
}

// 11, 16, then 15. `room` is how many values there is room for.
#[tactic(auto, unfolding(crate::specs::Refusals::bank_values_judged))]
pub fn judge_bank_values(
    curve: &[f64],
    depth: u32,
    gamma: u32,
    n: u32,
    room: usize,
) -> Result<(), Refusal>
    ensures { result ≡ bank_values_judged curve.now depth gamma n room }
{
    judge_bank_sizes(depth, gamma, n)?;
    let count = gamma.min(depth) as usize + 1;
    if count <= curve.len() && (gamma as usize) < room {
        passed_if(
            chain_tests::are_up_to(&curve[..count], 64.0),
            Refusal::Input,
        )
    } else {
        Err(Refusal::ShortBuffer)
    }
}

// 12, 11, 16, then 15.
#[tactic(auto, using(crate::proofs::Judges::sizes_passed), unfolding(crate::specs::Refusals::cost_judged))]
pub fn judge_cost(
    drafter: DrafterCost,
    g: u32,
    n: u32,
    rates: Rates,
    verify: f64,
    loaded: &[f64],
) -> Result<(), Refusal>
    ensures { result ≡ cost_judged drafter g n rates verify loaded.now }
{
    judge_sizes(drafter, g, n as usize)?;
    let valued = float::in_range_or_infinite(verify, 0.0, 1e9);
    judge_inputs(drafter, n, rates, valued, loaded)
}

// 12, 11, 16, then 15.
#[tactic(auto, using(crate::proofs::Judges::sizes_passed), unfolding(crate::specs::Refusals::depth_judged))]
pub fn judge_depth(
    expected: &[f64],
    curve: &[f64],
    gamma: u32,
    n: u32,
    drafter: DrafterCost,
    rates: Rates,
    loaded: &[f64],
) -> Result<(), Refusal>
    ensures { result ≡ depth_judged expected.now curve.now gamma n drafter rates loaded.now }
{
    judge_sizes(drafter, gamma, n as usize)?;
    let count = gamma as usize + 1;
    if count <= expected.len() && count <= curve.len() {
        let valued = are_weighed(&expected[..count], &curve[..count]);
        judge_inputs(drafter, n, rates, valued, loaded)
    } else {
        Err(Refusal::ShortBuffer)
    }
}

// Whether the expected values and the prices are in range.
fn are_weighed(expected: &[f64], curve: &[f64]) -> bool
    ensures { result ≡ is_weighed expected.now curve.now }
{
    chain_tests::are_up_to(expected, 65536.0) && chain_tests::are_prices(curve)
}

// 12, 11, 16, then 15.
#[tactic(auto, using(crate::proofs::Judges::sizes_passed), unfolding(crate::specs::Refusals::aggregate_judged))]
pub fn judge_aggregate(
    chains: &[f64],
    lengths: &[u32],
    curve: &[f64],
    gamma: u32,
    drafter: DrafterCost,
    rates: Rates,
    loaded: &[f64],
) -> Result<(), Refusal>
    ensures { result ≡ aggregate_judged chains.now lengths.now curve.now gamma drafter rates loaded.now }
{
    judge_sizes(drafter, gamma, lengths.len())?;
    let count = gamma as usize + 1;
    if lengths.len() * 64 <= chains.len() && count <= curve.len() {
        let valued = are_priced(chains, lengths, gamma, &curve[..count]);
        judge_inputs(drafter, lengths.len() as u32, rates, valued, loaded)
    } else {
        Err(Refusal::ShortBuffer)
    }
}

// Whether the chains and the prices are in range.
fn are_priced(chains: &[f64], lengths: &[u32], gamma: u32, curve: &[f64]) -> bool
    requires { length lengths.now * 64 ≤ length chains.now }
    ensures { result ≡ is_priced_batch chains.now lengths.now gamma curve.now }
{
    chain_tests::are_chains(chains, lengths, gamma) && chain_tests::are_prices(curve)
}
