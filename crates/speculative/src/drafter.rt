// What producing the drafts costs, in seconds a step. Every function takes every drafter, rate, list and number.
ghost use Rattle.std.specs.Prelude.{◌≡◌};
ghost use Rattle.speculative.specs.Drafter.{absent, is_block, is_drafter, is_streamed, drafter_judged, rates_judged, loaded_judged, inputs_judged, cost_judged, draft_seconds, draft_pass, draft_ragged};

use crate::inner;
use draft_inputs::{MOST_COUNT, MOST_GAMMA};
use refusals::Refusal;

// What the drafter streams at, and the cost table's correction for the length of the contexts.
#[derive(Clone, Copy)]
pub struct Rates {
    pub peak: f64,
    pub bw: f64,
    pub kv_delta: f64,
}

// A fraction of the verify cost for each draft; passes of an autoregressive head; one block of fixed length.
#[derive(Clone, Copy)]
pub enum DrafterCost {
    Fraction {
        frac: f64,
    },
    Autoregressive {
        dense_params: f64,
        expert_params: f64,
        num_experts: u32,
        experts_per_tok: u32,
        shared_experts: u32,
    },
    BlockParallel {
        params: f64,
        block: u32,
    },
}

// The most sequences.
const MOST_BATCH: usize = 1024;

// The drafter where none is set: it costs nothing.
pub fn no_drafter() -> DrafterCost
    ensures { result ≡ absent }
{
    DrafterCost::Fraction { frac: 0.0 }
}

// Whether the head drafts one block for all sequences.
pub fn is_block(drafter: DrafterCost) -> bool
    ensures { result ≡ is_block drafter }
{
    match drafter {
        DrafterCost::Fraction { .. } | DrafterCost::Autoregressive { .. } => false,
        DrafterCost::BlockParallel { .. } => true,
    }
}

// Refused as a setting where a rate or a count of the drafter is out of range.
#[tactic(auto, unfolding(crate::specs::Drafter::drafter_judged))]
pub fn judge_drafter(drafter: DrafterCost) -> Result<(), Refusal>
    ensures { result ≡ drafter_judged drafter }
{
    if is_drafter(drafter) {
        Ok(())
    } else {
        Err(Refusal::Setting)
    }
}

// Refused as an input where a rate is out of range.
#[tactic(auto, unfolding(crate::specs::Drafter::rates_judged))]
pub fn judge_rates(rates: Rates) -> Result<(), Refusal>
    ensures { result ≡ rates_judged rates }
{
    if is_streamed(rates) && float::in_signed_range(rates.kv_delta, -1e9, 1e9) {
        Ok(())
    } else {
        Err(Refusal::Input)
    }
}

// The seconds of a draft of `gamma` over `batch` sequences; 12, 11, 16, then 15. `loaded` has the routed experts that each
// number of sequences loads, and is looked at for an autoregressive head alone.
#[tactic(auto, unfolding(crate::specs::Drafter::draft_seconds))]
pub fn seconds(
    drafter: DrafterCost,
    gamma: u32,
    batch: u32,
    rates: Rates,
    verify_c: f64,
    loaded: &[f64],
) -> Result<f64, Refusal>
    ensures { result ≡ draft_seconds drafter gamma batch rates verify_c loaded.now }
{
    let valued = float::in_range(verify_c, 0.0, 1e9);
    let sized = gamma <= MOST_GAMMA;
    judge(drafter, sized, batch as usize, rates, valued, loaded)?;
    let experts = inner::loaded_at(drafter, loaded, batch as usize);
    Ok(inner::seconds(drafter, gamma, batch, rates, verify_c, experts))
}

// One pass over `batch` sequences; 12, 11, 16, then 15.
#[tactic(auto, unfolding(crate::specs::Drafter::draft_pass))]
pub fn pass_seconds(
    drafter: DrafterCost,
    batch: u32,
    rates: Rates,
    loaded: &[f64],
) -> Result<f64, Refusal>
    ensures { result ≡ draft_pass drafter batch rates loaded.now }
{
    judge(drafter, true, batch as usize, rates, true, loaded)?;
    let experts = inner::loaded_at(drafter, loaded, batch as usize);
    Ok(inner::pass_seconds(drafter, batch, rates, experts))
}

// The seconds of a draft in which each sequence has its own width; 12, 11, 16, then 15.
#[tactic(auto, using(crate::proofs::Refusals::cost_sized), unfolding(crate::specs::Drafter::draft_ragged))]
pub fn ragged_seconds(
    drafter: DrafterCost,
    widths: &[u32],
    rates: Rates,
    verify_c: f64,
    loaded: &[f64],
) -> Result<f64, Refusal>
    ensures { result ≡ draft_ragged drafter widths.now rates verify_c loaded.now }
{
    let valued = draft_inputs::inner::is_ragged(widths, verify_c);
    judge(drafter, true, widths.len(), rates, valued, loaded)?;
    Ok(inner::ragged_seconds(drafter, widths, rates, verify_c, loaded))
}

// Whether each rate and count of the drafter is in range.
fn is_drafter(drafter: DrafterCost) -> bool
    ensures { result ≡ is_drafter drafter }
{
    match drafter {
        DrafterCost::Fraction { frac } => float::in_range(frac, 0.0, 1e6),
        DrafterCost::Autoregressive {
            dense_params,
            expert_params,
            num_experts,
            experts_per_tok,
            shared_experts,
        } => draft_inputs::inner::is_head(
            dense_params,
            expert_params,
            num_experts,
            experts_per_tok,
            shared_experts,
        ),
        DrafterCost::BlockParallel { params, block } => {
            block <= MOST_COUNT && draft_inputs::inner::is_params(params)
        }
    }
}

// Whether the two rates that a drafter streams at are in range.
fn is_streamed(rates: Rates) -> bool
    ensures { result ≡ is_streamed rates }
{
    float::in_range(rates.peak, 1.0, 1e18) && float::in_range(rates.bw, 1.0, 1e18)
}

// What is refused of the loaded experts: for an autoregressive head alone.
#[tactic(auto, unfolding(crate::specs::Drafter::loaded_judged))]
fn judge_loaded(drafter: DrafterCost, batch: usize, loaded: &[f64]) -> Result<(), Refusal>
    ensures { result ≡ loaded_judged drafter batch loaded.now }
{
    match drafter {
        DrafterCost::Autoregressive { .. } => draft_inputs::inner::judge_entries(batch, loaded),
        DrafterCost::Fraction { .. } | DrafterCost::BlockParallel { .. } => Ok(()),
    }
}

// The loaded experts, then the rates and what `valued` says of the call's other values.
#[tactic(auto, unfolding(crate::specs::Drafter::inputs_judged))]
fn judge_inputs(
    drafter: DrafterCost,
    batch: usize,
    rates: Rates,
    valued: bool,
    loaded: &[f64],
) -> Result<(), Refusal>
    ensures { result ≡ inputs_judged drafter batch rates valued loaded.now }
{
    judge_loaded(drafter, batch, loaded)?;
    if is_streamed(rates) && valued {
        Ok(())
    } else {
        Err(Refusal::Input)
    }
}

// The drafter, the sizes, then the inputs. `sized` and `valued` say whether what else the call is lent is in range.
#[tactic(auto, unfolding(crate::specs::Drafter::cost_judged))]
fn judge(
    drafter: DrafterCost,
    sized: bool,
    batch: usize,
    rates: Rates,
    valued: bool,
    loaded: &[f64],
) -> Result<(), Refusal>
    ensures { result ≡ cost_judged drafter sized batch rates valued loaded.now }
{
    judge_drafter(drafter)?;
    if !sized || MOST_BATCH < batch {
        return Err(Refusal::Size);
    }
    judge_inputs(drafter, batch, rates, valued, loaded)
}
