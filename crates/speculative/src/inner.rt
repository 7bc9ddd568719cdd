// What a caller that has judged the settings calls.
ghost use Rattle.std.specs.Prelude.{◌≡◌, ◌≤◌, length};
ghost use Rattle.speculative.specs.Drafter.{head_pass, block_seconds, drafter_seconds, loaded_at, pass_seconds, passes_from, ragged_seconds};

use crate::drafter::{DrafterCost, Rates};
pub use draft_inputs::inner::{largest_of, still_drafting};

// One pass of an autoregressive head over `b` sequences, of which `loaded` routed experts are read.
fn head_pass(
    dense_params: f64,
    expert_params: f64,
    experts_per_tok: u32,
    shared_experts: u32,
    b: f64,
    rates: Rates,
    loaded: f64,
) -> f64
    ensures { result ≡ head_pass dense_params expert_params experts_per_tok shared_experts b rates loaded }
{
    let k = experts_per_tok as f64;
    let shared = shared_experts as f64;
    let resident = dense_params + (shared + loaded) * expert_params;
    let active = dense_params + (k + shared) * expert_params;
    float::max((2.0 * active * b) / rates.peak, (2.0 * resident) / rates.bw)
}

// The one pass over the whole block, whatever depth is verified.
fn block_seconds(params: f64, block: u32, b: f64, rates: Rates) -> f64
    ensures { result ≡ block_seconds params block b rates }
{
    let bl = block as f64;
    float::max(
        (2.0 * params * b * bl) / rates.peak,
        (2.0 * params) / rates.bw,
    )
}

// The seconds of a draft of `gamma` over `batch` sequences, of which `loaded` routed experts are read.
pub fn seconds(
    drafter: DrafterCost,
    gamma: u32,
    batch: u32,
    rates: Rates,
    verify_c: f64,
    loaded: f64,
) -> f64
    ensures { result ≡ drafter_seconds drafter gamma batch rates verify_c loaded }
{
    if gamma == 0 {
        return 0.0;
    }
    let g = gamma as f64;
    let b = batch as f64;
    match drafter {
        DrafterCost::Fraction { frac } => frac * g * verify_c,
        DrafterCost::Autoregressive {
            dense_params,
            expert_params,
            num_experts: _,
            experts_per_tok,
            shared_experts,
        } => {
            g * head_pass(
                dense_params,
                expert_params,
                experts_per_tok,
                shared_experts,
                b,
                rates,
                loaded,
            )
        }
        DrafterCost::BlockParallel { params, block } => block_seconds(params, block, b, rates),
    }
}

// The routed experts that `batch` sequences load: an entry of the list for an autoregressive head, which alone reads it.
pub fn loaded_at(drafter: DrafterCost, loaded: &[f64], batch: usize) -> f64
    ensures { result ≡ loaded_at drafter loaded.now batch }
{
    match drafter {
        DrafterCost::Autoregressive { .. } => {
            if batch < loaded.len() {
                loaded[batch]
            } else {
                0.0
            }
        }
        DrafterCost::Fraction { .. } | DrafterCost::BlockParallel { .. } => 0.0,
    }
}

// One pass over `batch` sequences: nothing for none, and for a head that makes no passes.
pub fn pass_seconds(drafter: DrafterCost, batch: u32, rates: Rates, loaded: f64) -> f64
    ensures { result ≡ pass_seconds drafter batch rates loaded }
{
    match drafter {
        DrafterCost::Fraction { .. } | DrafterCost::BlockParallel { .. } => 0.0,
        DrafterCost::Autoregressive { .. } => {
            if batch == 0 {
                0.0
            } else {
                seconds(drafter, 1, batch, rates, 0.0, loaded)
            }
        }
    }
}

// The passes of depths 1 to `deepest`, each over the sequences that still draft there, added in order.
fn all_passes(
    drafter: DrafterCost,
    widths: &[u32],
    deepest: u32,
    rates: Rates,
    loaded: &[f64],
) -> f64
    requires { length widths.now ≤ 1024 }
    ensures { result ≡ passes_from drafter widths.now rates loaded.now deepest }
{
    let mut sum = 0.0;
    for k in 0..deepest {
        let n = still_drafting(widths, k + 1);
        let experts = loaded_at(drafter, loaded, n as usize);
        sum += pass_seconds(drafter, n, rates, experts);
    }
    sum
}

// The seconds of a draft in which each sequence has its own width: a block head drafts one block for all of them.
pub fn ragged_seconds(
    drafter: DrafterCost,
    widths: &[u32],
    rates: Rates,
    verify_c: f64,
    loaded: &[f64],
) -> f64
    requires { length widths.now ≤ 1024 }
    ensures { result ≡ ragged_seconds drafter widths.now rates verify_c loaded.now }
{
    let deepest = largest_of(widths);
    if deepest == 0 {
        return 0.0;
    }
    match drafter {
        DrafterCost::Fraction { frac } => frac * (deepest as f64) * verify_c,
        DrafterCost::Autoregressive { .. } => all_passes(drafter, widths, deepest, rates, loaded),
        DrafterCost::BlockParallel { params, block } => {
            block_seconds(params, block, widths.len() as u32 as f64, rates)
        }
    }
}
