// Judging and counting what a draft is asked with.
ghost use Rattle.std.specs.Prelude.{◌≡◌, ◌&&◌, ◌≤◌, length};
ghost use Rattle.draft_inputs.specs.Inputs.{is_params, is_head, is_verify_cost, all_widths, all_loaded, entries_judged, largest, still_drafting};

use crate::{MOST_COUNT, MOST_GAMMA};
use refusals::Refusal;

// Whether the counts and the parameters of an autoregressive head are in range.
pub fn is_head(
    dense_params: f64,
    expert_params: f64,
    num_experts: u32,
    experts_per_tok: u32,
    shared_experts: u32,
) -> bool
    ensures { result ≡ is_head dense_params expert_params num_experts experts_per_tok shared_experts }
{
    num_experts <= MOST_COUNT
        && experts_per_tok <= MOST_COUNT
        && shared_experts <= MOST_COUNT
        && is_params(dense_params)
        && is_params(expert_params)
}

pub fn is_params(x: f64) -> bool
    ensures { result ≡ is_params x }
{
    float::in_range(x, 0.0, 1e18)
}

// Whether no width is above 64 and the verify cost is in range.
pub fn is_ragged(widths: &[u32], verify_c: f64) -> bool
    ensures { result ≡ (all_widths widths.now && is_verify_cost verify_c) }
{
    are_widths(widths) && float::in_range(verify_c, 0.0, 1e9)
}

pub fn are_widths(widths: &[u32]) -> bool
    ensures { result ≡ all_widths widths.now }
{
    for w in widths {
        if MOST_GAMMA < *w {
            return false;
        }
    }
    true
}

// Whether every entry of the loaded experts is in range.
pub fn are_loaded(loaded: &[f64]) -> bool
    ensures { result ≡ all_loaded loaded.now }
{
    for x in loaded {
        if !float::in_range(*x, 0.0, 1e6) {
            return false;
        }
    }
    true
}

// Refused as too short where the entry of the batch is missing, as an input where one up to it is out of range.
pub fn judge_entries(batch: usize, loaded: &[f64]) -> Result<(), Refusal>
    ensures { result ≡ entries_judged batch loaded.now }
{
    if loaded.len() <= batch {
        return Err(Refusal::ShortBuffer);
    }
    if are_loaded(&loaded[..batch + 1]) {
        Ok(())
    } else {
        Err(Refusal::Input)
    }
}

// The largest width, and 0 of none.
#[tactic(auto, using(crate::proofs::Inputs::largest_next, crate::proofs::Inputs::largest_end))]
pub fn largest_of(widths: &[u32]) -> u32
    ensures { result ≡ largest widths.now }
{
    let mut m = 0u32;
    for w in widths {
        m = m.max(*w);
    }
    m
}

// How many widths are k or more.
#[tactic(auto, using(crate::proofs::Inputs::counts, crate::proofs::Inputs::passes, crate::proofs::Inputs::counted_end))]
pub fn still_drafting(widths: &[u32], k: u32) -> u32
    requires { length widths.now ≤ 1024 }
    ensures { result ≡ still_drafting widths.now k }
{
    let mut n = 0u32;
    for w in widths {
        if k <= *w {
            n += 1;
        }
    }
    n
}
