// What the ragged gate starts from: the whole draft's expected tokens, verify tokens and drafter's seconds.
ghost use Rattle.std.specs.Prelude.{◌≡◌, ◌+◌, ◌-◌, ◌*◌, ◌≤◌, ◌<◌, length};
ghost use Rattle.float.specs.Floats.{f0};
ghost use Rattle.speculative.specs.Drafter.{still_drafting};
ghost use Rattle.verify_prices.specs.Rule.{price_by, Priced};
ghost use Rattle.verdict.specs.Tallies.{sums_of, Rated};
ghost use Rattle.slots.specs.Slots.{Fits, AtMost};
ghost use Rattle.ragged.specs.Least.{AtLeast};
ghost use Rattle.trim.specs.Ragged.{sum_from, survivals_from, tokens_from, pass_of, passes_of, full_draft};
ghost use Rattle.trim.specs.Kept.{Counts, Passes, listed};

use speculative::drafter::{DrafterCost, Rates};
use speculative::inner::{loaded_at, pass_seconds, still_drafting};
use verdict::inner::{Tally, starting};
use verify_prices::PriceMode;

// The sum of a chain's survivals.
fn sum_of(chain: &[f64]) -> f64
    ensures { result ≡ sum_from f0 chain.now }
{
    let mut sum = 0.0;
    for survival in chain {
        sum += *survival;
    }
    sum
}

// The survivals of the first slots of each chain, as many as its width says.
fn survivals(chains: &[f64], widths: &[u32]) -> f64
    requires { Fits chains.now widths.now (length widths.now) }
    ensures { result ≡ survivals_from f0 widths.now chains.now }
{
    let mut sum = 0.0;
    for k in 0..widths.len() {
        let at = k * 64;
        let end = at + widths[k] as usize;
        sum += sum_of(&chains[at..end]);
    }
    sum
}

// The tokens to verify. They are counted as whole numbers, which come to the same as floats that are added one by one.
fn tokens(widths: &[u32]) -> f64
    requires { AtMost 64 widths.now × (length widths.now ≤ 1024) }
    ensures { result ≡ tokens_from f0 widths.now }
{
    let mut sum = 0u32;
    for width in widths {
        sum += *width + 1;
    }
    sum as f64
}

// One pass over m sequences.
fn pass(kind: DrafterCost, m: u32, rates: Rates, loaded: &[f64]) -> f64
    ensures { result ≡ pass_of kind rates loaded.now m }
{
    let experts = loaded_at(kind, loaded, m as usize);
    pass_seconds(kind, m, rates, experts)
}

// Writes the seconds of one pass over 0 to n sequences.
pub fn fill_passes(kind: DrafterCost, rates: Rates, loaded: &[f64], n: u32, passes: &mut [f64])
    requires { (n ≤ 1024) × (n < length passes.old) }
    ensures { Passes (pass_of kind rates loaded.now) passes.new n }
{
    for m in 0..n + 1 {
        passes[m as usize] = pass(kind, m, rates, loaded);
    }
}

// A number that no width is below: the smallest of `most` and the widths.
#[tactic(auto, using(crate::proofs::Least::least_next))]
fn smallest_of(widths: &[u32], most: u32) -> u32
    ensures { AtLeast result widths.now }
{
    let mut least = most;
    for width in widths {
        least = least.min(*width);
    }
    least
}

// How many widths are d or more, where none is below `least`: up to there it is all of them, and nothing has to be counted.
fn wide_enough(widths: &[u32], d: u32, least: u32) -> u32
    requires widths_len_bound { length widths.now ≤ 1024 }
    requires at_least { AtLeast least widths.now }
    ensures { result ≡ still_drafting widths.now d }
{
    if d <= least {
        return widths.len() as u32;
    }
    still_drafting(widths, d)
}

// Counts the sequences of each pass, and adds the passes' seconds in order.
fn drafting(widths: &[u32], depth: u32, passes: &[f64], nk: &mut [u32]) -> f64
    requires widths_len_bound { (length widths.now ≤ 1024) × (length widths.now < length passes.now) }
    requires depth_bound { (depth ≤ 64) × (length nk.old ≡ 64) }
    ensures counts { Counts nk.new widths.now depth }
    ensures sum { result ≡ passes_of (listed passes.now) widths.now depth }
{
    let least = smallest_of(widths, depth);
    let mut sum = 0.0;
    for d in 0..depth {
        let m = wide_enough(widths, d + 1, least);
        nk[d as usize] = m;
        sum += passes[m as usize];
    }
    sum
}

// The whole draft.
pub fn full_draft(
    chains: &[f64],
    widths: &[u32],
    depth: u32,
    mode: PriceMode,
    curve: &[f64],
    spans: &[u8],
    passes: &[f64],
    nk: &mut [u32],
) -> Tally
    requires fits { Fits chains.now widths.now (length widths.now) }
    requires priced { Priced mode curve.now spans.now }
    requires widths_in_bounds { (length widths.now < length passes.now) × (depth ≤ 64) × (length nk.old ≡ 64) }
    ensures counts { Counts nk.new widths.now depth }
    ensures sums { sums_of result ≡ (full_draft (listed passes.now) chains.now depth widths.now).sums }
    ensures rated { Rated (price_by mode curve.now (length widths.now)) result }
{
    let n = widths.len() as u32;
    let sum = survivals(chains, widths);
    let t = tokens(widths);
    let seconds = drafting(widths, depth, passes, nk);
    starting(n as f64 + sum, t, seconds, mode, curve, spans, n)
}
