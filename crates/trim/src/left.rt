// Whether a slot of the sequences that are left pays. Where none does, they are all passed over, in whatever order they are weighed.
ghost use Rattle.std.specs.Prelude.{◌≡◌, cond, false, ◌+◌, ◌-◌, ◌*◌, ◌/◌, ◌≤◌, ◌<◌, leb, length, get_or};
ghost use Rattle.std.specs.Float.Ieee.{lt};
ghost use Rattle.float.specs.Floats.{plus, less};
ghost use Rattle.verify_prices.specs.Rule.{rule_of, Priced};
ghost use Rattle.verdict.specs.Decision.{rate_of};
ghost use Rattle.trim.specs.Ragged.{margin_of};
ghost use Rattle.trim.specs.Kept.{Weighable, listed, pays_at, pays_under, none_of};

use slots::inner::survival_at;
use verdict::inner::Tally;
use verify_prices::PriceMode;
use verify_prices::inner::{is_shut, verify_price};

// What the last of m sequences adds to a pass.
#[tactic(auto, unfolding(crate::specs::Ragged::margin_of))]
pub fn margin(passes: &[f64], m: u32) -> f64
    requires { (0 < m) × (m < length passes.now) }
    ensures { result ≡ margin_of (listed passes.now) m }
{
    let at = m as usize;
    passes[at] - passes[at - 1]
}

// Whether the rate is higher without a slot of survival s whose drafting costs `cost`, where `vp` is the price of one token less.
fn pays(tally: Tally, s: f64, cost: f64, vp: f64) -> bool
    ensures { result ≡ lt tally.rate (rate_of (less tally.expected s) (less (plus vp tally.drafter) cost)) }
{
    let seconds = float::max(vp + tally.drafter - cost, 1e-12);
    tally.rate < (tally.expected - s) / seconds
}

// Whether the deepest slot of sequence k pays.
fn slot_pays(
    chains: &[f64],
    widths: &[u32],
    nk: &[u32],
    passes: &[f64],
    k: usize,
    shut: bool,
    vp: f64,
    tally: Tally,
) -> bool
    requires k_in_bounds { (k * 64 + 64 ≤ length chains.now) × (k < length widths.now) }
    requires nonzero { (0 < get_or widths.now k 0) × (get_or widths.now k 0 ≤ 64) }
    requires nk_len { (length nk.now ≡ 64) × (0 < get_or nk.now (get_or widths.now k 0 - 1) 0) × (get_or nk.now (get_or widths.now k 0 - 1) 0 < length passes.now) }
    ensures { result ≡ pays_at shut tally vp chains.now passes.now nk.now widths.now k }
{
    if shut {
        return false;
    }
    let d = widths[k] - 1;
    let s = survival_at(chains, k, d);
    let cost = margin(passes, nk[d as usize]);
    pays(tally, s, cost, vp)
}

// Whether it is time to look, and no slot of the sequences `rest` pays.
pub fn none_pays(
    look: bool,
    chains: &[f64],
    mode: PriceMode,
    curve: &[f64],
    spans: &[u8],
    widths: &[u32],
    nk: &[u32],
    passes: &[f64],
    rest: &[u64],
    n: u32,
    tally: Tally,
) -> bool
    requires priced { Priced mode curve.now spans.now }
    requires nk_len { (length nk.now ≡ 64) × Weighable chains.now passes.now nk.now widths.now rest.now }
    ensures { result ≡ cond look (none_of (pays_under (rule_of mode curve.now n) tally chains.now passes.now nk.now widths.now) rest.now) false }
{
    if !look {
        return false;
    }
    let vp = verify_price(mode, curve, spans, n, tally.tokens - 1.0);
    let shut = is_shut(mode, vp);
    for k in rest {
        if slot_pays(chains, widths, nk, passes, *k as usize, shut, vp, tally) {
            return false;
        }
    }
    true
}

// How few have to be left for the next look, where `live` are left now: half of those that were left at the last, so that the looks together cost no
// more than the removals do.
pub fn next_look(live: usize, due: usize) -> usize
    ensures { result ≡ cond (leb live due) (live / 2) due }
{
    if live <= due { live / 2 } else { due }
}
