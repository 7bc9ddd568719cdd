// The block gate for a caller that has judged what it lends, and knows the batch's best depth.
ghost use Rattle.std.specs.Prelude.{◌≡◌, ◌≤◌, ◌<◌, length};
ghost use Rattle.verify_prices.specs.Rule.{rule_of};
ghost use Rattle.slots.specs.Gate.{Chosen};
ghost use Rattle.slots.specs.Slots.{Fits};
ghost use Rattle.block.specs.Block.{block_gate};

use crate::weighing::verify_by;
use slots::inner::start_widths;
use speculative::drafter::{DrafterCost, Rates};
use speculative::inner::{loaded_at, seconds};
use verify_prices::PriceMode;
use verify_prices::inner::is_shut;

// The block gate: within the batch's depth the widths worth verifying; says how many slots it weighed.
pub fn gated_block_verify(
    chains: &[f64],
    lengths: &[u32],
    mode: PriceMode,
    curve: &[f64],
    depth: u32,
    kind: DrafterCost,
    rates: Rates,
    loaded: &[f64],
    widths: &mut [u32],
) -> usize
    requires fits { Fits chains.now lengths.now (length lengths.now) }
    requires depth_in_bounds { (depth < length curve.now) × (length curve.now ≤ 65) }
    requires widths_len { length widths.old ≡ length lengths.now }
    ensures { record { widths = widths.new; weighed = result } ≡ block_gate (rule_of mode curve.now (length lengths.now)) chains.now lengths.now curve.now depth kind rates loaded.now }
{
    widths.fill(0);
    if depth == 0 {
        return 0;
    }
    if is_shut(mode, curve[0]) {
        start_widths(lengths, depth, widths);
        return 0;
    }
    let n = lengths.len() as u32;
    let experts = loaded_at(kind, loaded, lengths.len());
    let draft = seconds(kind, depth, n, rates, curve[depth as usize], experts);
    verify_by(chains, lengths, depth, mode, curve, draft, widths)
}
