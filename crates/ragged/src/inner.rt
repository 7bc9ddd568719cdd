// The ragged gate for a caller that has judged what it lends, and knows the batch's best depth.
ghost use Rattle.std.specs.Prelude.{◌≡◌, ◌≤◌, ◌<◌, length};
ghost use Rattle.verify_prices.specs.Rule.{rule_of, Priced};
ghost use Rattle.verify_prices.specs.declared.PriceMode.TheVariants.{Default, Bridged};
ghost use Rattle.slots.specs.Slots.{Fits, AtMost};
ghost use Rattle.slots.specs.Gate.{Chosen};
ghost use Rattle.trim.specs.Ragged.{pass_of, ragged_widths, ragged_gate};

use crate::sums::{fill_passes, full_draft};
use slots::inner::start_widths;
use speculative::drafter::{DrafterCost, Rates};
use trim::inner::trim_from;
use verify_prices::PriceMode;
use verify_prices::bridging::fill_spans;

// The gate from widths that are as deep as they may be, with room for a candidate of each sequence and for the passes.
fn trim_within(
    chains: &[f64],
    mode: PriceMode,
    curve: &[f64],
    spans: &[u8],
    depth: u32,
    kind: DrafterCost,
    rates: Rates,
    loaded: &[f64],
    rank: &mut [u64],
    seq: &mut [u64],
    passes: &mut [f64],
    widths: &mut [u32],
) -> usize
    requires fits { Fits chains.now widths.old (length widths.old) }
    requires at_most { AtMost depth widths.old × (depth ≤ 64) }
    requires priced { Priced mode curve.now spans.now }
    requires widths_in_bounds { (length widths.old ≤ length rank.old) × (length widths.old ≤ length seq.old) × (length widths.old < length passes.old) }
    ensures { record { widths = widths.new; weighed = result } ≡ ragged_widths (pass_of kind rates loaded.now) (rule_of mode curve.now (length widths.old)) chains.now depth widths.old }
{
    let n = widths.len() as u32;
    fill_passes(kind, rates, loaded, n, passes);
    let mut nk = [0u32; 64];
    let start = full_draft(chains, widths, depth, mode, curve, spans, passes, &mut nk);
    trim_from(
        chains, mode, curve, spans, depth, passes, start, rank, seq, &mut nk, widths,
    )
}

// The gate for fewer than N sequences, since there is a pass more than sequences.
fn trim_roomy<const N: usize>(
    chains: &[f64],
    mode: PriceMode,
    curve: &[f64],
    spans: &[u8],
    depth: u32,
    kind: DrafterCost,
    rates: Rates,
    loaded: &[f64],
    widths: &mut [u32],
) -> usize
    requires fits { Fits chains.now widths.old (length widths.old) }
    requires room { (length widths.old < N) × (N ≤ 1025) }
    requires at_most { AtMost depth widths.old × (depth ≤ 64) }
    requires priced { Priced mode curve.now spans.now }
    ensures { record { widths = widths.new; weighed = result } ≡ ragged_widths (pass_of kind rates loaded.now) (rule_of mode curve.now (length widths.old)) chains.now depth widths.old }
{
    let mut rank = [0u64; N];
    let mut seq = [0u64; N];
    let mut passes = [0.0f64; N];
    trim_within(
        chains,
        mode,
        curve,
        spans,
        depth,
        kind,
        rates,
        loaded,
        &mut rank,
        &mut seq,
        &mut passes,
        widths,
    )
}

// The gate from widths that are as deep as they may be. For a few sequences clearing the room of 64 would be a good part of the work.
fn trim(
    chains: &[f64],
    mode: PriceMode,
    curve: &[f64],
    spans: &[u8],
    depth: u32,
    kind: DrafterCost,
    rates: Rates,
    loaded: &[f64],
    widths: &mut [u32],
) -> usize
    requires fits { Fits chains.now widths.old (length widths.old) }
    requires at_most { AtMost depth widths.old × (depth ≤ 64) }
    requires priced { Priced mode curve.now spans.now }
    ensures { record { widths = widths.new; weighed = result } ≡ ragged_widths (pass_of kind rates loaded.now) (rule_of mode curve.now (length widths.old)) chains.now depth widths.old }
{
    if widths.len() <= 16 {
        trim_roomy::<17>(
            chains, mode, curve, spans, depth, kind, rates, loaded, widths,
        )
    } else if widths.len() <= 64 {
        trim_roomy::<65>(
            chains, mode, curve, spans, depth, kind, rates, loaded, widths,
        )
    } else {
        trim_roomy::<1025>(
            chains, mode, curve, spans, depth, kind, rates, loaded, widths,
        )
    }
}

// The same by the default prices, which read no spans.
fn trim_default(
    chains: &[f64],
    curve: &[f64],
    depth: u32,
    kind: DrafterCost,
    rates: Rates,
    loaded: &[f64],
    widths: &mut [u32],
) -> usize
    requires fits { Fits chains.now widths.old (length widths.old) }
    requires at_most { AtMost depth widths.old × (depth ≤ 64) }
    requires in_bounds { (1 < length curve.now) × (length curve.now ≤ 65) }
    ensures { record { widths = widths.new; weighed = result } ≡ ragged_widths (pass_of kind rates loaded.now) (rule_of Default curve.now (length widths.old)) chains.now depth widths.old }
{
    let spans = [0u8; 1];
    trim(
        chains,
        PriceMode::Default,
        curve,
        &spans,
        depth,
        kind,
        rates,
        loaded,
        widths,
    )
}

// The same by bridged prices: the nearest measured depths are looked for once.
fn trim_bridged(
    chains: &[f64],
    curve: &[f64],
    depth: u32,
    kind: DrafterCost,
    rates: Rates,
    loaded: &[f64],
    widths: &mut [u32],
) -> usize
    requires fits { Fits chains.now widths.old (length widths.old) }
    requires at_most { AtMost depth widths.old × (depth ≤ 64) }
    requires in_bounds { (1 < length curve.now) × (length curve.now ≤ 65) }
    ensures { record { widths = widths.new; weighed = result } ≡ ragged_widths (pass_of kind rates loaded.now) (rule_of Bridged curve.now (length widths.old)) chains.now depth widths.old }
{
    let mut spans = [0u8; 130];
    fill_spans(curve, &mut spans);
    trim(
        chains,
        PriceMode::Bridged,
        curve,
        &spans,
        depth,
        kind,
        rates,
        loaded,
        widths,
    )
}

// The same by the prices of the mode.
fn trim_by(
    chains: &[f64],
    mode: PriceMode,
    curve: &[f64],
    depth: u32,
    kind: DrafterCost,
    rates: Rates,
    loaded: &[f64],
    widths: &mut [u32],
) -> usize
    requires fits { Fits chains.now widths.old (length widths.old) }
    requires at_most { AtMost depth widths.old × (depth ≤ 64) }
    requires in_bounds { (1 < length curve.now) × (length curve.now ≤ 65) }
    ensures { record { widths = widths.new; weighed = result } ≡ ragged_widths (pass_of kind rates loaded.now) (rule_of mode curve.now (length widths.old)) chains.now depth widths.old }
{
    match mode {
        PriceMode::Default => trim_default(chains, curve, depth, kind, rates, loaded, widths),
        PriceMode::Bridged => trim_bridged(chains, curve, depth, kind, rates, loaded, widths),
    }
}

// The ragged gate: within the batch's depth the widths worth drafting; says how many slots it weighed.
pub fn gated_ragged_draft(
    chains: &[f64],
    lengths: &[u32],
    mode: PriceMode,
    curve: &[f64],
    depth: u32,
    kind: DrafterCost,
    rates: Rates,
    loaded: &[f64],
    widths: &mut [u32],
) -> usize
    requires fits { Fits chains.now lengths.now (length lengths.now) }
    requires depth_in_bounds { (depth < length curve.now) × (length curve.now ≤ 65) }
    requires widths_len { length widths.old ≡ length lengths.now }
    ensures { record { widths = widths.new; weighed = result } ≡ ragged_gate (rule_of mode curve.now (length lengths.now)) chains.now lengths.now depth kind rates loaded.now }
{
    start_widths(lengths, depth, widths);
    if depth == 0 {
        return 0;
    }
    trim_by(chains, mode, curve, depth, kind, rates, loaded, widths)
}
