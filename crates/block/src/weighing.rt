// The block gate's weighing: the drafter's block is paid for, and slots are added to the verify while each pays.
ghost use Rattle.std.specs.Prelude.{◌≡◌, ◌+◌, ◌-◌, ◌*◌, ◌≤◌, ◌<◌, min, length, get_or, set, drop, replicate};
ghost use Rattle.heap.specs.Heap.{Stands, Holds, candidate};
ghost use Rattle.heap.specs.Greedy.{head_of, frontier};
ghost use Rattle.verify_prices.specs.Rule.{price_by, Priced};
ghost use Rattle.verify_prices.specs.declared.PriceMode.TheVariants.{Default, Bridged};
ghost use Rattle.verdict.specs.Decision.{slot_at};
ghost use Rattle.verdict.specs.Tallies.{sums_of, decision_of, Rated, StillRated};
ghost use Rattle.slots.specs.Gate.{Chosen};
ghost use Rattle.slots.specs.Slots.{Fits, starts, stacks, up_to, survival};
ghost use Rattle.block.specs.Block.{block_from, block_widths};

use slots::inner::{Slot, survival_at};
use verdict::inner::{Tally, Verdict, starting};
use verify_prices::PriceMode;
use verify_prices::bridging::{bridged_cost, fill_spans};
use verify_prices::inner::verify_cost;

// The rank of slot w of sequence k, if it is within the block.
fn slot_at(chains: &[f64], lengths: &[u32], depth: u32, k: usize, w: u32) -> Slot
    requires fits { Fits chains.now lengths.now (length lengths.now) }
    requires k_in_bounds { k < length lengths.now }
    ensures { candidate result.more result.rank ≡ head_of (drop w (up_to (min depth (get_or lengths.now k 0)) (drop (k * 64) chains.now))) }
{
    if w < depth.min(lengths[k]) {
        Slot {
            more: true,
            rank: float::bits(survival_at(chains, k, w)),
        }
    } else {
        Slot {
            more: false,
            rank: 0,
        }
    }
}

// An entry for each sequence that has a slot: its first; says how many.
fn fill(chains: &[f64], lengths: &[u32], depth: u32, rank: &mut [u64], seq: &mut [u64]) -> usize
    requires fits { Fits chains.now lengths.now (length lengths.now) }
    requires lengths_in_bounds { (length lengths.now ≤ length rank.old) × (length lengths.now ≤ length seq.old) }
    ensures { (result ≤ length lengths.now) × Stands rank.new seq.new result (frontier (stacks up_to (starts depth lengths.now) chains.now)) }
{
    let mut m: usize = 0;
    for k in 0..lengths.len() {
        let slot = slot_at(chains, lengths, depth, k, 0);
        if slot.more {
            rank[m] = slot.rank;
            seq[m] = k as u64;
            m += 1;
        }
    }
    m
}

// Takes one slot of sequence k; says how many it has now.
fn grow(widths: &mut [u32], k: usize) -> u32
    requires { (k < length widths.old) × (get_or widths.old k 0 < 64) }
    ensures { (result ≡ get_or widths.old k 0 + 1) × (widths.new ≡ set widths.old k (get_or widths.old k 0 + 1)) }
{
    let w = widths[k] + 1;
    widths[k] = w;
    w
}

// The verdict on the next slot of sequence k. The mode is asked for first, so that the default price is worked out in line.
fn weigh(
    chains: &[f64],
    mode: PriceMode,
    curve: &[f64],
    spans: &[u8],
    widths: &[u32],
    k: usize,
    n: u32,
    tally: Tally,
) -> Verdict
    requires k_in_bounds { (k * 64 + 64 ≤ length chains.now) × (k < length widths.now) × (get_or widths.now k 0 < 64) }
    requires priced { Priced mode curve.now spans.now }
    requires rated_2 { Rated (price_by mode curve.now n) tally }
    ensures decided { decision_of result ≡ slot_at (price_by mode curve.now n) (sums_of tally) (survival chains.now k (get_or widths.now k 0)) }
    ensures rated { StillRated (price_by mode curve.now n) result }
{
    match mode {
        PriceMode::Default => {
            let vn = verify_cost(curve, n, tally.tokens + 1.0);
            let s = survival_at(chains, k, widths[k]);
            tally.slot(s, vn)
        }
        PriceMode::Bridged => {
            let vn = bridged_cost(curve, spans, n, tally.tokens + 1.0);
            let s = survival_at(chains, k, widths[k]);
            tally.slot(s, vn)
        }
    }
}

// Weighs slots until none is left or one does not pay; says how many. Where one is passed over so are all that are left: the price of one token more is
// the same for each.
fn weigh_all(
    chains: &[f64],
    lengths: &[u32],
    depth: u32,
    mode: PriceMode,
    curve: &[f64],
    spans: &[u8],
    n: u32,
    start: Tally,
    first: usize,
    rank: &mut [u64],
    seq: &mut [u64],
    widths: &mut [u32],
) -> usize
    requires fits { Fits chains.now lengths.now n }
    requires priced { Priced mode curve.now spans.now }
    requires n_in_bounds { (n ≤ length rank.old) × (n ≤ length seq.old) × (first ≤ n) }
    requires widths_value { widths.old ≡ replicate n 0 }
    requires holds { Holds rank.old seq.old first (frontier (stacks up_to (starts depth lengths.now) chains.now)) }
    requires rated { Rated (price_by mode curve.now n) start }
    ensures { record { widths = widths.new; weighed = result } ≡ block_from (price_by mode curve.now n) chains.now depth (sums_of start) lengths.now }
{
    let mut live = first;
    let mut weighed: usize = 0;
    let mut tally = start;
    // no index is counted: each turn weighs the heap's top, until none is left or one ends the gate
    while 0 < live {
        let k = seq[0] as usize;
        weighed += 1;
        let verdict = weigh(chains, mode, curve, spans, widths, k, n, tally);
        match verdict {
            Verdict::Stop => {
                return weighed;
            }
            Verdict::Pass => {
                return weighed + (live - 1);
            }
            Verdict::Take(next) => {
                tally = next;
                let w = grow(widths, k);
                let slot = slot_at(chains, lengths, depth, k, w);
                live = heap::inner::settle(rank, seq, live, slot.more, slot.rank);
            }
        }
    }
    weighed
}

// The gate within blocks of the given depth that cost `draft` to make, with room for a candidate of each sequence.
fn verify_within(
    chains: &[f64],
    lengths: &[u32],
    depth: u32,
    mode: PriceMode,
    curve: &[f64],
    spans: &[u8],
    draft: f64,
    rank: &mut [u64],
    seq: &mut [u64],
    widths: &mut [u32],
) -> usize
    requires fits { Fits chains.now lengths.now (length lengths.now) }
    requires priced { Priced mode curve.now spans.now }
    requires lengths_in_bounds { (length lengths.now ≤ length rank.old) × (length lengths.now ≤ length seq.old) }
    requires widths_value { widths.old ≡ replicate (length lengths.now) 0 }
    ensures { record { widths = widths.new; weighed = result } ≡ block_widths (price_by mode curve.now (length lengths.now)) chains.now depth draft lengths.now }
{
    let n = lengths.len() as u32;
    let live = fill(chains, lengths, depth, rank, seq);
    heap::inner::heapify(rank, seq, live);
    let start = starting(n as f64, n as f64, draft, mode, curve, spans, n);
    weigh_all(
        chains, lengths, depth, mode, curve, spans, n, start, live, rank, seq, widths,
    )
}

// The gate for at most N sequences.
fn verify_roomy<const N: usize>(
    chains: &[f64],
    lengths: &[u32],
    depth: u32,
    mode: PriceMode,
    curve: &[f64],
    spans: &[u8],
    draft: f64,
    widths: &mut [u32],
) -> usize
    requires fits { Fits chains.now lengths.now (length lengths.now) }
    requires room { (length lengths.now ≤ N) × (N ≤ 1024) }
    requires priced { Priced mode curve.now spans.now }
    requires widths_value { widths.old ≡ replicate (length lengths.now) 0 }
    ensures { record { widths = widths.new; weighed = result } ≡ block_widths (price_by mode curve.now (length lengths.now)) chains.now depth draft lengths.now }
{
    let mut rank = [0u64; N];
    let mut seq = [0u64; N];
    verify_within(
        chains, lengths, depth, mode, curve, spans, draft, &mut rank, &mut seq, widths,
    )
}

// The gate within blocks of the given depth that cost `draft` to make.
fn verify_block(
    chains: &[f64],
    lengths: &[u32],
    depth: u32,
    mode: PriceMode,
    curve: &[f64],
    spans: &[u8],
    draft: f64,
    widths: &mut [u32],
) -> usize
    requires fits { Fits chains.now lengths.now (length lengths.now) }
    requires priced { Priced mode curve.now spans.now }
    requires widths_value { widths.old ≡ replicate (length lengths.now) 0 }
    ensures { record { widths = widths.new; weighed = result } ≡ block_widths (price_by mode curve.now (length lengths.now)) chains.now depth draft lengths.now }
{
    if lengths.len() <= 64 {
        verify_roomy::<64>(chains, lengths, depth, mode, curve, spans, draft, widths)
    } else {
        verify_roomy::<1024>(chains, lengths, depth, mode, curve, spans, draft, widths)
    }
}

// The same by the default prices, which read no spans.
fn verify_default(
    chains: &[f64],
    lengths: &[u32],
    depth: u32,
    curve: &[f64],
    draft: f64,
    widths: &mut [u32],
) -> usize
    requires fits { Fits chains.now lengths.now (length lengths.now) }
    requires in_bounds { (1 < length curve.now) × (length curve.now ≤ 65) }
    requires widths_value { widths.old ≡ replicate (length lengths.now) 0 }
    ensures { record { widths = widths.new; weighed = result } ≡ block_widths (price_by Default curve.now (length lengths.now)) chains.now depth draft lengths.now }
{
    let spans = [0u8; 1];
    verify_block(
        chains,
        lengths,
        depth,
        PriceMode::Default,
        curve,
        &spans,
        draft,
        widths,
    )
}

// The same by bridged prices: the nearest measured depths are looked for once.
fn verify_bridged(
    chains: &[f64],
    lengths: &[u32],
    depth: u32,
    curve: &[f64],
    draft: f64,
    widths: &mut [u32],
) -> usize
    requires fits { Fits chains.now lengths.now (length lengths.now) }
    requires in_bounds { (1 < length curve.now) × (length curve.now ≤ 65) }
    requires widths_value { widths.old ≡ replicate (length lengths.now) 0 }
    ensures { record { widths = widths.new; weighed = result } ≡ block_widths (price_by Bridged curve.now (length lengths.now)) chains.now depth draft lengths.now }
{
    let mut spans = [0u8; 130];
    fill_spans(curve, &mut spans);
    verify_block(
        chains,
        lengths,
        depth,
        PriceMode::Bridged,
        curve,
        &spans,
        draft,
        widths,
    )
}

// The same by the prices of the mode.
pub fn verify_by(
    chains: &[f64],
    lengths: &[u32],
    depth: u32,
    mode: PriceMode,
    curve: &[f64],
    draft: f64,
    widths: &mut [u32],
) -> usize
    requires fits { Fits chains.now lengths.now (length lengths.now) }
    requires in_bounds { (1 < length curve.now) × (length curve.now ≤ 65) }
    requires widths_value { widths.old ≡ replicate (length lengths.now) 0 }
    ensures { record { widths = widths.new; weighed = result } ≡ block_widths (price_by mode curve.now (length lengths.now)) chains.now depth draft lengths.now }
{
    match mode {
        PriceMode::Default => verify_default(chains, lengths, depth, curve, draft, widths),
        PriceMode::Bridged => verify_bridged(chains, lengths, depth, curve, draft, widths),
    }
}
