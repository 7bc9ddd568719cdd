// The ragged gate's weighing: the deepest slots are given back while that pays.
ghost use Rattle.std.specs.Prelude.{◌≡◌, ◌+◌, ◌-◌, ◌*◌, ◌≤◌, ◌<◌, length, get_or, set};
ghost use Rattle.heap.specs.Heap.{Holds};
ghost use Rattle.heap.specs.Greedy.{frontier};
ghost use Rattle.verify_prices.specs.Rule.{price_by, rule_of, Priced};
ghost use Rattle.verdict.specs.Decision.{removal_under};
ghost use Rattle.verdict.specs.Tallies.{sums_of, decision_of, Rated, StillRated};
ghost use Rattle.slots.specs.Slots.{Fits, AtMost, stacks, down_from, survival};
ghost use Rattle.slots.specs.Gate.{Chosen};
ghost use Rattle.trim.specs.Ragged.{margin_of, full_draft, ragged_widths};
ghost use Rattle.trim.specs.Kept.{Counts, listed};

use crate::left::{margin, next_look, none_pays};
use slots::inner::{deepest, fill_deepest, survival_at};
use verdict::inner::{Tally, Verdict};
use verify_prices::PriceMode;

// Makes entry k one less; says what it is then.
fn less_one(list: &mut [u32], k: usize) -> u32
    requires { (k < length list.old) × (0 < get_or list.old k 0) }
    ensures { (result ≡ get_or list.old k 0 - 1) × (list.new ≡ set list.old k (get_or list.old k 0 - 1)) }
{
    let w = list[k] - 1;
    list[k] = w;
    w
}

// The verdict on the deepest slot of sequence k.
fn weigh(
    chains: &[f64],
    mode: PriceMode,
    curve: &[f64],
    spans: &[u8],
    widths: &[u32],
    nk: &[u32],
    passes: &[f64],
    k: usize,
    n: u32,
    tally: Tally,
) -> Verdict
    requires k_in_bounds { (k * 64 + 64 ≤ length chains.now) × (k < length widths.now) }
    requires nonzero { (0 < get_or widths.now k 0) × (get_or widths.now k 0 ≤ 64) }
    requires nk_len { (length nk.now ≡ 64) × (0 < get_or nk.now (get_or widths.now k 0 - 1) 0) × (get_or nk.now (get_or widths.now k 0 - 1) 0 < length passes.now) }
    requires priced { Priced mode curve.now spans.now }
    requires rated_2 { Rated (price_by mode curve.now n) tally }
    ensures decided { decision_of result ≡ removal_under (rule_of mode curve.now n) (sums_of tally) (survival chains.now k (get_or widths.now k 0 - 1)) (margin_of (listed passes.now) (get_or nk.now (get_or widths.now k 0 - 1) 0)) }
    ensures rated { StillRated (price_by mode curve.now n) result }
{
    let d = widths[k] - 1;
    let s = survival_at(chains, k, d);
    let cost = margin(passes, nk[d as usize]);
    tally.without(s, cost, mode, curve, spans, n)
}

// Weighs slots until none is left; says how many.
fn weigh_all(
    chains: &[f64],
    mode: PriceMode,
    curve: &[f64],
    spans: &[u8],
    n: u32,
    depth: u32,
    passes: &[f64],
    start: Tally,
    first: usize,
    rank: &mut [u64],
    seq: &mut [u64],
    nk: &mut [u32],
    widths: &mut [u32],
) -> usize
    requires fits { Fits chains.now widths.old n }
    requires at_most { AtMost depth widths.old × (depth ≤ 64) × Counts nk.old widths.old depth }
    requires priced { Priced mode curve.now spans.now }
    requires n_in_bounds { n < length passes.now }
    requires n_in_bounds_2 { (n ≤ length rank.old) × (n ≤ length seq.old) × (first ≤ n) }
    requires start_value { sums_of start ≡ (full_draft (listed passes.now) chains.now depth widths.old).sums }
    requires rated { Rated (price_by mode curve.now n) start }
    requires holds { Holds rank.old seq.old first (frontier (stacks down_from widths.old chains.now)) }
    ensures { record { widths = widths.new; weighed = result } ≡ ragged_widths (listed passes.now) (rule_of mode curve.now n) chains.now depth widths.old }
{
    let mut live = first;
    let mut due = first;
    let mut weighed: usize = 0;
    let mut tally = start;
    // no index is counted: each turn weighs the heap's top, until none is left or no other pays
    while 0 < live {
        let k = seq[0] as usize;
        weighed += 1;
        let verdict = weigh(chains, mode, curve, spans, widths, nk, passes, k, n, tally);
        match verdict {
            Verdict::Stop => {
                return weighed;
            }
            Verdict::Pass => {
                let look = live <= due;
                let rest = &seq[..live];
                if none_pays(
                    look, chains, mode, curve, spans, widths, nk, passes, rest, n, tally,
                ) {
                    return weighed + (live - 1);
                }
                due = next_look(live, due);
                live = heap::inner::settle(rank, seq, live, false, 0);
            }
            Verdict::Take(next) => {
                tally = next;
                let w = less_one(widths, k);
                less_one(nk, w as usize);
                let slot = deepest(chains, k, w);
                live = heap::inner::settle(rank, seq, live, slot.more, slot.rank);
            }
        }
    }
    weighed
}

// The gate from widths that the whole draft has, with the tally and the counts of it.
pub fn trim_from(
    chains: &[f64],
    mode: PriceMode,
    curve: &[f64],
    spans: &[u8],
    depth: u32,
    passes: &[f64],
    start: Tally,
    rank: &mut [u64],
    seq: &mut [u64],
    nk: &mut [u32],
    widths: &mut [u32],
) -> usize
    requires fits { Fits chains.now widths.old (length widths.old) }
    requires at_most { AtMost depth widths.old × (depth ≤ 64) × Counts nk.old widths.old depth }
    requires priced { Priced mode curve.now spans.now }
    requires widths_in_bounds { length widths.old < length passes.now }
    requires widths_in_bounds_2 { (length widths.old ≤ length rank.old) × (length widths.old ≤ length seq.old) }
    requires start_value { sums_of start ≡ (full_draft (listed passes.now) chains.now depth widths.old).sums }
    requires rated { Rated (price_by mode curve.now (length widths.old)) start }
    ensures { record { widths = widths.new; weighed = result } ≡ ragged_widths (listed passes.now) (rule_of mode curve.now (length widths.old)) chains.now depth widths.old }
{
    let n = widths.len() as u32;
    let live = fill_deepest(chains, widths, rank, seq);
    heap::inner::heapify(rank, seq, live);
    weigh_all(
        chains, mode, curve, spans, n, depth, passes, start, live, rank, seq, nk, widths,
    )
}
