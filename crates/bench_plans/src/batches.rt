// A batch: its expected acceptance, its best depth and the two gates. A drafter crosses as its kind and its five numbers.
ghost use Rattle.std.specs.Prelude.{◌≡◌};
ghost use Rattle.goodput.specs.Expected.{expected_by_depth, answer_number};
ghost use Rattle.goodput.specs.Depth.{depth_answer};
ghost use Rattle.verify_prices.specs.Rule.{mode_of};
ghost use Rattle.gates.specs.Entry.{ragged_answer, block_answer};
ghost use Rattle.bench_plans.specs.Figures.{drafter_of, rates_of, weighed_of, depth_of};

use refusals::Refusal;
use speculative::drafter::{DrafterCost, Rates};
use verify_prices::inner::mode_of;

// The drafter of a kind: 0 a fraction, 1 an autoregressive head, any other a block head. `a` and `b` are its sizes, the rest its counts.
#[tactic(auto, unfolding(crate::specs::Figures::drafter_of))]
pub fn drafter_of(kind: u32, a: f64, b: f64, c: u32, d: u32, e: u32) -> DrafterCost
    ensures { result ≡ drafter_of kind a b c d e }
{
    if kind == 0 {
        return DrafterCost::Fraction { frac: a };
    }
    if kind == 1 {
        return DrafterCost::Autoregressive {
            dense_params: a,
            expert_params: b,
            num_experts: c,
            experts_per_tok: d,
            shared_experts: e,
        };
    }
    DrafterCost::BlockParallel {
        params: a,
        block: c,
    }
}

// The rates, where the cost table needs no correction.
#[tactic(auto, unfolding(crate::specs::Figures::rates_of))]
pub fn rates_of(peak: f64, bw: f64) -> Rates
    ensures { result ≡ rates_of peak bw }
{
    Rates {
        peak,
        bw,
        kv_delta: 0.0,
    }
}

// The slots weighed; 2^64 - 1 where the gate is refused.
#[tactic(auto, unfolding(crate::specs::Figures::weighed_of))]
fn weighed_of(answer: Result<usize, Refusal>) -> u64
    ensures { result ≡ weighed_of answer }
{
    match answer {
        Ok(slots) => slots as u64,
        Err(_) => 18446744073709551615,
    }
}

// The number of the refusal, 0 for none; the values stand at the front of `out`.
#[unsafe(no_mangle)]
pub extern "C" fn bench_expected(
    chains: &[f64],
    lengths: &[u32],
    gamma: u32,
    out: &mut [f64],
) -> u64
    ensures value { result ≡ answer_number (expected_by_depth chains.now lengths.now gamma out.old).answer }
    ensures out_after { out.new ≡ (expected_by_depth chains.now lengths.now gamma out.old).out }
{
    refusals::number_in(goodput::expected::expected_by_depth(chains, lengths, gamma, out))
}

// The best depth; 2^32 - 1 where it is refused.
#[unsafe(no_mangle)]
#[tactic(auto, unfolding(crate::specs::Figures::depth_of))]
pub extern "C" fn bench_depth(
    expected: &[f64],
    curve: &[f64],
    gamma: u32,
    n: u32,
    kind: u32,
    a: f64,
    b: f64,
    c: u32,
    d: u32,
    e: u32,
    peak: f64,
    bw: f64,
    loaded: &[f64],
) -> u32
    ensures { result ≡ depth_of (depth_answer expected.now curve.now gamma n (drafter_of kind a b c d e) (rates_of peak bw) loaded.now) }
{
    let drafter = drafter_of(kind, a, b, c, d, e);
    let rates = rates_of(peak, bw);
    match goodput::depth::best_depth(expected, curve, gamma, n, drafter, rates, loaded) {
        Ok(depth) => depth,
        Err(_) => 4294967295,
    }
}

// The slots that the ragged gate weighed; the widths stand at the front of `widths`.
#[unsafe(no_mangle)]
pub extern "C" fn bench_ragged(
    chains: &[f64],
    lengths: &[u32],
    curve: &[f64],
    gamma: u32,
    mode: u32,
    kind: u32,
    a: f64,
    b: f64,
    c: u32,
    d: u32,
    e: u32,
    peak: f64,
    bw: f64,
    loaded: &[f64],
    widths: &mut [u32],
) -> u64
    ensures value { result ≡ weighed_of (ragged_answer chains.now lengths.now curve.now gamma (drafter_of kind a b c d e) (rates_of peak bw) loaded.now (mode_of mode) widths.old).answer }
    ensures widths_after { widths.new ≡ (ragged_answer chains.now lengths.now curve.now gamma (drafter_of kind a b c d e) (rates_of peak bw) loaded.now (mode_of mode) widths.old).widths }
{
    let drafter = drafter_of(kind, a, b, c, d, e);
    let rates = rates_of(peak, bw);
    let prices = mode_of(mode);
    let answer = gates::gated_ragged_draft(
        chains, lengths, curve, gamma, prices, drafter, rates, loaded, widths,
    );
    weighed_of(answer)
}

// The slots that the block gate weighed; the widths stand at the front of `widths`.
#[unsafe(no_mangle)]
pub extern "C" fn bench_block(
    chains: &[f64],
    lengths: &[u32],
    curve: &[f64],
    gamma: u32,
    mode: u32,
    kind: u32,
    a: f64,
    b: f64,
    c: u32,
    d: u32,
    e: u32,
    peak: f64,
    bw: f64,
    loaded: &[f64],
    widths: &mut [u32],
) -> u64
    ensures value { result ≡ weighed_of (block_answer chains.now lengths.now curve.now gamma (drafter_of kind a b c d e) (rates_of peak bw) loaded.now (mode_of mode) widths.old).answer }
    ensures widths_after { widths.new ≡ (block_answer chains.now lengths.now curve.now gamma (drafter_of kind a b c d e) (rates_of peak bw) loaded.now (mode_of mode) widths.old).widths }
{
    let drafter = drafter_of(kind, a, b, c, d, e);
    let rates = rates_of(peak, bw);
    let prices = mode_of(mode);
    let answer = gates::gated_block_verify(
        chains, lengths, curve, gamma, prices, drafter, rates, loaded, widths,
    );
    weighed_of(answer)
}
