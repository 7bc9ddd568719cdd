// What a depth costs, and the best depth.
ghost use Rattle.std.specs.Prelude.{◌≡◌};
ghost use Rattle.goodput.specs.Pricing.{cost_of};
ghost use Rattle.goodput.specs.Depth.{depth_answer, aggregate_answer};
ghost use Rattle.exported_costs.specs.Asked.{drafter_of, rates_of};
ghost use Rattle.exported_batches.specs.Answers.{cost_told, depth_told};

use crate::answers;
use exported::Told;
use exported_costs::asked;
use goodput::{depth, pricing};

// `first` is the cost.
#[unsafe(no_mangle)]
pub extern "C" fn goodput_total_cost(
    kind: u32,
    p: f64,
    q: f64,
    x: u32,
    y: u32,
    z: u32,
    g: u32,
    n: u32,
    peak: f64,
    bw: f64,
    kv_delta: f64,
    verify: f64,
    loaded: &[f64],
) -> Told
    ensures { result ≡ cost_told (cost_of (drafter_of kind p q x y z) g n (rates_of peak bw kv_delta) verify loaded.now) }
{
    let head = asked::drafter_of(kind, p, q, x, y, z);
    let rates = asked::rates_of(peak, bw, kv_delta);
    let answer = pricing::total_cost(head, g, n, rates, verify, loaded);
    answers::of_cost(answer)
}

// `first` is the depth.
#[unsafe(no_mangle)]
pub extern "C" fn goodput_best_depth(
    expected: &[f64],
    curve: &[f64],
    gamma: u32,
    n: u32,
    kind: u32,
    p: f64,
    q: f64,
    x: u32,
    y: u32,
    z: u32,
    peak: f64,
    bw: f64,
    kv_delta: f64,
    loaded: &[f64],
) -> Told
    ensures { result ≡ depth_told (depth_answer expected.now curve.now gamma n (drafter_of kind p q x y z) (rates_of peak bw kv_delta) loaded.now) }
{
    let head = asked::drafter_of(kind, p, q, x, y, z);
    let rates = asked::rates_of(peak, bw, kv_delta);
    let answer = depth::best_depth(expected, curve, gamma, n, head, rates, loaded);
    answers::of_depth(answer)
}

// `first` is the depth.
#[unsafe(no_mangle)]
pub extern "C" fn goodput_aggregate_depth(
    chains: &[f64],
    lengths: &[u32],
    curve: &[f64],
    gamma: u32,
    kind: u32,
    p: f64,
    q: f64,
    x: u32,
    y: u32,
    z: u32,
    peak: f64,
    bw: f64,
    kv_delta: f64,
    loaded: &[f64],
) -> Told
    ensures { result ≡ depth_told (aggregate_answer chains.now lengths.now curve.now gamma (drafter_of kind p q x y z) (rates_of peak bw kv_delta) loaded.now) }
{
    let head = asked::drafter_of(kind, p, q, x, y, z);
    let rates = asked::rates_of(peak, bw, kv_delta);
    let answer = depth::aggregate_depth(chains, lengths, curve, gamma, head, rates, loaded);
    answers::of_depth(answer)
}
