// What each depth is worth and costs, for callers that have judged what they were lent.
ghost use Rattle.std.specs.Prelude.{◌≡◌, cond, ◌≤◌, ◌<◌, ◌+◌, ◌-◌, length};
ghost use Rattle.std.specs.Float.Ieee.{lt};
ghost use Rattle.chains.specs.Expected.{Fits};
ghost use Rattle.depths.specs.Goodput.{tiny};
ghost use Rattle.depths.specs.Pricing.{total_cost, depth_over, gate_depth};
ghost use Rattle.depths.specs.Worths.{worth_of, raise, unweighed, raised_from, over_worths, seconds_at, Filled};

use chains::inner::expected_over;
use speculative::drafter::{DrafterCost, Rates};

// The cost that a goodput is divided by: not below 1e-12.
fn divisor(cost: f64) -> f64
    ensures { result ≡ cond (lt cost tiny) tiny cost }
{
    if cost < 1e-12 { 1e-12 } else { cost }
}

// The goodput where the cost is finite, else a NaN, which wins against nothing. All is worked out for every depth, so that
// two depths can be worked out in one step.
fn worth(expected: f64, n: u32, cost: f64) -> f64
    ensures { result ≡ worth_of n expected cost }
{
    let goodput = (expected + n as f64) / divisor(cost);
    if float::is_finite(cost) {
        goodput
    } else {
        f64::NAN
    }
}

// The best depth so far, and its goodput.
#[derive(Clone, Copy)]
pub struct Best {
    pub depth: u32,
    pub worth: f64,
}

impl Best {
    // The best once depth `g` is weighed too: an equal one does not win.
    fn raised(self, g: u32, worth: f64) -> Best
        ensures { result ≡ raise self g worth }
    {
        if self.worth < worth {
            Best { depth: g, worth }
        } else {
            self
        }
    }
}

// The best of the depths from `from` on, each with its worth.
fn best_in(worths: &[f64], from: usize) -> Best
    requires { from + length worths.now ≤ 65 }
    ensures { result ≡ raised_from from unweighed worths.now }
{
    let mut best = Best {
        depth: 0,
        worth: f64::MIN,
    };
    for (g, worth) in worths.iter().enumerate() {
        best = best.raised((from + g) as u32, *worth);
    }
    best
}

// The same by halves, which do not wait for each other.
fn best_by_halves(worths: &[f64], from: usize) -> Best
    requires { from + length worths.now ≤ 65 }
    ensures { result ≡ raised_from from unweighed worths.now }
{
    let half = worths.len() / 2;
    let low = best_in(&worths[..half], from);
    let high = best_in(&worths[half..], from + half);
    low.raised(high.depth, high.worth)
}

// The depth of the best worth, by quarters.
fn best_of(worths: &[f64]) -> u32
    requires { length worths.now ≤ 65 }
    ensures { result ≡ (raised_from 0 unweighed worths.now).depth }
{
    let half = worths.len() / 2;
    let low = best_by_halves(&worths[..half], 0);
    let high = best_by_halves(&worths[half..], half);
    let best = low.raised(high.depth, high.worth);
    best.depth
}

// Verify cost and drafter cost at depth g over n sequences, of which `loaded` routed experts are read; a verify cost that is
// not finite stays.
pub fn total_cost(
    drafter: DrafterCost,
    g: u32,
    n: u32,
    rates: Rates,
    verify: f64,
    loaded: f64,
) -> f64
    ensures { result ≡ total_cost drafter n rates loaded g verify }
{
    if float::is_finite(verify) {
        verify + speculative::inner::seconds(drafter, g, n, rates, verify, loaded)
    } else {
        verify
    }
}

// Writes what each depth of the curve is worth to the front of `out`, where drafts of a depth above 0 cost what `seconds` gives
// of the depth and its verify cost. At depth 0, which costs no drafts, it is not called.
fn fill<F: Fn(u32, f64) -> f64>(
    seconds: F,
    expected: &[f64],
    curve: &[f64],
    n: u32,
    out: &mut [f64],
)
    requires always { F.IsAlwaysCallable seconds }
    requires expected_len { length expected.now ≡ length curve.now }
    requires curve_nonzero { (0 < length curve.now) × (length curve.now ≤ 65) }
    requires curve_in_bounds { length curve.now ≤ length out.old }
    ensures { Filled (F.post seconds) n expected.now curve.now out.old out.new }
{
    out[0] = worth(expected[0], n, curve[0] + 0.0);
    for g in 1..curve.len() {
        let verify = curve[g];
        out[g] = worth(expected[g], n, verify + seconds(g as u32, verify));
    }
}

// The same for a drafter: a fraction and a block have closures of their own, in which no depth asks for the kind.
fn fill_worths(
    expected: &[f64],
    curve: &[f64],
    n: u32,
    drafter: DrafterCost,
    rates: Rates,
    loaded: f64,
    out: &mut [f64],
)
    requires expected_len { length expected.now ≡ length curve.now }
    requires curve_nonzero { (0 < length curve.now) × (length curve.now ≤ 65) }
    requires curve_in_bounds { length curve.now ≤ length out.old }
    ensures { out.new ≡ over_worths n expected.now (seconds_at drafter n rates loaded) curve.now out.old }
{
    match drafter {
        DrafterCost::Fraction { frac } => {
            fill(
                |g, verify| frac * (g as f64) * verify,
                expected,
                curve,
                n,
                out,
            )
        }
        DrafterCost::Autoregressive { .. } => fill(
            |g, verify| speculative::inner::seconds(drafter, g, n, rates, verify, loaded),
            expected,
            curve,
            n,
            out,
        ),
        DrafterCost::BlockParallel { .. } => {
            let block = speculative::inner::seconds(drafter, 1, n, rates, 0.0, loaded);
            fill(|_, _| block, expected, curve, n, out)
        }
    }
}

// The depth of the best goodput of expected values and a price curve of one length.
pub fn depth_over(
    expected: &[f64],
    curve: &[f64],
    n: u32,
    drafter: DrafterCost,
    rates: Rates,
    loaded: f64,
) -> u32
    requires expected_len { length expected.now ≡ length curve.now }
    requires curve_len_bound { length curve.now ≤ 65 }
    ensures { result ≡ depth_over drafter n rates loaded expected.now curve.now }
{
    let len = curve.len();
    if len == 0 {
        return 0;
    }
    let mut worths = [0.0; 65];
    fill_worths(expected, curve, n, drafter, rates, loaded, &mut worths);
    best_of(&worths[..len])
}

// The depth of the best goodput for the batch as a whole; `loaded` is what the whole batch loads.
pub fn gate_depth(
    chains: &[f64],
    lengths: &[u32],
    curve: &[f64],
    drafter: DrafterCost,
    rates: Rates,
    loaded: f64,
) -> u32
    requires fits { Fits chains.now lengths.now }
    requires curve_nonzero { (0 < length curve.now) × (length curve.now ≤ 65) }
    ensures value { result ≡ gate_depth drafter rates loaded lengths.now chains.now curve.now }
    ensures upper_bound { result ≤ length curve.now - 1 }
{
    let len = curve.len();
    let n = lengths.len() as u32;
    let expected = expected_over(chains, lengths, (len - 1) as u32);
    depth_over(&expected[..len], curve, n, drafter, rates, loaded)
}
