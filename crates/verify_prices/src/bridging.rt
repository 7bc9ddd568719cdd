// The bridged mode: the nearest measured depths to each depth are looked for once a curve, and a price is then found without a search.
ghost use Rattle.std.specs.Prelude.{◌≡◌, cond, ◌≤◌, ◌<◌, length};
ghost use Rattle.float.specs.Floats.{is_finite};
ghost use Rattle.verify_prices.specs.Bridge.{straight, bridged_cost};
ghost use Rattle.verify_prices.specs.Rule.{Lows, Highs, SameTo, Spanned};

use crate::widths::{ceiling_of, foot_of, mean_width};

// Depth g, where its price is finite; else `held`.
fn nearer(price: f64, g: usize, held: usize) -> usize
    ensures { result ≡ cond (is_finite price) g held }
{
    if float::is_finite(price) { g } else { held }
}

// Writes to the first places the deepest measured depth at or below each depth.
fn fill_below(curve: &[f64], spans: &mut [u8])
    requires { (length curve.now ≤ 65) × (length spans.old ≡ 130) }
    ensures { Lows curve.now spans.new }
{
    let mut held = 0usize;
    for g in 0..curve.len() {
        held = nearer(curve[g], g, held);
        spans[g] = held as u8;
    }
}

// Writes from place 65 on the shallowest measured depth at or above each depth.
fn fill_above(curve: &[f64], spans: &mut [u8])
    requires { (0 < length curve.now) × (length curve.now ≤ 65) × (length spans.old ≡ 130) }
    ensures above { Highs curve.now spans.new }
    ensures below { SameTo 65 spans.new spans.old }
{
    let mut held = curve.len() - 1;
    for k in (0..curve.len()).rev() {
        held = nearer(curve[k], k, held);
        spans[65 + k] = held as u8;
    }
}

// Writes the nearest measured depths to each depth of the curve: at or below it, and from place 65 on at or above it.
pub fn fill_spans(curve: &[f64], spans: &mut [u8])
    requires { (0 < length curve.now) × (length curve.now ≤ 65) × (length spans.old ≡ 130) }
    ensures { Spanned curve.now spans.new }
{
    fill_below(curve, spans);
    fill_above(curve, spans);
}

// Straight between the depths low and high, priced x and y; x where they are one, and +infinity where one of them is not measured.
#[tactic(auto, unfolding(crate::specs::Bridge::straight))]
fn straight(w: f64, low: usize, high: usize, x: f64, y: f64) -> f64
    requires { (low ≤ high) × (high ≤ 64) }
    ensures { result ≡ straight w low high x y }
{
    if !float::is_finite(x) || !float::is_finite(y) {
        return f64::INFINITY;
    }
    if high == low {
        return x;
    }
    let part = (w - low as f64) / ((high - low) as f64);
    x + part * (y - x)
}

// The curve's price at that mean width, straight between the nearest measured depths.
pub fn bridged_cost(curve: &[f64], spans: &[u8], n: u32, t: f64) -> f64
    requires { (1 < length curve.now) × (length curve.now ≤ 65) × Spanned curve.now spans.now }
    ensures { result ≡ bridged_cost curve.now n t }
{
    let gamma = (curve.len() - 1) as u32;
    let w = mean_width(gamma, n, t);
    let s = foot_of(gamma, w);
    let top = 65 + ceiling_of(gamma, w, s);
    let low = spans[s] as usize;
    let high = spans[top] as usize;
    straight(w, low, high, curve[low], curve[high])
}
