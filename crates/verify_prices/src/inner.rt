// The verify price between depths. A curve has a price for each depth from 0 to gamma.
ghost use Rattle.std.specs.Prelude.{◌≡◌, ◌<◌, ◌≤◌, length};
ghost use Rattle.verify_prices.specs.Price.{verify_cost};
ghost use Rattle.verify_prices.specs.Rule.{mode_of, price_by, shut_by, Priced};

use crate::PriceMode;
use crate::bridging::bridged_cost;
use crate::widths::{mean_width, segment_of};

// The mode that a number stands for: 0 the default, any other bridged. Who refuses a number that stands for none does so first.
#[tactic(auto, unfolding(crate::specs::Rule::mode_of))]
pub fn mode_of(number: u32) -> PriceMode
    ensures { result ≡ mode_of number }
{
    if number == 0 {
        return PriceMode::Default;
    }
    PriceMode::Bridged
}

// The curve's price at that mean width, straight between the two depths around it.
#[tactic(auto, unfolding(crate::specs::Price::verify_cost))]
pub fn verify_cost(curve: &[f64], n: u32, t: f64) -> f64
    requires { (1 < length curve.now) × (length curve.now ≤ 65) }
    ensures { result ≡ verify_cost curve.now n t }
{
    let gamma = (curve.len() - 1) as u32;
    let w = mean_width(gamma, n, t);
    let seg = segment_of(gamma, w);
    let frac = w - seg as f64;
    if frac > 0.0 {
        curve[seg] + frac * (curve[seg + 1] - curve[seg])
    } else {
        curve[seg]
    }
}

// The price of t verify tokens over n sequences.
pub fn verify_price(mode: PriceMode, curve: &[f64], spans: &[u8], n: u32, t: f64) -> f64
    requires { Priced mode curve.now spans.now }
    ensures { result ≡ price_by mode curve.now n t }
{
    match mode {
        PriceMode::Default => verify_cost(curve, n, t),
        PriceMode::Bridged => bridged_cost(curve, spans, n, t),
    }
}

// Whether nothing is given back to such a price.
pub fn is_shut(mode: PriceMode, price: f64) -> bool
    ensures { result ≡ shut_by mode price }
{
    match mode {
        PriceMode::Default => false,
        PriceMode::Bridged => !float::is_finite(price),
    }
}
