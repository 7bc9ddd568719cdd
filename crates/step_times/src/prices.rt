// The price of a step.
ghost use Rattle.std.specs.Prelude.{◌≡◌};
ghost use Rattle.step_times.specs.Prices.{price_of};

use nearest_row::Nearest;

// The price of a depth: +infinity where it is not measured.
#[tactic(auto, unfolding(crate::specs::Prices::price_of))]
pub fn price_of(kv_delta: f64, nearest: Option<Nearest>) -> f64
    ensures { result ≡ price_of kv_delta nearest }
{
    match nearest {
        Some(near) => float::max(near.seconds + kv_delta, 0.25 * near.seconds),
        None => f64::from_bits(0x7ff0_0000_0000_0000),
    }
}
