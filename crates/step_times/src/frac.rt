// The measured depths to both sides of a depth, and what lies straight between their times.
ghost use Rattle.std.specs.Prelude.{◌≡◌, None};
ghost use Rattle.step_times.specs.Between.{deeper, deepest, shallower, shallowest, straight, asked};

use nearest_row::Nearest;

// The deeper of what is held and one depth more, if that is at or below g.
#[tactic(auto, unfolding(crate::specs::Between::deeper))]
fn deeper_of(g: f64, best: Option<u32>, depth: u32) -> Option<u32>
    ensures { result ≡ deeper g best depth }
{
    match best {
        Some(m) if depth as f64 <= g => Some(m.max(depth)),
        None if depth as f64 <= g => Some(depth),
        _ => best,
    }
}

// The shallower of what is held and one depth more, if that is at or above g.
#[tactic(auto, unfolding(crate::specs::Between::shallower))]
fn shallower_of(g: f64, best: Option<u32>, depth: u32) -> Option<u32>
    ensures { result ≡ shallower g best depth }
{
    match best {
        Some(m) if depth as f64 >= g => Some(m.min(depth)),
        None if depth as f64 >= g => Some(depth),
        _ => best,
    }
}

// The deepest of the depths that are at or below g.
pub fn deepest_of(depths: &[u32], g: f64) -> Option<u32>
    ensures { result ≡ deepest g None depths.now }
{
    let mut best = None;
    for depth in depths {
        best = deeper_of(g, best, *depth);
    }
    best
}

// The shallowest of the depths that are at or above g.
pub fn shallowest_of(depths: &[u32], g: f64) -> Option<u32>
    ensures { result ≡ shallowest g None depths.now }
{
    let mut best = None;
    for depth in depths {
        best = shallower_of(g, best, *depth);
    }
    best
}

// Straight between the depths low and high; where they are one, its own time.
#[tactic(auto, unfolding(crate::specs::Between::straight))]
pub fn straight_between(
    g: f64,
    low: u32,
    high: u32,
    at_low: Option<Nearest>,
    at_high: Option<Nearest>,
) -> Option<f64>
    ensures { result ≡ straight g low high at_low at_high }
{
    let x = at_low?.seconds;
    let y = at_high?.seconds;
    if high == low {
        return Some(x);
    }
    let part = (g - low as f64) / (high.saturating_sub(low) as f64);
    Some(x + part * (y - x))
}

// Whether g is finite and not below zero.
#[tactic(auto, unfolding(crate::specs::Between::asked))]
pub fn is_asked(g: f64) -> bool
    ensures { result ≡ asked g }
{
    float::is_finite(g) && !(g < 0.0)
}
