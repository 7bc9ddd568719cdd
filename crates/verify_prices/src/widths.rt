// The mean draft width, and the depths around it.
ghost use Rattle.std.specs.Prelude.{◌≡◌, ◌<◌, ◌≤◌};
ghost use Rattle.verify_prices.specs.Price.{mean_width, segment};
ghost use Rattle.verify_prices.specs.Bridge.{foot_of, ceiling_of};

// The mean draft width that `t` verify tokens over `n` sequences imply.
pub fn mean_width(gamma: u32, n: u32, t: f64) -> f64
    ensures { result ≡ mean_width gamma n t }
{
    float::clamp(t / n as f64 - 1.0, 0.0, gamma as f64)
}

// The depth below the width w, and never the last one.
pub fn segment_of(gamma: u32, w: f64) -> usize
    requires { 0 < gamma }
    ensures { result ≡ segment gamma w }
{
    let below = numeral::whole_part(w) as usize;
    let last = gamma as usize - 1;
    below.min(last)
}

// The whole part of the width w, at most gamma.
pub fn foot_of(gamma: u32, w: f64) -> usize
    ensures { result ≡ foot_of gamma w }
{
    let below = numeral::whole_part(w) as usize;
    below.min(gamma as usize)
}

// The depth at or above the width w, whose whole part is s.
pub fn ceiling_of(gamma: u32, w: f64, s: usize) -> usize
    requires { (s ≤ gamma) × (gamma ≤ 64) }
    ensures { result ≡ ceiling_of gamma w s }
{
    let rest = w - s as f64;
    if rest > 0.0 {
        (s + 1).min(gamma as usize)
    } else {
        s
    }
}
