// Whether what is lent is in range: signals, survival chains, expected values and prices.
#![tactic(auto)]

ghost use Rattle.std.specs.Prelude.{◌≡◌, ◌≤◌, ◌*◌, ◌^◌, length, cond, true, ltb};
ghost use Rattle.std.specs.Float.Ieee.{lt, le};
ghost use Rattle.float.specs.Floats.{f0, f1, is_finite};
ghost use Rattle.float.specs.Range.{in_range};
ghost use Rattle.chains.specs.Tests.{all_of, is_survival, is_price};
ghost use Rattle.chains.specs.Expected.{are_chains};
ghost use Rattle.chain_tests.specs.Tops.{ByTops};

// Whether all are finite.
pub fn are_finite(values: &[f64]) -> bool
    ensures { result ≡ all_of is_finite values.now }
{
    for x in values {
        if !float::is_finite(*x) {
            return false;
        }
    }
    true
}

// Whether all are survivals: in 0..1, minus zero allowed. Each is looked at and none ends it, so that several can be looked at
// in one step.
pub fn are_survivals(values: &[f64]) -> bool
    requires { length values.now ≤ 64 }
    ensures { result ≡ all_of is_survival values.now }
{
    let mut faults = 0u64;
    for x in values {
        faults += below_zero(*x) + past_one(*x);
    }
    faults == 0
}

// 1 below zero, else 0.
fn below_zero(x: f64) -> u64
    ensures value { result ≡ cond (lt x f0) 1 0 }
    ensures upper_bound { result ≤ 1 }
{
    if x < 0.0 { 1 } else { 0 }
}

// 1 above one and for a NaN, else 0.
fn past_one(x: f64) -> u64
    ensures value { result ≡ cond (le x f1) 0 1 }
    ensures upper_bound { result ≤ 1 }
{
    if x <= 1.0 { 0 } else { 1 }
}

// Its top bit is clear in 0..high, minus zero out; else it is set.
fn outside(x: f64, high: f64) -> u64
    requires { lt f0 high ≡ true }
    ensures { ltb result (2 ^ 63) ≡ in_range f0 high x }
{
    if x <= high {
        f64::to_bits(x)
    } else {
        0xffff_ffff_ffff_ffff
    }
}

// Its top bit is clear for a price, which is in 0..10^9 or +infinity; else it is set.
fn unpriced(x: f64) -> u64
    ensures { ltb result (2 ^ 63) ≡ is_price x }
{
    if x == f64::INFINITY {
        0
    } else {
        outside(x, 1e9)
    }
}

// Whether what `fault` gives has a clear top bit for all. None ends it, as above: a top bit that is set then stays.
fn all_clear<F: Fn(f64) -> u64>(values: &[f64], fault: F) -> bool
    requires { F.IsAlwaysCallable fault }
    ensures { ByTops (F.post fault) values.now result }
{
    let mut faults = 0u64;
    for x in values {
        faults |= fault(*x);
    }
    faults < 0x8000_0000_0000_0000
}

// Whether all are in 0..high.
pub fn are_up_to(values: &[f64], high: f64) -> bool
    requires { lt f0 high ≡ true }
    ensures { result ≡ all_of (in_range f0 high) values.now }
{
    all_clear(values, |x| outside(x, high))
}

// Whether all are prices.
pub fn are_prices(values: &[f64]) -> bool
    ensures { result ≡ all_of is_price values.now }
{
    all_clear(values, unpriced)
}

// Whether no chain is longer than its slots, and the slots up to gamma hold survivals.
pub fn are_chains(chains: &[f64], lengths: &[u32], gamma: u32) -> bool
    requires { length lengths.now * 64 ≤ length chains.now }
    ensures { result ≡ are_chains gamma lengths.now chains.now }
{
    for (k, long) in lengths.iter().enumerate() {
        if 64 < *long {
            return false;
        }
        let at = k * 64;
        let end = at + gamma.min(*long) as usize;
        if !are_survivals(&chains[at..end]) {
            return false;
        }
    }
    true
}
