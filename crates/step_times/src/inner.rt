// What is looked up in a table that was judged: in order, and no longer than its columns.
ghost use Rattle.std.specs.Prelude.{◌≡◌, true, ◌≤◌, length, take};
ghost use Rattle.cost_rows.specs.Table.{zip};
ghost use Rattle.cost_rows.specs.Order.{ordered};
ghost use Rattle.step_times.specs.Times.{step_time};
ghost use Rattle.step_times.specs.Between.{step_time_frac};
ghost use Rattle.step_times.specs.Prices.{prices};

use crate::{frac, prices};
use nearest_row::inner;

// The measured seconds of a step, where its depth is measured: exact depth, nearest batch, ties to the smaller batch, then the earlier row.
#[tactic(auto, unfolding(crate::specs::Times::step_time, crate::specs::Times::time_of))]
pub fn step_time(
    depths: &[u32],
    batches: &[u32],
    seconds: &[f64],
    rows: usize,
    batch: u32,
    depth: u32,
) -> Option<f64>
    requires rows_in_bounds { (rows ≤ length depths.now) × (rows ≤ length batches.now) × (rows ≤ length seconds.now) }
    requires seconds_value { ordered (zip rows depths.now batches.now seconds.now) ≡ true }
    ensures { result ≡ step_time batch depth (zip rows depths.now batches.now seconds.now) }
{
    let near = inner::nearest_of(depths, batches, seconds, rows, batch, depth)?;
    Some(near.seconds)
}

// The seconds at a depth between the measured ones; nothing outside them.
pub fn step_time_frac(
    depths: &[u32],
    batches: &[u32],
    seconds: &[f64],
    rows: usize,
    batch: u32,
    g: f64,
) -> Option<f64>
    requires rows_in_bounds { (rows ≤ length depths.now) × (rows ≤ length batches.now) × (rows ≤ length seconds.now) }
    requires seconds_value { ordered (zip rows depths.now batches.now seconds.now) ≡ true }
    ensures { result ≡ step_time_frac batch g (zip rows depths.now batches.now seconds.now) }
{
    if !frac::is_asked(g) {
        return None;
    }
    let measured = &depths[..rows];
    let low = frac::deepest_of(measured, g)?;
    let high = frac::shallowest_of(measured, g)?;
    let at_low = inner::nearest_of(depths, batches, seconds, rows, batch, low);
    let at_high = inner::nearest_of(depths, batches, seconds, rows, batch, high);
    frac::straight_between(g, low, high, at_low, at_high)
}

// The prices of the first depths at one batch, as many as `out` has slots for: +infinity where a depth is not measured.
pub fn prices_to(
    depths: &[u32],
    batches: &[u32],
    seconds: &[f64],
    rows: usize,
    batch: u32,
    kv_delta: f64,
    out: &mut [f64],
)
    requires rows_in_bounds { (rows ≤ length depths.now) × (rows ≤ length batches.now) × (rows ≤ length seconds.now) }
    requires seconds_value { ordered (zip rows depths.now batches.now seconds.now) ≡ true }
    requires out_len_bound { length out.old ≤ 65 }
    ensures { out.new ≡ take (length out.old) (prices batch kv_delta (zip rows depths.now batches.now seconds.now)) }
{
    let mut from = 0usize;
    for (g, price) in out.iter_mut().enumerate() {
        let depth = g as u32;
        let at = inner::place_from(depths, batches, seconds, rows, from, depth, batch);
        let near = inner::beside(depths, batches, seconds, rows, at, batch, depth);
        *price = prices::price_of(kv_delta, near);
        from = at;
    }
}

// The prices of the depths 0 to 64 at one batch.
pub fn prices(
    depths: &[u32],
    batches: &[u32],
    seconds: &[f64],
    rows: usize,
    batch: u32,
    kv_delta: f64,
) -> [f64; 65]
    requires rows_in_bounds { (rows ≤ length depths.now) × (rows ≤ length batches.now) × (rows ≤ length seconds.now) }
    requires seconds_value { ordered (zip rows depths.now batches.now seconds.now) ≡ true }
    ensures { result ≡ prices batch kv_delta (zip rows depths.now batches.now seconds.now) }
{
    let mut curve = [0.0; 65];
    prices_to(depths, batches, seconds, rows, batch, kv_delta, &mut curve);
    curve
}
