// The measured cost table: what a step took, by draft depth and batch. It is lent as three columns, depths, batches and seconds,
// and how many rows they hold. Every function takes every column and number.
#![tactic(auto)]

mod lent;

ghost use Rattle.std.specs.Prelude.{◌≡◌};
ghost use Rattle.cost_lookup.specs.Entry.{table_judged, delta_judged, step_time_at, step_time_frac_at, has_draft_at, batch_range_at, max_batch_at, price_curve_at};

use batch_ranges::BatchRange;
use refusals::Refusal;

// The most rows.
const MOST_ROWS: usize = 4096;

// Refused as a size where there are too many rows, for a short buffer where a column has fewer, and as input where the seconds are out of
// range or the rows out of order.
#[tactic(auto, unfolding(crate::specs::Entry::table_judged))]
pub fn judge_table(
    depths: &[u32],
    batches: &[u32],
    seconds: &[f64],
    rows: usize,
) -> Result<(), Refusal>
    ensures { result ≡ table_judged rows depths.now batches.now seconds.now }
{
    if MOST_ROWS < rows {
        return Err(Refusal::Size);
    }
    let room = depths.len().min(batches.len().min(seconds.len()));
    if room < rows {
        return Err(Refusal::ShortBuffer);
    }
    if lent::is_lawful(depths, batches, seconds, rows) {
        Ok(())
    } else {
        Err(Refusal::Input)
    }
}

// The measured seconds of a step: exact depth, nearest batch, ties to the smaller batch, then the earlier row.
#[tactic(auto, unfolding(crate::specs::Entry::step_time_at), using(crate::proofs::Judged::lent, crate::proofs::Judged::is_ordered))]
pub fn step_time(
    depths: &[u32],
    batches: &[u32],
    seconds: &[f64],
    rows: usize,
    batch: u32,
    depth: u32,
) -> Result<Option<f64>, Refusal>
    ensures { result ≡ step_time_at rows depths.now batches.now seconds.now batch depth }
{
    judge_table(depths, batches, seconds, rows)?;
    Ok(step_times::inner::step_time(depths, batches, seconds, rows, batch, depth))
}

// Whether some row has the depth.
#[tactic(auto, unfolding(crate::specs::Entry::has_draft_at), using(crate::proofs::Judged::lent, crate::proofs::Judged::is_ordered))]
pub fn has_draft(
    depths: &[u32],
    batches: &[u32],
    seconds: &[f64],
    rows: usize,
    depth: u32,
) -> Result<bool, Refusal>
    ensures { result ≡ has_draft_at rows depths.now batches.now seconds.now depth }
{
    judge_table(depths, batches, seconds, rows)?;
    Ok(batch_ranges::inner::has_draft(depths, batches, seconds, rows, depth))
}

// The seconds at a depth between the measured ones; nothing outside them, and for a depth that is not finite or below zero.
#[tactic(auto, unfolding(crate::specs::Entry::step_time_frac_at), using(crate::proofs::Judged::lent, crate::proofs::Judged::is_ordered))]
pub fn step_time_frac(
    depths: &[u32],
    batches: &[u32],
    seconds: &[f64],
    rows: usize,
    batch: u32,
    g: f64,
) -> Result<Option<f64>, Refusal>
    ensures { result ≡ step_time_frac_at rows depths.now batches.now seconds.now batch g }
{
    judge_table(depths, batches, seconds, rows)?;
    Ok(step_times::inner::step_time_frac(depths, batches, seconds, rows, batch, g))
}

// The first and the last batch of the depth's rows.
#[tactic(auto, unfolding(crate::specs::Entry::batch_range_at), using(crate::proofs::Judged::lent, crate::proofs::Judged::is_ordered))]
pub fn batch_range(
    depths: &[u32],
    batches: &[u32],
    seconds: &[f64],
    rows: usize,
    depth: u32,
) -> Result<Option<BatchRange>, Refusal>
    ensures { result ≡ batch_range_at rows depths.now batches.now seconds.now depth }
{
    judge_table(depths, batches, seconds, rows)?;
    Ok(batch_ranges::inner::batch_range(depths, batches, seconds, rows, depth))
}

// The last batch of the depth's rows.
#[tactic(auto, unfolding(crate::specs::Entry::max_batch_at), using(crate::proofs::Judged::lent, crate::proofs::Judged::is_ordered))]
pub fn max_batch(
    depths: &[u32],
    batches: &[u32],
    seconds: &[f64],
    rows: usize,
    depth: u32,
) -> Result<Option<u32>, Refusal>
    ensures { result ≡ max_batch_at rows depths.now batches.now seconds.now depth }
{
    judge_table(depths, batches, seconds, rows)?;
    Ok(batch_ranges::inner::max_batch(depths, batches, seconds, rows, depth))
}

// Refused as input where a price's addition is not within 10^9 of zero.
fn judge_delta(kv_delta: f64) -> Result<(), Refusal>
    ensures { result ≡ delta_judged kv_delta }
{
    if float::in_signed_range(kv_delta, -1000000000.0, 1000000000.0) {
        Ok(())
    } else {
        Err(Refusal::Input)
    }
}

// The prices of the depths 0 to 64 at one batch: +infinity where a depth is not measured. The table is judged before kv_delta.
#[tactic(auto, unfolding(crate::specs::Entry::price_curve_at), using(crate::proofs::Judged::lent, crate::proofs::Judged::is_ordered))]
pub fn price_curve(
    depths: &[u32],
    batches: &[u32],
    seconds: &[f64],
    rows: usize,
    batch: u32,
    kv_delta: f64,
) -> Result<[f64; 65], Refusal>
    ensures { result ≡ price_curve_at rows depths.now batches.now seconds.now batch kv_delta }
{
    judge_table(depths, batches, seconds, rows)?;
    judge_delta(kv_delta)?;
    Ok(step_times::inner::prices(depths, batches, seconds, rows, batch, kv_delta))
}
