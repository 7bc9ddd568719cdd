// What is looked up in a table that was judged: in order, and no longer than its columns.
ghost use Rattle.std.specs.Prelude.{◌≡◌, true, ◌≤◌, length};
ghost use Rattle.cost_rows.specs.Table.{zip};
ghost use Rattle.cost_rows.specs.Order.{ordered};
ghost use Rattle.batch_ranges.specs.Range.{measures, range_of, max_batch};

use crate::{BatchRange, range};

// Whether some row has the depth.
pub fn has_draft(depths: &[u32], batches: &[u32], seconds: &[f64], rows: usize, depth: u32) -> bool
    requires rows_in_bounds { (rows ≤ length depths.now) × (rows ≤ length batches.now) × (rows ≤ length seconds.now) }
    requires seconds_value { ordered (zip rows depths.now batches.now seconds.now) ≡ true }
    ensures { result ≡ measures depth (zip rows depths.now batches.now seconds.now) }
{
    depths[..rows].contains(&depth)
}

// The first and the last batch of the depth's rows, where it has some.
pub fn batch_range(
    depths: &[u32],
    batches: &[u32],
    seconds: &[f64],
    rows: usize,
    depth: u32,
) -> Option<BatchRange>
    requires rows_in_bounds { (rows ≤ length depths.now) × (rows ≤ length batches.now) × (rows ≤ length seconds.now) }
    requires seconds_value { ordered (zip rows depths.now batches.now seconds.now) ≡ true }
    ensures { result ≡ range_of depth (zip rows depths.now batches.now seconds.now) }
{
    let mut range = None;
    for i in 0..rows {
        if depths[i] == depth {
            range = range::widen(range, batches[i]);
        }
    }
    range
}

// The last batch of the depth's rows, where it has some.
#[tactic(auto, unfolding(crate::specs::Range::max_batch, crate::specs::Range::highest))]
pub fn max_batch(
    depths: &[u32],
    batches: &[u32],
    seconds: &[f64],
    rows: usize,
    depth: u32,
) -> Option<u32>
    requires rows_in_bounds { (rows ≤ length depths.now) × (rows ≤ length batches.now) × (rows ≤ length seconds.now) }
    requires seconds_value { ordered (zip rows depths.now batches.now seconds.now) ≡ true }
    ensures { result ≡ max_batch depth (zip rows depths.now batches.now seconds.now) }
{
    let range = batch_range(depths, batches, seconds, rows, depth)?;
    Some(range.high)
}
