// The batches that a depth is measured between.
ghost use Rattle.std.specs.Prelude.{◌≡◌};
ghost use Rattle.batch_ranges.specs.Range.{widened};

use crate::BatchRange;

// The range with one batch more.
#[tactic(auto, unfolding(crate::specs::Range::widened))]
pub fn widen(range: Option<BatchRange>, batch: u32) -> Option<BatchRange>
    ensures { result ≡ widened range batch }
{
    let low = match range {
        Some(so_far) => so_far.low,
        None => batch,
    };
    Some(BatchRange { low, high: batch })
}
