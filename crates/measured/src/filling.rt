// What an accepted text leaves in the columns. Nothing here refuses but the one who finds no row left.
ghost use Rattle.std.specs.Prelude.{◌≡◌, ◌++◌, ◌≤◌, length, drop};
ghost use Rattle.cost_rows.specs.Table.{table};
ghost use Rattle.cost_rows.specs.Order.{sorted};
ghost use Rattle.cost_rows.specs.Prune.{kept};
ghost use Rattle.measured.specs.Fill.{Cleaned, cleaned_to};

use cost_order::inner as order;
use cost_rows::inner;
use refusals::{Refusal, RefusedRow};

// Three columns copied over the front of others.
pub fn put(
    from_depths: &[u32],
    from_batches: &[u32],
    from_seconds: &[f64],
    depths: &mut [u32],
    batches: &mut [u32],
    seconds: &mut [f64],
)
    requires { (length from_depths.now ≤ length depths.old) × (length from_batches.now ≤ length batches.old) × (length from_seconds.now ≤ length seconds.old) }
    ensures depths { depths.new ≡ from_depths.now ++ drop (length from_depths.now) depths.old }
    ensures batches { batches.new ≡ from_batches.now ++ drop (length from_batches.now) batches.old }
    ensures seconds { seconds.new ≡ from_seconds.now ++ drop (length from_seconds.now) seconds.old }
{
    order::copy_front(from_depths, depths);
    order::copy_front(from_batches, batches);
    order::copy_front(from_seconds, seconds);
}

// Puts the rows in order and drops those that are above the next one, and answers how many are left.
pub fn clean(depths: &mut [u32], batches: &mut [u32], seconds: &mut [f64], rows: usize) -> usize
    ensures left { result ≡ length (kept (sorted (table rows depths.old batches.old seconds.old))) }
    ensures columns { Cleaned (sorted (table rows depths.old batches.old seconds.old)) depths.old batches.old seconds.old depths.new batches.new seconds.new }
{
    order::arrange(depths, batches, seconds, rows);
    inner::sanitised(depths, batches, seconds, rows)
}

// The answer where so many rows are left.
pub fn cleaned(left: usize) -> Result<u32, RefusedRow>
    requires { left ≤ 4096 }
    ensures { result ≡ cleaned_to left }
{
    if left == 0 {
        return Err(RefusedRow {
            refusal: Refusal::NoSaneRows,
            row: 0,
        });
    }
    Ok(left as u32)
}
