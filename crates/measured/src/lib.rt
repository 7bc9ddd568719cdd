// The measured cost table: rows with their draft depths, batches and seconds, read from a text.
#![tactic(auto)]

mod filling;
mod judging;

ghost use Rattle.std.specs.Prelude.{◌≡◌};
ghost use Rattle.measured.specs.Fill.{table_read};

use refusals::RefusedRow;

// The rows that a text may have.
pub const MOST_ROWS: usize = 4096;

// Reads a cost table: how many rows it has, which stand in order at the front of the columns, or the first refusal, with nothing written.
pub fn read(
    text: &[u8],
    depths: &mut [u32],
    batches: &mut [u32],
    seconds: &mut [f64],
) -> Result<u32, RefusedRow>
    ensures { record { answer = result; depths = depths.new; batches = batches.new; seconds = seconds.new } ≡ table_read text.now depths.old batches.old seconds.old }
{
    let room = depths.len().min(batches.len().min(seconds.len()));
    let mut read_depths = [0u32; 4096];
    let mut read_batches = [0u32; 4096];
    let mut read_seconds = [0.0f64; 4096];
    let rows = judging::judge(
        text,
        room,
        &mut read_depths,
        &mut read_batches,
        &mut read_seconds,
    )?;
    let n = rows as usize;
    filling::put(
        &read_depths[..n],
        &read_batches[..n],
        &read_seconds[..n],
        depths,
        batches,
        seconds,
    );
    let left = filling::clean(depths, batches, seconds, n);
    filling::cleaned(left)
}
