// A bank of rounds and a cost table, read from the bytes of a file into what the host lends.
ghost use Rattle.std.specs.Prelude.{◌≡◌};
ghost use Rattle.bank.specs.Read.{bank_read};
ghost use Rattle.measured.specs.Fill.{table_read};
ghost use Rattle.latchmeander.specs.Calls.{bank_handed, table_handed};

use host::answers;
use host::answers::HostRead;

// A bank: its rounds and their depth, and its columns at the fronts of the buffers.
pub fn latchmeander_bank_read(
    text: &[u8],
    commits: &mut [u32],
    signals: &mut [f64],
    curve: &mut [f64],
) -> HostRead
    ensures { (result, commits.new, signals.new, curve.new) ≡ bank_handed (bank_read text.now commits.old signals.old curve.old) }
{
    let answer = bank::read(text, commits, signals, curve);
    answers::of_bank(answer)
}

// A cost table: its rows, in order at the fronts of the columns.
pub fn latchmeander_table_read(
    text: &[u8],
    depths: &mut [u32],
    batches: &mut [u32],
    seconds: &mut [f64],
) -> HostRead
    ensures { (result, depths.new, batches.new, seconds.new) ≡ table_handed (table_read text.now depths.old batches.old seconds.old) }
{
    let answer = measured::read(text, depths, batches, seconds);
    answers::of_table(answer)
}
