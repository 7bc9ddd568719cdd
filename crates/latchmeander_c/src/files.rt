// A bank of rounds and a cost table, read from the bytes of a file into what the host lends.
ghost use Rattle.std.specs.Prelude.{◌≡◌};
ghost use Rattle.bank.specs.Read.{bank_read};
ghost use Rattle.measured.specs.Fill.{table_read};
ghost use Rattle.latchmeander.specs.Calls.{bank_handed, table_handed};

use host::answers::HostRead;

// A bank: its rounds and their depth, and its columns at the fronts of the buffers.
#[unsafe(no_mangle)]
pub extern "C" fn latchmeander_bank_read(
    text: &[u8],
    commits: &mut [u32],
    signals: &mut [f64],
    curve: &mut [f64],
) -> HostRead
    ensures { (result, commits.new, signals.new, curve.new) ≡ bank_handed (bank_read text.now commits.old signals.old curve.old) }
{
    latchmeander::files::latchmeander_bank_read(text, commits, signals, curve)
}

// A cost table: its rows, in order at the fronts of the columns.
#[unsafe(no_mangle)]
pub extern "C" fn latchmeander_table_read(
    text: &[u8],
    depths: &mut [u32],
    batches: &mut [u32],
    seconds: &mut [f64],
) -> HostRead
    ensures { (result, depths.new, batches.new, seconds.new) ≡ table_handed (table_read text.now depths.old batches.old seconds.old) }
{
    latchmeander::files::latchmeander_table_read(text, depths, batches, seconds)
}
