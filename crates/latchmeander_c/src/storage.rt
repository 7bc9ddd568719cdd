// The planner's storage, which is the host's: emptied, changed and read.
ghost use Rattle.std.specs.Prelude.{◌≡◌};
ghost use Rattle.ledger_rows.specs.Layout.{room, seconds_held, workers_held, available};
ghost use Rattle.ledger.specs.Calls.{emptied, collected, withdrawn, count_of as counted, series_read, day_figure, worker_of};
ghost use Rattle.host.specs.Answers.{answer_of, count_of, figure_of, found_of};
ghost use Rattle.latchmeander.specs.Calls.{on_first, series_handed};

use host::answers::{HostCount, HostFigure, HostWorker};

// The words that a planner takes.
#[unsafe(no_mangle)]
pub extern "C" fn latchmeander_room() -> usize
    ensures { result ≡ room }
{
    latchmeander::storage::latchmeander_room()
}

// An empty planner.
#[unsafe(no_mangle)]
pub extern "C" fn latchmeander_fresh(storage: &mut [u64]) -> u64
    ensures { (result, storage.new) ≡ on_first answer_of (emptied storage.old) }
{
    latchmeander::storage::latchmeander_fresh(storage)
}

// A worker's stall, cleared.
#[unsafe(no_mangle)]
pub extern "C" fn latchmeander_collect(storage: &mut [u64], a: u64, b: u64) -> HostFigure
    ensures { (result, storage.new) ≡ on_first figure_of (collected storage.old a b) }
{
    latchmeander::storage::latchmeander_collect(storage, a, b)
}

// The newest change that stands is taken back.
#[unsafe(no_mangle)]
pub extern "C" fn latchmeander_withdraw(storage: &mut [u64]) -> u64
    ensures { (result, storage.new) ≡ on_first answer_of (withdrawn storage.old) }
{
    latchmeander::storage::latchmeander_withdraw(storage)
}

// How many changes can be withdrawn.
#[unsafe(no_mangle)]
pub extern "C" fn latchmeander_available(storage: &[u64]) -> HostCount
    ensures { result ≡ count_of (counted storage.now (available storage.now)) }
{
    latchmeander::storage::latchmeander_available(storage)
}

// How many seconds are held.
#[unsafe(no_mangle)]
pub extern "C" fn latchmeander_seconds_held(storage: &[u64]) -> HostCount
    ensures { result ≡ count_of (counted storage.now (seconds_held storage.now)) }
{
    latchmeander::storage::latchmeander_seconds_held(storage)
}

// How many workers are held.
#[unsafe(no_mangle)]
pub extern "C" fn latchmeander_workers_held(storage: &[u64]) -> HostCount
    ensures { result ≡ count_of (counted storage.now (workers_held storage.now)) }
{
    latchmeander::storage::latchmeander_workers_held(storage)
}

// The seconds and their means, at the fronts of four buffers; the count is how many.
#[unsafe(no_mangle)]
pub extern "C" fn latchmeander_series(
    storage: &[u64],
    seconds: &mut [u64],
    mean_drafts: &mut [f64],
    mean_batches: &mut [f64],
    mean_committed: &mut [f64],
) -> HostCount
    ensures { (result, seconds.new, mean_drafts.new, mean_batches.new, mean_committed.new) ≡ series_handed (series_read storage.now seconds.old mean_drafts.old mean_batches.old mean_committed.old) }
{
    latchmeander::storage::latchmeander_series(
        storage,
        seconds,
        mean_drafts,
        mean_batches,
        mean_committed,
    )
}

// The mean of the seconds' mean drafts.
#[unsafe(no_mangle)]
pub extern "C" fn latchmeander_day_figure(storage: &[u64]) -> HostFigure
    ensures { result ≡ figure_of (day_figure storage.now) }
{
    latchmeander::storage::latchmeander_day_figure(storage)
}

// A worker's record.
#[unsafe(no_mangle)]
pub extern "C" fn latchmeander_worker(storage: &[u64], a: u64, b: u64) -> HostWorker
    ensures { result ≡ found_of (worker_of storage.now a b) }
{
    latchmeander::storage::latchmeander_worker(storage, a, b)
}
