// The planner's storage, which is the host's: emptied, changed and read.
ghost use Rattle.std.specs.Prelude.{◌≡◌};
ghost use Rattle.ledger_rows.specs.Layout.{room, seconds_held, workers_held, available};
ghost use Rattle.ledger.specs.Calls.{emptied, collected, withdrawn, count_of as counted, series_read, day_figure, worker_of};
ghost use Rattle.host.specs.Answers.{answer_of, count_of, figure_of, found_of};
ghost use Rattle.latchmeander.specs.Calls.{on_first, series_handed};

use host::answers;
use host::answers::{HostCount, HostFigure, HostWorker};

// The words that a planner takes.
pub fn latchmeander_room() -> usize
    ensures { result ≡ room }
{
    answers::room()
}

// An empty planner.
pub fn latchmeander_fresh(storage: &mut [u64]) -> u64
    ensures { (result, storage.new) ≡ on_first answer_of (emptied storage.old) }
{
    let answer = ledger::fresh(storage);
    answers::of_answer(answer)
}

// A worker's stall, cleared.
pub fn latchmeander_collect(storage: &mut [u64], a: u64, b: u64) -> HostFigure
    ensures { (result, storage.new) ≡ on_first figure_of (collected storage.old a b) }
{
    let answer = planner::collect(storage, a, b);
    answers::of_figure(answer)
}

// The newest change that stands is taken back.
pub fn latchmeander_withdraw(storage: &mut [u64]) -> u64
    ensures { (result, storage.new) ≡ on_first answer_of (withdrawn storage.old) }
{
    let answer = planner::withdraw(storage);
    answers::of_answer(answer)
}

// How many changes can be withdrawn.
pub fn latchmeander_available(storage: &[u64]) -> HostCount
    ensures { result ≡ count_of (counted storage.now (available storage.now)) }
{
    let answer = ledger::available(storage);
    answers::of_count(answer)
}

// How many seconds are held.
pub fn latchmeander_seconds_held(storage: &[u64]) -> HostCount
    ensures { result ≡ count_of (counted storage.now (seconds_held storage.now)) }
{
    let answer = ledger::seconds_held(storage);
    answers::of_count(answer)
}

// How many workers are held.
pub fn latchmeander_workers_held(storage: &[u64]) -> HostCount
    ensures { result ≡ count_of (counted storage.now (workers_held storage.now)) }
{
    let answer = ledger::workers_held(storage);
    answers::of_count(answer)
}

// The seconds and their means, at the fronts of four buffers; the count is how many.
pub fn latchmeander_series(
    storage: &[u64],
    seconds: &mut [u64],
    mean_drafts: &mut [f64],
    mean_batches: &mut [f64],
    mean_committed: &mut [f64],
) -> HostCount
    ensures { (result, seconds.new, mean_drafts.new, mean_batches.new, mean_committed.new) ≡ series_handed (series_read storage.now seconds.old mean_drafts.old mean_batches.old mean_committed.old) }
{
    let answer = ledger::series(storage, seconds, mean_drafts, mean_batches, mean_committed);
    answers::of_count(answer)
}

// The mean of the seconds' mean drafts.
pub fn latchmeander_day_figure(storage: &[u64]) -> HostFigure
    ensures { result ≡ figure_of (day_figure storage.now) }
{
    let answer = ledger::day_figure(storage);
    answers::of_figure(answer)
}

// A worker's record.
pub fn latchmeander_worker(storage: &[u64], a: u64, b: u64) -> HostWorker
    ensures { result ≡ found_of (worker_of storage.now a b) }
{
    let answer = ledger::worker(storage, a, b);
    answers::of_found(answer)
}
