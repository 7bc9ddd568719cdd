// The planner's storage: the seconds with their sums, the workers with their records, and the newest changes, each of which can be taken back.
// It is lent whole to each call. What a call answers and leaves is said for any content; what it means for a storage that only these calls
// wrote is proved in `ledger_laws`.
#![tactic(auto)]

ghost use Rattle.std.specs.Prelude.{◌≡◌, ◌≤◌, length};
ghost use Rattle.ledger_rows.specs.Layout.{room, available, seconds_held, workers_held};
ghost use Rattle.ledger_workers.specs.Workers.{past_of};
ghost use Rattle.ledger_acts.specs.Acts.{step_allows, plain_done, decided_done};
ghost use Rattle.refusals.specs.Refusals.{and_then};
ghost use Rattle.ledger.specs.Calls.{step_allowed, worker_allowed, unless, recorded, collected, withdrawn, emptied, count_of, worker_of, series_read, day_figure};

use crate::answer::{Decision, Held};
use ledger_rows::layout::{ROOM, Step};
use refusals::Refusal;

pub mod answer;

// An empty planner: words beyond the room stay.
#[tactic(auto, unfolding(crate::specs::Calls::emptied, crate::specs::Calls::zeros))]
pub fn fresh(storage: &mut [u64]) -> Result<(), Refusal>
    ensures { (result, storage.new) ≡ emptied storage.old }
{
    if storage.len() < ROOM {
        return Err(Refusal::ShortBuffer);
    }
    storage[..ROOM].fill(0);
    Ok(())
}

// Whether a plan that ends in `second` finds room.
#[tactic(auto, unfolding(crate::specs::Calls::step_allowed))]
pub fn judge_step(storage: &[u64], second: u64) -> Result<(), Refusal>
    ensures { result ≡ step_allowed storage.now second }
{
    if storage.len() < ROOM {
        return Err(Refusal::ShortBuffer);
    }
    ledger_acts::inner::judge_step(storage, second)
}

// Whether a decision for a worker finds room.
#[tactic(auto, unfolding(crate::specs::Calls::worker_allowed))]
pub fn judge_worker(storage: &[u64], a: u64, b: u64) -> Result<(), Refusal>
    ensures { result ≡ worker_allowed storage.now a b }
{
    if storage.len() < ROOM {
        return Err(Refusal::ShortBuffer);
    }
    ledger_acts::inner::judge_worker(storage, a, b)
}

// A plan of no worker. Its second is searched for once, to judge and to act.
#[tactic(auto, unfolding(crate::specs::Calls::step_allowed, ledger_acts::specs::Acts::step_allows), using(ledger_acts::proofs::Ways::known_row))]
fn record_plain(storage: &mut [u64], step: Step) -> Result<(), Refusal>
    ensures { (result, storage.new) ≡ unless (step_allowed storage.old step.second) storage.old (plain_done storage.old step) }
{
    if storage.len() < ROOM {
        return Err(Refusal::ShortBuffer);
    }
    let found = ledger_seconds::inner::place(storage, step.second);
    ledger_acts::inner::judge_place(storage, found)?;
    ledger_acts::inner::act_plain(storage, found, step);
    Ok(())
}

// A plan whose worker is not refused. Its second is searched for once, to judge and to act.
#[tactic(auto, unfolding(ledger_acts::specs::Acts::step_allows), using(ledger_acts::proofs::Ways::known_row))]
fn record_step(
    storage: &mut [u64],
    step: Step,
    a: u64,
    b: u64,
    width: u64,
    rounds: u64,
    stall: u64,
) -> Result<(), Refusal>
    requires { room ≤ length storage.old }
    ensures { (result, storage.new) ≡ unless (step_allows storage.old step.second) storage.old (decided_done storage.old step a b width rounds stall (past_of storage.old a b)) }
{
    let found = ledger_seconds::inner::place(storage, step.second);
    ledger_acts::inner::judge_place(storage, found)?;
    ledger_acts::inner::act_decided(storage, found, step, a, b, width, rounds, stall);
    Ok(())
}

// A plan of a worker.
#[tactic(auto, unfolding(crate::specs::Calls::worker_allowed, crate::specs::Calls::step_allowed))]
fn record_decided(
    storage: &mut [u64],
    step: Step,
    a: u64,
    b: u64,
    width: u64,
    rounds: u64,
    stall: u64,
) -> Result<(), Refusal>
    ensures { (result, storage.new) ≡ unless (and_then (worker_allowed storage.old a b) (step_allowed storage.old step.second)) storage.old (decided_done storage.old step a b width rounds stall (past_of storage.old a b)) }
{
    judge_worker(storage, a, b)?;
    record_step(storage, step, a, b, width, rounds, stall)
}

// An accepted plan: its drafts, its sequences, its committed and one step are added at its second, and its worker's record is put where it has one.
// The storage is judged first, then the worker, then the second.
#[tactic(auto, unfolding(crate::specs::Calls::recorded))]
pub fn record(storage: &mut [u64], step: Step, change: Decision) -> Result<(), Refusal>
    ensures { (result, storage.new) ≡ recorded storage.old step change }
{
    match change {
        Decision::Nothing => record_plain(storage, step),
        Decision::Put {
            a,
            b,
            width,
            rounds,
            stall,
        } => record_decided(storage, step, a, b, width, rounds, stall),
    }
}

// A worker's stall, cleared to 0.0; an unknown worker's is 0.0, and is no change.
#[tactic(auto, unfolding(crate::specs::Calls::collected, crate::specs::Calls::collected_of, ledger_acts::specs::Acts::collected_done))]
pub fn collect(storage: &mut [u64], a: u64, b: u64) -> Result<f64, Refusal>
    ensures { (result, storage.new) ≡ collected storage.old a b }
{
    if storage.len() < ROOM {
        return Err(Refusal::ShortBuffer);
    }
    let past = ledger_workers::inner::past(storage, a, b);
    if past.kind == 2 {
        let stall = past.stall;
        ledger_acts::inner::act_collect(storage, a, b, past.width, past.rounds, stall);
        Ok(float::of_bits(stall))
    } else {
        Ok(0.0)
    }
}

// The newest change that stands is taken back, if a withdrawal is available.
#[tactic(auto, unfolding(crate::specs::Calls::withdrawn))]
pub fn withdraw(storage: &mut [u64]) -> Result<(), Refusal>
    ensures { (result, storage.new) ≡ withdrawn storage.old }
{
    if storage.len() < ROOM {
        return Err(Refusal::ShortBuffer);
    }
    let before = ledger_changes::inner::kept(storage);
    if 0 < before {
        ledger_changes::inner::step_back(storage);
        ledger_changes::inner::worker_back(storage);
        ledger_changes::inner::pop(storage, before);
        Ok(())
    } else {
        Err(Refusal::NoWithdrawal)
    }
}

// How many withdrawals are available.
#[tactic(auto, unfolding(crate::specs::Calls::count_of))]
pub fn available(storage: &[u64]) -> Result<u64, Refusal>
    ensures { result ≡ count_of storage.now (available storage.now) }
{
    if storage.len() < ROOM {
        return Err(Refusal::ShortBuffer);
    }
    Ok(ledger_changes::inner::kept(storage) as u64)
}

// How many seconds are held.
#[tactic(auto, unfolding(crate::specs::Calls::count_of))]
pub fn seconds_held(storage: &[u64]) -> Result<u64, Refusal>
    ensures { result ≡ count_of storage.now (seconds_held storage.now) }
{
    if storage.len() < ROOM {
        return Err(Refusal::ShortBuffer);
    }
    Ok(ledger_seconds::inner::held(storage) as u64)
}

// How many workers are held.
#[tactic(auto, unfolding(crate::specs::Calls::count_of))]
pub fn workers_held(storage: &[u64]) -> Result<u64, Refusal>
    ensures { result ≡ count_of storage.now (workers_held storage.now) }
{
    if storage.len() < ROOM {
        return Err(Refusal::ShortBuffer);
    }
    Ok(ledger_workers::inner::held(storage) as u64)
}

// A worker's record, if it is held.
#[tactic(auto, unfolding(crate::specs::Calls::worker_of, crate::specs::Calls::found_of))]
pub fn worker(storage: &[u64], a: u64, b: u64) -> Result<Option<Held>, Refusal>
    ensures { result ≡ worker_of storage.now a b }
{
    if storage.len() < ROOM {
        return Err(Refusal::ShortBuffer);
    }
    let past = ledger_workers::inner::past(storage, a, b);
    if past.kind == 2 {
        Ok(Some(Held {
            width: past.width,
            rounds: past.rounds,
            stall: past.stall,
        }))
    } else {
        Ok(None)
    }
}

// The seconds held, ascending, each with its mean draft, its mean batch and its mean committed, at the fronts of four buffers; answers how many they are.
// Refused where the storage or a buffer is too short.
#[tactic(auto, unfolding(crate::specs::Calls::series_read))]
pub fn series(
    storage: &[u64],
    seconds: &mut [u64],
    mean_drafts: &mut [f64],
    mean_batches: &mut [f64],
    mean_committed: &mut [f64],
) -> Result<u64, Refusal>
    ensures { (result, seconds.new, mean_drafts.new, mean_batches.new, mean_committed.new) ≡ series_read storage.now seconds.old mean_drafts.old mean_batches.old mean_committed.old }
{
    if storage.len() < ROOM {
        return Err(Refusal::ShortBuffer);
    }
    let rows = ledger_seconds::inner::held(storage);
    if seconds.len() < rows
        || mean_drafts.len() < rows
        || mean_batches.len() < rows
        || mean_committed.len() < rows
    {
        return Err(Refusal::ShortBuffer);
    }
    ledger_series::inner::fill(
        storage,
        rows,
        seconds,
        mean_drafts,
        mean_batches,
        mean_committed,
    );
    Ok(rows as u64)
}

// The seconds' mean drafts added in order from 0.0, divided by how many there are; 0.0 for none.
#[tactic(auto, unfolding(crate::specs::Calls::day_figure))]
pub fn day_figure(storage: &[u64]) -> Result<f64, Refusal>
    ensures { result ≡ day_figure storage.now }
{
    if storage.len() < ROOM {
        return Err(Refusal::ShortBuffer);
    }
    let rows = ledger_seconds::inner::held(storage);
    Ok(ledger_series::inner::figure(storage, rows))
}
