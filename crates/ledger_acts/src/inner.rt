// What a plan and a collection are refused for, and what they do once nothing is refused. Callers keep the storage long enough.
ghost use Rattle.std.specs.Prelude.{◌≡◌, true, ◌≤◌, ◌<◌, length};
ghost use Rattle.ledger_rows.specs.Layout.{room, seconds_most};
ghost use Rattle.ledger_seconds.specs.Seconds.{second_place};
ghost use Rattle.ledger_workers.specs.Workers.{past_of};
ghost use Rattle.ledger_acts.specs.Acts.{place_allows, step_allows, worker_allows, plain_done, decided_done, collected_done};

use ledger_rows::layout::{Place, SECONDS_MOST, STEPS_MOST, Step, WORKERS_MOST};
use refusals::Refusal;

// Whether a second whose place was found takes a step more.
#[tactic(auto, unfolding(crate::specs::Acts::place_allows))]
pub fn judge_place(storage: &[u64], found: Place) -> Result<(), Refusal>
    requires { (found.known ≡ true → found.row < seconds_most) × (room ≤ length storage.now) }
    ensures { result ≡ place_allows storage.now found }
{
    if found.known {
        if ledger_seconds::inner::steps(storage, found.row) < STEPS_MOST {
            Ok(())
        } else {
            Err(Refusal::StepRoom)
        }
    } else if found.rows < SECONDS_MOST {
        Ok(())
    } else {
        Err(Refusal::SecondRoom)
    }
}

// Whether `second` takes a step more.
#[tactic(auto, unfolding(crate::specs::Acts::step_allows), using(crate::proofs::Ways::known_row))]
pub fn judge_step(storage: &[u64], second: u64) -> Result<(), Refusal>
    requires { room ≤ length storage.now }
    ensures { result ≡ step_allows storage.now second }
{
    judge_place(storage, ledger_seconds::inner::place(storage, second))
}

// Whether there is a worker's record, or room for it.
#[tactic(auto, unfolding(crate::specs::Acts::worker_allows))]
pub fn judge_worker(storage: &[u64], a: u64, b: u64) -> Result<(), Refusal>
    requires { room ≤ length storage.now }
    ensures { result ≡ worker_allows storage.now a b }
{
    let found = ledger_workers::inner::place(storage, a, b);
    if found.known || found.rows < WORKERS_MOST {
        Ok(())
    } else {
        Err(Refusal::WorkerRoom)
    }
}

// A plan of no worker done, its second's place being found: its step is added, and the change is kept.
#[tactic(auto, unfolding(crate::specs::Acts::plain_done))]
pub fn act_plain(storage: &mut [u64], found: Place, step: Step)
    requires { (found ≡ second_place storage.old step.second) × (room ≤ length storage.old) }
    ensures { storage.new ≡ plain_done storage.old step }
{
    let change = [
        step.second,
        step.drafts,
        step.sequences,
        step.committed,
        1,
        0,
        0,
        0,
        0,
        0,
        0,
    ];
    ledger_seconds::inner::add_step(storage, found, step);
    ledger_changes::inner::push(storage, &change);
}

// A plan of a worker done, its second's place being found: its step is added, its record is put, and the change is kept with the record from before.
#[tactic(auto, unfolding(crate::specs::Acts::decided_done))]
pub fn act_decided(
    storage: &mut [u64],
    found: Place,
    step: Step,
    a: u64,
    b: u64,
    width: u64,
    rounds: u64,
    stall: u64,
)
    requires { (found ≡ second_place storage.old step.second) × (room ≤ length storage.old) }
    ensures { storage.new ≡ decided_done storage.old step a b width rounds stall (past_of storage.old a b) }
{
    let past = ledger_workers::inner::past(storage, a, b);
    let change = [
        step.second,
        step.drafts,
        step.sequences,
        step.committed,
        1,
        past.kind,
        a,
        b,
        past.width,
        past.rounds,
        past.stall,
    ];
    ledger_seconds::inner::add_step(storage, found, step);
    ledger_workers::inner::put(storage, a, b, width, rounds, stall);
    ledger_changes::inner::push(storage, &change);
}

// A known worker's stall cleared, and the change kept.
#[tactic(auto, unfolding(crate::specs::Acts::collected_done))]
pub fn act_collect(storage: &mut [u64], a: u64, b: u64, width: u64, rounds: u64, stall: u64)
    requires { room ≤ length storage.old }
    ensures { storage.new ≡ collected_done storage.old a b (record { kind = 2; width = width; rounds = rounds; stall = stall }) }
{
    let change = [0, 0, 0, 0, 0, 2, a, b, width, rounds, stall];
    ledger_workers::inner::put(storage, a, b, width, rounds, 0);
    ledger_changes::inner::push(storage, &change);
}
