// An accepted plan: what is decided, and what is written.
ghost use Rattle.std.specs.Prelude.{◌≡◌, true, ◌≤◌, length};
ghost use Rattle.ledger_rows.specs.Layout.{room};
ghost use Rattle.ledger_workers.specs.Workers.{past_of};
ghost use Rattle.ledger.specs.Calls.{step_judged, recorded};
ghost use Rattle.planning.specs.Steps.{put_under};
ghost use Rattle.planning.specs.Acting.{Judged, acted_by, decided_priced, change_judged, lent_to_act};

use crate::{pricing, uses};
use asking::Ask;
use ledger::answer::Decision;
use ledger_rows::layout::{Past, Step};
use settings::Settings;

// What the storage has of the worker, where its record is used; else nothing that is read.
fn past_used(settings: Settings, ask: Ask, storage: &[u64]) -> Past
    requires { room ≤ length storage.now }
    ensures { put_under settings.switch settings.policy ≡ true → result ≡ past_of storage.now ask.a ask.b }
{
    let policy = settings.policy;
    let switch = settings.switch;
    if uses::uses_record(policy, switch) {
        ledger_workers::inner::past(storage, ask.a, ask.b)
    } else {
        Past {
            kind: 1,
            width: 0,
            rounds: 0,
            stall: 0,
        }
    }
}

// The step and the worker's record in the storage, which has room for both.
fn keep(storage: &mut [u64], step: Step, change: Decision)
    requires { (step_judged storage.old step.second ≡ 0) × (change_judged storage.old change ≡ 0) }
    ensures { storage.new ≡ (recorded storage.old step change).1 }
{
    let found = ledger_seconds::inner::place(storage, step.second);
    match change {
        Decision::Nothing => {
            ledger_acts::inner::act_plain(storage, found, step);
        }
        Decision::Put {
            a,
            b,
            width,
            rounds,
            stall,
        } => {
            ledger_acts::inner::act_decided(storage, found, step, a, b, width, rounds, stall);
        }
    }
}

// What is decided is written to the drafts, and kept with what the commits accept of it; the answer is how many slots were weighed.
pub fn act(
    settings: Settings,
    ask: Ask,
    positions: &[f64],
    roofline: &[f64],
    depths: &[u32],
    batches: &[u32],
    seconds: &[f64],
    loaded: &[f64],
    signals: &[f64],
    bank_curve: &[f64],
    indices: &[u32],
    commits: &[u32],
    storage: &mut [u64],
    drafts: &mut [u32],
) -> usize
    requires sequences_in_bounds { ask.sequences ≤ length commits.now }
    requires judged { Judged settings ask (lent_to_act positions.now roofline.now depths.now batches.now seconds.now loaded.now signals.now bank_curve.now indices.now) storage.old drafts.old }
    ensures { record { weighed = result; drafts = drafts.new; storage = storage.new } ≡ acted_by ask commits.now storage.old (decided_priced settings ask (lent_to_act positions.now roofline.now depths.now batches.now seconds.now loaded.now signals.now bank_curve.now indices.now) (past_of storage.old ask.a ask.b)) }
{
    let past = past_used(settings, ask, storage);
    let choice = pricing::decide_priced(
        settings, ask, past, positions, roofline, depths, batches, seconds, loaded, signals,
        bank_curve, indices, drafts,
    );
    let change = choice.change;
    let counts = verifies::inner::count(drafts, commits);
    let step = Step {
        second: numeral::second(ask.end),
        drafts: counts.drafts,
        sequences: ask.sequences as u64,
        committed: counts.committed,
    };
    keep(storage, step, change);
    choice.weighed
}
