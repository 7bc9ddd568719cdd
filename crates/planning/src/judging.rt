// What is left to refuse of a plan once its rounds are drawn.
ghost use Rattle.std.specs.Prelude.{◌≡◌, cond, [], take};
ghost use Rattle.refusals.specs.Refusals.{first_of};
ghost use Rattle.numeral.specs.Moment.{second_of};
ghost use Rattle.ledger.specs.Calls.{step_judged, worker_judged};
ghost use Rattle.deciding.specs.Ready.{lent_of};
ghost use Rattle.planning.specs.Steps.{put_under, signals_refusal};

use crate::uses;
use asking::Ask;
use settings::Settings;

// The first n indices, or all where there are fewer.
fn first_of<'a>(indices: &'a [u32], n: usize) -> &'a [u32]
    ensures { result.now ≡ take n indices.now }
{
    if n < indices.len() {
        &indices[..n]
    } else {
        indices
    }
}

// 15 where a drawn round has a signal that is not finite and the policy is gated; else 0.
fn signals_refusal(settings: Settings, ask: Ask, signals: &[f64], indices: &[u32]) -> u64
    ensures { result ≡ signals_refusal settings ask (lent_of [] [] signals.now [] indices.now) }
{
    let policy = settings.policy;
    let model = settings.model;
    if uses::uses_bank_signals(policy, model) {
        let gamma = settings::gamma_in(settings, ask.depth);
        let drawn = first_of(indices, ask.sequences as usize);
        if rounds::batch::are_finite(signals, ask.depth, gamma, drawn) {
            0
        } else {
            15
        }
    } else {
        0
    }
}

// 17 where the worker's record is used and has no room; else 0.
fn record_refusal(settings: Settings, ask: Ask, storage: &[u64]) -> u64
    ensures { result ≡ cond (put_under settings.switch settings.policy) (worker_judged storage.now ask.a ask.b) 0 }
{
    let policy = settings.policy;
    let switch = settings.switch;
    if uses::uses_record(policy, switch) {
        refusals::number_in(ledger::judge_worker(storage, ask.a, ask.b))
    } else {
        0
    }
}

// What the storage has no room for: 17, then 18 or 19; else 0.
fn held_refusal(settings: Settings, ask: Ask, storage: &[u64]) -> u64
    ensures { result ≡ first_of (cond (put_under settings.switch settings.policy) (worker_judged storage.now ask.a ask.b) 0) (step_judged storage.now (second_of ask.end)) }
{
    let of_record = record_refusal(settings, ask, storage);
    if 0 < of_record {
        return of_record;
    }
    refusals::number_in(ledger::judge_step(storage, numeral::second(ask.end)))
}

// 15 of the signals, then 17, 18 or 19; else 0.
#[tactic(auto, using(refusals::proofs::First::goes_first, refusals::proofs::First::goes_next))]
pub fn late_refusal(
    settings: Settings,
    ask: Ask,
    signals: &[f64],
    indices: &[u32],
    storage: &[u64],
) -> u64
    ensures { result ≡ first_of (signals_refusal settings ask (lent_of [] [] signals.now [] indices.now)) (first_of (cond (put_under settings.switch settings.policy) (worker_judged storage.now ask.a ask.b) 0) (step_judged storage.now (second_of ask.end))) }
{
    let of_signals = signals_refusal(settings, ask, signals, indices);
    if 0 < of_signals {
        return of_signals;
    }
    held_refusal(settings, ask, storage)
}
