// What each policy drafts, and what becomes of the worker's record, for a caller that has judged what a plan is lent.
#![tactic(auto)]

mod mean;
mod toward;

ghost use Rattle.std.specs.Prelude.{◌≡◌, false, true, ◌+◌, ◌≤◌, ◌<◌, [], length};
ghost use Rattle.settings.specs.Settings.{gamma_in, is_trace};
ghost use Rattle.switch_settings.specs.Switch.{is_unconstrained};
ghost use Rattle.deciding.specs.Deciding.{Decided, toward, all_put, by_mean, by_gate, by_aggregate, decided_by};
ghost use Rattle.gating.specs.Batch.{Batched};
ghost use Rattle.deciding.specs.Ready.{looped, lent_of, Held, Ready};

use asking::Ask;
use ledger::answer::Decision;
use ledger_rows::layout::Past;
use settings::{Policy, Settings};

// How many slots were weighed, and the worker's new record, if there is one.
#[derive(Clone, Copy)]
pub struct Choice {
    pub weighed: usize,
    pub change: Decision,
}

// All draft to the best depth by the mean acceptance.
fn by_mean(
    settings: Settings,
    ask: Ask,
    positions: &[f64],
    loaded: &[f64],
    bank_curve: &[f64],
    curve: &[f64],
    drafts: &mut [u32],
) -> Choice
    requires gamma_bound { (settings.gamma ≤ 64) × (length drafts.old ≡ ask.sequences) × (length curve.now ≡ gamma_in settings ask.depth + 1) }
    requires depth_in_bounds { is_trace settings.model ≡ true → gamma_in settings ask.depth < length bank_curve.now }
    ensures { record { drafts = drafts.new; weighed = result.weighed; change = result.change } ≡ by_mean (looped settings ask loaded.now) settings ask (lent_of positions.now loaded.now [] bank_curve.now []) curve.now }
{
    let gamma = settings::gamma_in(settings, ask.depth);
    let depth = mean::mean_depth(settings, ask, gamma, positions, loaded, bank_curve, curve);
    drafts.fill(depth);
    Choice {
        weighed: 0,
        change: Decision::Nothing,
    }
}

// Each sequence drafts to its own depth, by the gate of the drafter.
fn by_gate(
    settings: Settings,
    ask: Ask,
    positions: &[f64],
    loaded: &[f64],
    signals: &[f64],
    indices: &[u32],
    curve: &[f64],
    drafts: &mut [u32],
) -> Choice
    requires { Batched settings ask (gamma_in settings ask.depth) indices.now curve.now drafts.old }
    ensures { record { drafts = drafts.new; weighed = result.weighed; change = result.change } ≡ by_gate (looped settings ask loaded.now) settings ask (lent_of positions.now loaded.now signals.now [] indices.now) curve.now }
{
    let gamma = settings::gamma_in(settings, ask.depth);
    let gated = gating::gate_batch(
        settings, ask, gamma, true, positions, loaded, signals, indices, curve, drafts,
    );
    Choice {
        weighed: gated.weighed,
        change: Decision::Nothing,
    }
}

// All draft one step toward the target, which becomes the worker's record.
fn put_toward(
    settings: Settings,
    ask: Ask,
    past: Past,
    target: u32,
    curve: &[f64],
    drafts: &mut [u32],
) -> Choice
    requires drafts_len { (length drafts.old ≡ ask.sequences) × (length curve.now ≤ 65) }
    requires held { past.kind ≡ 2 → Held past }
    ensures { record { drafts = drafts.new; weighed = result.weighed; change = result.change } ≡ all_put ask.sequences ask.a ask.b (toward settings.switch curve.now target past) }
{
    let switch = settings.switch;
    let next = toward::toward(switch, curve, target, past);
    drafts.fill(next.width);
    Choice {
        weighed: 0,
        change: Decision::Put {
            a: ask.a,
            b: ask.b,
            width: next.width as u64,
            rounds: next.rounds as u64,
            stall: float::bits(next.stall),
        },
    }
}

// All draft to the batch's depth by its chains, passed through switching; an unconstrained setting touches no record.
fn by_aggregate(
    settings: Settings,
    ask: Ask,
    past: Past,
    positions: &[f64],
    loaded: &[f64],
    signals: &[f64],
    indices: &[u32],
    curve: &[f64],
    drafts: &mut [u32],
) -> Choice
    requires batched { Batched settings ask (gamma_in settings ask.depth) indices.now curve.now drafts.old }
    requires held { is_unconstrained settings.switch ≡ false → past.kind ≡ 2 → Held past }
    ensures { record { drafts = drafts.new; weighed = result.weighed; change = result.change } ≡ by_aggregate (looped settings ask loaded.now) settings ask (lent_of positions.now loaded.now signals.now [] indices.now) curve.now past }
{
    let gamma = settings::gamma_in(settings, ask.depth);
    let gated = gating::gate_batch(
        settings, ask, gamma, false, positions, loaded, signals, indices, curve, drafts,
    );
    let target = gated.depth;
    let switch = settings.switch;
    if switch.is_unconstrained() {
        drafts.fill(target);
        return Choice {
            weighed: 0,
            change: Decision::Nothing,
        };
    }
    put_toward(settings, ask, past, target, curve, drafts)
}

// What the policy drafts for each sequence, and what becomes of the worker's record.
pub fn decide(
    settings: Settings,
    ask: Ask,
    past: Past,
    positions: &[f64],
    loaded: &[f64],
    signals: &[f64],
    bank_curve: &[f64],
    indices: &[u32],
    curve: &[f64],
    drafts: &mut [u32],
) -> Choice
    requires { Ready settings ask past bank_curve.now indices.now curve.now drafts.old }
    ensures { record { drafts = drafts.new; weighed = result.weighed; change = result.change } ≡ decided_by (looped settings ask loaded.now) settings ask (lent_of positions.now loaded.now signals.now bank_curve.now indices.now) curve.now settings.policy past }
{
    let policy = settings.policy;
    match policy {
        Policy::Fixed => {
            drafts.fill(settings.gamma);
            Choice {
                weighed: 0,
                change: Decision::Nothing,
            }
        }
        Policy::GoodputBudget => {
            by_mean(settings, ask, positions, loaded, bank_curve, curve, drafts)
        }
        Policy::GatedBudget => by_gate(
            settings, ask, positions, loaded, signals, indices, curve, drafts,
        ),
        Policy::GatedAggregate => by_aggregate(
            settings, ask, past, positions, loaded, signals, indices, curve, drafts,
        ),
    }
}
