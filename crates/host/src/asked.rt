// What a host asks, as plain numbers. A number that stands for no case is told by `settings_fit` and `ask_fits`, before anything is read from it.
ghost use Rattle.std.specs.Prelude.{◌≡◌};
ghost use Rattle.host.specs.Asked.{model_of, policy_of, step_of, drafter_of, source_of, switch_of, rates_of, settings_of, ask_of, settings_fit, ask_fits};

use acceptance::AcceptanceModel;
use asking::Ask;
use goodput::curve::Source;
use settings::{Policy, Settings};
use speculative::drafter::{DrafterCost, Rates};
use switch_settings::{MaxStep, SwitchConstraints};
use verify_prices::inner::mode_of;

// `policy`, `model`, `steps`, `drafter` and `prices` are numbers of cases. Only the fields of the case that is named are read.
#[repr(C)]
#[derive(Clone, Copy)]
pub struct HostSettings {
    pub alpha: f64,
    pub cost_ms: f64,
    pub frac: f64,
    pub dense_params: f64,
    pub expert_params: f64,
    pub params: f64,
    pub gamma: u32,
    pub policy: u32,
    pub model: u32,
    pub drafter: u32,
    pub cooldown_rounds: u32,
    pub steps: u32,
    pub max_step: u32,
    pub num_experts: u32,
    pub experts_per_tok: u32,
    pub shared_experts: u32,
    pub block: u32,
    pub prices: u32,
}

#[repr(C)]
#[derive(Clone, Copy)]
pub struct HostRates {
    pub peak: f64,
    pub bw: f64,
    pub kv_delta: f64,
}

// `source` is the number of a case.
#[repr(C)]
#[derive(Clone, Copy)]
pub struct HostAsk {
    pub a: u64,
    pub b: u64,
    pub end: f64,
    pub rates: HostRates,
    pub rows: usize,
    pub sequences: u32,
    pub source: u32,
    pub depth: u32,
    pub rounds: u32,
}

// Whether each number of a case stands for one.
#[tactic(auto, unfolding(crate::specs::Asked::settings_fit))]
pub fn settings_fit(s: HostSettings) -> bool
    ensures { result ≡ settings_fit s }
{
    s.policy <= 3 && s.model <= 2 && s.drafter <= 2 && s.steps <= 1 && s.prices <= 1
}

#[tactic(auto, unfolding(crate::specs::Asked::ask_fits))]
pub fn ask_fits(ask: HostAsk) -> bool
    ensures { result ≡ ask_fits ask }
{
    ask.source <= 1
}

// 0 a constant, 1 a list of positions, 2 a trace.
#[tactic(auto, unfolding(crate::specs::Asked::model_of))]
fn model_of(model: u32, alpha: f64) -> AcceptanceModel
    ensures { result ≡ model_of model alpha }
{
    if model == 0 {
        return AcceptanceModel::Constant(alpha);
    }
    if model == 1 {
        return AcceptanceModel::PerPosition;
    }
    AcceptanceModel::Trace
}

// 0 Fixed, 1 GoodputBudget, 2 GatedBudget, 3 GatedAggregate.
#[tactic(auto, unfolding(crate::specs::Asked::policy_of))]
fn policy_of(policy: u32) -> Policy
    ensures { result ≡ policy_of policy }
{
    if policy == 0 {
        return Policy::Fixed;
    }
    if policy == 1 {
        return Policy::GoodputBudget;
    }
    if policy == 2 {
        return Policy::GatedBudget;
    }
    Policy::GatedAggregate
}

// 0 any number of candidates a walk, 1 at most `max_step`.
#[tactic(auto, unfolding(crate::specs::Asked::step_of))]
fn step_of(steps: u32, max_step: u32) -> MaxStep
    ensures { result ≡ step_of steps max_step }
{
    if steps == 0 {
        return MaxStep::Unlimited;
    }
    MaxStep::AtMost(max_step)
}

// 0 a fraction, 1 an autoregressive head, 2 a block head.
#[tactic(auto, unfolding(crate::specs::Asked::drafter_of))]
pub fn drafter_of(s: HostSettings) -> DrafterCost
    ensures { result ≡ drafter_of s }
{
    if s.drafter == 0 {
        return DrafterCost::Fraction { frac: s.frac };
    }
    if s.drafter == 1 {
        return DrafterCost::Autoregressive {
            dense_params: s.dense_params,
            expert_params: s.expert_params,
            num_experts: s.num_experts,
            experts_per_tok: s.experts_per_tok,
            shared_experts: s.shared_experts,
        };
    }
    DrafterCost::BlockParallel {
        params: s.params,
        block: s.block,
    }
}

// 0 the roofline, 1 the table.
#[tactic(auto, unfolding(crate::specs::Asked::source_of))]
fn source_of(source: u32) -> Source
    ensures { result ≡ source_of source }
{
    if source == 0 {
        return Source::Roofline;
    }
    Source::Table
}

fn switch_of(s: HostSettings) -> SwitchConstraints
    ensures { result ≡ switch_of s }
{
    let max_step = step_of(s.steps, s.max_step);
    SwitchConstraints {
        cooldown_rounds: s.cooldown_rounds,
        max_step,
        cost_ms: s.cost_ms,
    }
}

pub fn rates_of(r: HostRates) -> Rates
    ensures { result ≡ rates_of r }
{
    Rates {
        peak: r.peak,
        bw: r.bw,
        kv_delta: r.kv_delta,
    }
}

pub fn settings_of(s: HostSettings) -> Settings
    ensures { result ≡ settings_of s }
{
    let model = model_of(s.model, s.alpha);
    let policy = policy_of(s.policy);
    let switch = switch_of(s);
    let drafter = drafter_of(s);
    let prices = mode_of(s.prices);
    Settings {
        gamma: s.gamma,
        model,
        policy,
        switch,
        drafter,
        prices,
    }
}

pub fn ask_of(ask: HostAsk) -> Ask
    ensures { result ≡ ask_of ask }
{
    let rates = rates_of(ask.rates);
    let source = source_of(ask.source);
    Ask {
        a: ask.a,
        b: ask.b,
        sequences: ask.sequences,
        end: ask.end,
        rates,
        source,
        rows: ask.rows,
        depth: ask.depth,
        rounds: ask.rounds,
    }
}
