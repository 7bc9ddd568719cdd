// A whole plan. Settings cross as plain numbers, each of an enum as the number of its case.
ghost use Rattle.std.specs.Prelude.{◌≡◌};
ghost use Rattle.asking.specs.Asked.{Lent};
ghost use Rattle.planner.specs.Plan.{planned};
ghost use Rattle.bench_plans.specs.Figures.{drafter_of, rates_of};
ghost use Rattle.bench_plans.specs.Whole.{model_of, policy_of, switch_of, source_of, settings_of, ask_of, used_of};

use crate::batches::{drafter_of, rates_of};
use acceptance::AcceptanceModel;
use asking::Ask;
use goodput::curve::Source;
use planner::Planned;
use settings::{Policy, Settings};
use speculative::drafter::DrafterCost;
use switch_settings::{MaxStep, SwitchConstraints};
use verify_prices::PriceMode;

// 0 a constant, 1 a list of positions, any other a trace.
#[tactic(auto, unfolding(crate::specs::Whole::model_of))]
fn model_of(model: u32, alpha: f64) -> AcceptanceModel
    ensures { result ≡ model_of model alpha }
{
    if model == 0 {
        return AcceptanceModel::Constant(alpha);
    }
    if model == 1 {
        return AcceptanceModel::PerPosition;
    }
    AcceptanceModel::Trace
}

// 0 Fixed, 1 GoodputBudget, 2 GatedBudget, any other GatedAggregate.
#[tactic(auto, unfolding(crate::specs::Whole::policy_of))]
fn policy_of(policy: u32) -> Policy
    ensures { result ≡ policy_of policy }
{
    if policy == 0 {
        return Policy::Fixed;
    }
    if policy == 1 {
        return Policy::GoodputBudget;
    }
    if policy == 2 {
        return Policy::GatedBudget;
    }
    Policy::GatedAggregate
}

// At most one candidate a walk.
fn switch_of(cooldown: u32, cost_ms: f64) -> SwitchConstraints
    ensures { result ≡ switch_of cooldown cost_ms }
{
    SwitchConstraints {
        cooldown_rounds: cooldown,
        max_step: MaxStep::AtMost(1),
        cost_ms,
    }
}

// Prices come from the table where it has rows.
#[tactic(auto, unfolding(crate::specs::Whole::source_of))]
fn source_of(rows: usize) -> Source
    ensures { result ≡ source_of rows }
{
    if rows == 0 {
        Source::Roofline
    } else {
        Source::Table
    }
}

pub fn settings_of(
    gamma: u32,
    model: u32,
    alpha: f64,
    policy: u32,
    cooldown: u32,
    cost_ms: f64,
    drafter: DrafterCost,
) -> Settings
    ensures { result ≡ settings_of gamma model alpha policy cooldown cost_ms drafter }
{
    let accepts = model_of(model, alpha);
    let decides = policy_of(policy);
    let switch = switch_of(cooldown, cost_ms);
    Settings {
        gamma,
        model: accepts,
        policy: decides,
        switch,
        drafter,
        prices: PriceMode::Default,
    }
}

// A plan of worker (0, worker).
pub fn ask_of(
    worker: u64,
    sequences: u32,
    end: f64,
    peak: f64,
    bw: f64,
    rows: usize,
    depth: u32,
    rounds: u32,
) -> Ask
    ensures { result ≡ ask_of worker sequences end peak bw rows depth rounds }
{
    let rates = rates_of(peak, bw);
    let source = source_of(rows);
    Ask {
        a: 0,
        b: worker,
        sequences,
        end,
        rates,
        source,
        rows,
        depth,
        rounds,
    }
}

// How many draws the plan used; 2^64 - 1 where it is refused.
#[tactic(auto, unfolding(crate::specs::Whole::used_of))]
fn used_of(answer: Planned) -> u64
    ensures { result ≡ used_of answer }
{
    match answer {
        Planned::Plan { used, .. } => used as u64,
        Planned::Empty => 0,
        Planned::Refused(_) => 18446744073709551615,
    }
}

// The draws that the plan used; its drafts and commits stand at the fronts of `drafts` and `commits`.
#[unsafe(no_mangle)]
pub extern "C" fn bench_plan(
    gamma: u32,
    model: u32,
    alpha: f64,
    policy: u32,
    cooldown: u32,
    cost_ms: f64,
    kind: u32,
    a: f64,
    b: f64,
    c: u32,
    d: u32,
    e: u32,
    worker: u64,
    sequences: u32,
    end: f64,
    peak: f64,
    bw: f64,
    rows: usize,
    depth: u32,
    rounds: u32,
    positions: &[f64],
    roofline: &[f64],
    depths: &[u32],
    batches: &[u32],
    seconds: &[f64],
    loaded: &[f64],
    bank_commits: &[u32],
    signals: &[f64],
    bank_curve: &[f64],
    draws: &[f64],
    indices: &[u32],
    storage: &mut [u64],
    drafts: &mut [u32],
    commits: &mut [u32],
) -> u64
    ensures value { result ≡ used_of (planned (settings_of gamma model alpha policy cooldown cost_ms (drafter_of kind a b c d e)) (ask_of worker sequences end peak bw rows depth rounds) (record { positions = positions.now; roofline = roofline.now; depths = depths.now; batches = batches.now; seconds = seconds.now; loaded = loaded.now; bank_commits_of = bank_commits.now; signals = signals.now; bank_curve_of = bank_curve.now; draws = draws.now; indices = indices.now }) storage.old drafts.old commits.old).answer }
    ensures storage_after { storage.new ≡ (planned (settings_of gamma model alpha policy cooldown cost_ms (drafter_of kind a b c d e)) (ask_of worker sequences end peak bw rows depth rounds) (record { positions = positions.now; roofline = roofline.now; depths = depths.now; batches = batches.now; seconds = seconds.now; loaded = loaded.now; bank_commits_of = bank_commits.now; signals = signals.now; bank_curve_of = bank_curve.now; draws = draws.now; indices = indices.now }) storage.old drafts.old commits.old).storage }
    ensures drafts_after { drafts.new ≡ (planned (settings_of gamma model alpha policy cooldown cost_ms (drafter_of kind a b c d e)) (ask_of worker sequences end peak bw rows depth rounds) (record { positions = positions.now; roofline = roofline.now; depths = depths.now; batches = batches.now; seconds = seconds.now; loaded = loaded.now; bank_commits_of = bank_commits.now; signals = signals.now; bank_curve_of = bank_curve.now; draws = draws.now; indices = indices.now }) storage.old drafts.old commits.old).drafts }
    ensures commits_after { commits.new ≡ (planned (settings_of gamma model alpha policy cooldown cost_ms (drafter_of kind a b c d e)) (ask_of worker sequences end peak bw rows depth rounds) (record { positions = positions.now; roofline = roofline.now; depths = depths.now; batches = batches.now; seconds = seconds.now; loaded = loaded.now; bank_commits_of = bank_commits.now; signals = signals.now; bank_curve_of = bank_curve.now; draws = draws.now; indices = indices.now }) storage.old drafts.old commits.old).commits }
{
    let drafter = drafter_of(kind, a, b, c, d, e);
    let settings = settings_of(gamma, model, alpha, policy, cooldown, cost_ms, drafter);
    let ask = ask_of(worker, sequences, end, peak, bw, rows, depth, rounds);
    let answer = planner::plan(
        settings,
        ask,
        positions,
        roofline,
        depths,
        batches,
        seconds,
        loaded,
        bank_commits,
        signals,
        bank_curve,
        draws,
        indices,
        storage,
        drafts,
        commits,
    );
    used_of(answer)
}
