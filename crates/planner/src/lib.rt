// The planner: each plan is judged first, and only a plan that is not refused changes anything.
#![tactic(auto)]

ghost use Rattle.std.specs.Prelude.{◌≡◌};
ghost use Rattle.speculative.specs.Drafter.{draft_ragged};
ghost use Rattle.ledger.specs.Calls.{collected, withdrawn};
ghost use Rattle.judged_plans.specs.Plan.{planned};
ghost use Rattle.verifies.specs.Accepted.{accepted_of};

use asking::{Ask, Inputs};
pub use judged_plans::Planned;
use refusals::Refusal;
use settings::Settings;
use speculative::drafter::Rates;

// A plan. `storage` is the planner's own; the drafts and the commits of the sequences are written to the fronts of `drafts`
// and `commits`. Refused with the first of 12, 11, 16, 15, 13 or 14, 15 of the signals, 17, 18 and 19, and then nothing is written.
#[tactic(auto, using(judged_plans::proofs::Ways::none_planned))]
pub fn plan(
    settings: Settings,
    ask: Ask,
    positions: &[f64],
    roofline: &[f64],
    depths: &[u32],
    batches: &[u32],
    seconds: &[f64],
    loaded: &[f64],
    bank_commits: &[u32],
    signals: &[f64],
    bank_curve: &[f64],
    draws: &[f64],
    indices: &[u32],
    storage: &mut [u64],
    drafts: &mut [u32],
    commits: &mut [u32],
) -> Planned
    ensures { record { answer = result; storage = storage.new; drafts = drafts.new; commits = commits.new } ≡ planned settings ask (record { positions = positions.now; roofline = roofline.now; depths = depths.now; batches = batches.now; seconds = seconds.now; loaded = loaded.now; bank_commits_of = bank_commits.now; signals = signals.now; bank_curve_of = bank_curve.now; draws = draws.now; indices = indices.now }) storage.old drafts.old commits.old }
{
    if let Err(refusal) = settings::judge_settings(settings, positions) {
        return Planned::Refused(refusal.number());
    }
    if ask.sequences == 0 {
        return Planned::Empty;
    }
    let inputs = Inputs {
        positions,
        roofline,
        depths,
        batches,
        seconds,
        loaded,
        bank_commits,
        signals,
        bank_curve,
        draws,
        indices,
    };
    let room = drafts.len();
    if let Err(refusal) = asking::judge_ask(settings, ask, inputs, storage, room, commits.len()) {
        return Planned::Refused(refusal.number());
    }
    judged_plans::inner::plan_judged(
        settings,
        ask,
        positions,
        roofline,
        depths,
        batches,
        seconds,
        loaded,
        bank_commits,
        signals,
        bank_curve,
        draws,
        indices,
        storage,
        drafts,
        commits,
    )
}

// How many of a sequence's drafts a verify accepts, where its round was planned and committed so many, and none where no round was.
pub fn accepted(draft: u32, commits: Option<u32>) -> u32
    ensures { result ≡ accepted_of draft commits }
{
    verifies::accepted(draft, commits)
}

// The seconds that the drafter of the settings takes, where each sequence has its own width; 12, 11, 16, then 15.
pub fn drafter_seconds(
    settings: Settings,
    widths: &[u32],
    rates: Rates,
    verify_c: f64,
    loaded: &[f64],
) -> Result<f64, Refusal>
    ensures { result ≡ draft_ragged settings.drafter widths.now rates verify_c loaded.now }
{
    speculative::drafter::ragged_seconds(settings.drafter, widths, rates, verify_c, loaded)
}

// A worker's stall, cleared to 0.0; an unknown worker's is 0.0, and is no change.
pub fn collect(storage: &mut [u64], a: u64, b: u64) -> Result<f64, Refusal>
    ensures { (result, storage.new) ≡ collected storage.old a b }
{
    ledger::collect(storage, a, b)
}

// The newest change that stands is taken back, if a withdrawal is available.
pub fn withdraw(storage: &mut [u64]) -> Result<(), Refusal>
    ensures { (result, storage.new) ≡ withdrawn storage.old }
{
    ledger::withdraw(storage)
}
