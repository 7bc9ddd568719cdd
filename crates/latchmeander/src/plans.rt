// A plan, and what a host asks beside it. A number that stands for no case is refused 12 before all else.
ghost use Rattle.std.specs.Prelude.{◌≡◌};
ghost use Rattle.latchmeander.specs.Calls.{plan_called, seconds_called, accepted_called};

use host::answers::{HostFigure, HostPlan};
use host::asked::{HostAsk, HostRates, HostSettings};
use host::{answers, asked};
use planner::Planned;
use refusals::Refusal;

// A plan; the drafts and the commits of the sequences stand at the fronts of `drafts` and `commits`.
#[tactic(auto, unfolding(crate::specs::Calls::plan_called))]
pub fn latchmeander_plan(
    settings: HostSettings,
    ask: HostAsk,
    positions: &[f64],
    roofline: &[f64],
    depths: &[u32],
    batches: &[u32],
    seconds: &[f64],
    loaded: &[f64],
    bank_commits: &[u32],
    signals: &[f64],
    bank_curve: &[f64],
    draws: &[f64],
    indices: &[u32],
    storage: &mut [u64],
    drafts: &mut [u32],
    commits: &mut [u32],
) -> HostPlan
    ensures { (result, storage.new, drafts.new, commits.new) ≡ plan_called settings ask (record { positions = positions.now; roofline = roofline.now; depths = depths.now; batches = batches.now; seconds = seconds.now; loaded = loaded.now; bank_commits_of = bank_commits.now; signals = signals.now; bank_curve_of = bank_curve.now; draws = draws.now; indices = indices.now }) storage.old drafts.old commits.old }
{
    if !asked::settings_fit(settings) || !asked::ask_fits(ask) {
        return answers::of_planned(Planned::Refused(12));
    }
    let set = asked::settings_of(settings);
    let asks = asked::ask_of(ask);
    let answer = planner::plan(
        set,
        asks,
        positions,
        roofline,
        depths,
        batches,
        seconds,
        loaded,
        bank_commits,
        signals,
        bank_curve,
        draws,
        indices,
        storage,
        drafts,
        commits,
    );
    answers::of_planned(answer)
}

// The seconds that the drafter of the settings takes, where each sequence has its own width.
#[tactic(auto, unfolding(crate::specs::Calls::seconds_called))]
pub fn latchmeander_drafter_seconds(
    settings: HostSettings,
    rates: HostRates,
    verify_c: f64,
    widths: &[u32],
    loaded: &[f64],
) -> HostFigure
    ensures { result ≡ seconds_called settings rates verify_c widths.now loaded.now }
{
    if !asked::settings_fit(settings) {
        return answers::of_figure(Err(Refusal::Setting));
    }
    let set = asked::settings_of(settings);
    let speeds = asked::rates_of(rates);
    let answer = planner::drafter_seconds(set, widths, speeds, verify_c, loaded);
    answers::of_figure(answer)
}

// How many of a sequence's drafts a verify accepts, where a round was planned that commits so many.
#[tactic(auto, unfolding(crate::specs::Calls::accepted_called))]
pub fn latchmeander_accepted(draft: u32, planned: bool, commits: u32) -> u32
    ensures { result ≡ accepted_called draft planned commits }
{
    if planned {
        return planner::accepted(draft, Some(commits));
    }
    planner::accepted(draft, None)
}
