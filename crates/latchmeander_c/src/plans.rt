// A plan, and what a host asks beside it. A number that stands for no case is refused 12 before all else.
ghost use Rattle.std.specs.Prelude.{◌≡◌};
ghost use Rattle.latchmeander.specs.Calls.{plan_called, seconds_called, accepted_called};

use host::answers::{HostFigure, HostPlan};
use host::asked::{HostAsk, HostRates, HostSettings};

// A plan; the drafts and the commits of the sequences stand at the fronts of `drafts` and `commits`.
#[unsafe(no_mangle)]
pub extern "C" fn latchmeander_plan(
    settings: HostSettings,
    ask: HostAsk,
    positions: &[f64],
    roofline: &[f64],
    depths: &[u32],
    batches: &[u32],
    seconds: &[f64],
    loaded: &[f64],
    bank_commits: &[u32],
    signals: &[f64],
    bank_curve: &[f64],
    draws: &[f64],
    indices: &[u32],
    storage: &mut [u64],
    drafts: &mut [u32],
    commits: &mut [u32],
) -> HostPlan
    ensures { (result, storage.new, drafts.new, commits.new) ≡ plan_called settings ask (record { positions = positions.now; roofline = roofline.now; depths = depths.now; batches = batches.now; seconds = seconds.now; loaded = loaded.now; bank_commits_of = bank_commits.now; signals = signals.now; bank_curve_of = bank_curve.now; draws = draws.now; indices = indices.now }) storage.old drafts.old commits.old }
{
    latchmeander::plans::latchmeander_plan(
        settings,
        ask,
        positions,
        roofline,
        depths,
        batches,
        seconds,
        loaded,
        bank_commits,
        signals,
        bank_curve,
        draws,
        indices,
        storage,
        drafts,
        commits,
    )
}

// The seconds that the drafter of the settings takes, where each sequence has its own width.
#[unsafe(no_mangle)]
pub extern "C" fn latchmeander_drafter_seconds(
    settings: HostSettings,
    rates: HostRates,
    verify_c: f64,
    widths: &[u32],
    loaded: &[f64],
) -> HostFigure
    ensures { result ≡ seconds_called settings rates verify_c widths.now loaded.now }
{
    latchmeander::plans::latchmeander_drafter_seconds(settings, rates, verify_c, widths, loaded)
}

// How many of a sequence's drafts a verify accepts, where a round was planned that commits so many.
#[unsafe(no_mangle)]
pub extern "C" fn latchmeander_accepted(draft: u32, planned: bool, commits: u32) -> u32
    ensures { result ≡ accepted_called draft planned commits }
{
    latchmeander::plans::latchmeander_accepted(draft, planned, commits)
}
