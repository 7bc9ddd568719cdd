// What settings and inputs of a plan are refused for. They cross as `host` has them; a number that stands for no case is taken for the last one.
ghost use Rattle.std.specs.Prelude.{◌≡◌};
ghost use Rattle.settings.specs.Settings.{settings_refusal, gamma_in};
ghost use Rattle.asking.specs.Asked.{asked_refusal};
ghost use Rattle.host.specs.Asked.{settings_of, ask_of};

use asking::Inputs;
use host::asked;
use host::asked::{HostAsk, HostSettings};

// The number of the refusal, 0 for none.
#[unsafe(no_mangle)]
pub extern "C" fn settings_settings_refusal(settings: HostSettings, positions: &[f64]) -> u64
    ensures { result ≡ settings_refusal (settings_of settings) positions.now }
{
    let set = asked::settings_of(settings);
    refusals::number_in(settings::judge_settings(set, positions))
}

// The depth that a plan may draft to.
#[unsafe(no_mangle)]
pub extern "C" fn settings_gamma_in(settings: HostSettings, depth: u32) -> u32
    ensures { result ≡ gamma_in (settings_of settings) depth }
{
    let set = asked::settings_of(settings);
    settings::gamma_in(set, depth)
}

// The number of the refusal, 0 for none. `drafts` and `commits` are how many there is room for.
#[unsafe(no_mangle)]
pub extern "C" fn asking_asked_refusal(
    settings: HostSettings,
    ask: HostAsk,
    positions: &[f64],
    roofline: &[f64],
    depths: &[u32],
    batches: &[u32],
    seconds: &[f64],
    loaded: &[f64],
    bank_commits: &[u32],
    signals: &[f64],
    bank_curve: &[f64],
    draws: &[f64],
    indices: &[u32],
    storage: &[u64],
    drafts: usize,
    commits: usize,
) -> u64
    ensures { result ≡ asked_refusal (settings_of settings) (ask_of ask) (record { positions = positions.now; roofline = roofline.now; depths = depths.now; batches = batches.now; seconds = seconds.now; loaded = loaded.now; bank_commits_of = bank_commits.now; signals = signals.now; bank_curve_of = bank_curve.now; draws = draws.now; indices = indices.now }) storage.now drafts commits }
{
    let set = asked::settings_of(settings);
    let asks = asked::ask_of(ask);
    let inputs = Inputs {
        positions,
        roofline,
        depths,
        batches,
        seconds,
        loaded,
        bank_commits,
        signals,
        bank_curve,
        draws,
        indices,
    };
    refusals::number_in(asking::judge_ask(set, asks, inputs, storage, drafts, commits))
}
