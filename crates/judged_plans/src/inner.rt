// Plans of at least one sequence, whose settings and inputs are judged.
ghost use Rattle.std.specs.Prelude.{◌≡◌, length};
ghost use Rattle.settings.specs.Settings.{settings_refusal};
ghost use Rattle.asking.specs.Asked.{asked_refusal};
ghost use Rattle.judged_plans.specs.Plan.{some_planned};

use crate::Planned;
use asking::Ask;
use plan_draws::draws;
use planning::{acting, judging};
use rounds::drawing::Drawn;
use settings::Settings;

// A plan of at least one sequence. What is refused once the rounds are drawn is judged before they are, so that they are drawn, and what is
// lent to be written is written, once nothing else is left to refuse.
pub fn plan_judged(
    settings: Settings,
    ask: Ask,
    positions: &[f64],
    roofline: &[f64],
    depths: &[u32],
    batches: &[u32],
    seconds: &[f64],
    loaded: &[f64],
    bank_commits: &[u32],
    signals: &[f64],
    bank_curve: &[f64],
    draws: &[f64],
    indices: &[u32],
    storage: &mut [u64],
    drafts: &mut [u32],
    commits: &mut [u32],
) -> Planned
    requires positions_value { settings_refusal settings positions.now ≡ 0 }
    requires commits_value { asked_refusal settings ask (record { positions = positions.now; roofline = roofline.now; depths = depths.now; batches = batches.now; seconds = seconds.now; loaded = loaded.now; bank_commits_of = bank_commits.now; signals = signals.now; bank_curve_of = bank_curve.now; draws = draws.now; indices = indices.now }) storage.old (length drafts.old) (length commits.old) ≡ 0 }
    ensures { record { answer = result; storage = storage.new; drafts = drafts.new; commits = commits.new } ≡ some_planned settings ask (record { positions = positions.now; roofline = roofline.now; depths = depths.now; batches = batches.now; seconds = seconds.now; loaded = loaded.now; bank_commits_of = bank_commits.now; signals = signals.now; bank_curve_of = bank_curve.now; draws = draws.now; indices = indices.now }) storage.old drafts.old commits.old }
{
    let late = judging::late_refusal(settings, ask, signals, indices, storage);
    match draws::draw(
        late,
        settings,
        ask,
        positions,
        bank_commits,
        draws,
        indices,
        commits,
    ) {
        Drawn::Refused(number) => Planned::Refused(number),
        Drawn::Used(used) => {
            let n = ask.sequences as usize;
            let weighed = acting::act(
                settings,
                ask,
                positions,
                roofline,
                depths,
                batches,
                seconds,
                loaded,
                signals,
                bank_curve,
                indices,
                &commits[..n],
                storage,
                &mut drafts[..n],
            );
            Planned::Plan { used, weighed }
        }
    }
}
