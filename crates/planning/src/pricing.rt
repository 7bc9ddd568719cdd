// The prices of a plan, and the decision by them.
ghost use Rattle.std.specs.Prelude.{◌≡◌, true, ◌≤◌, length, take};
ghost use Rattle.cost_rows.specs.Table.{zip};
ghost use Rattle.goodput.specs.declared.curve.Source.TheVariants.{Table};
ghost use Rattle.settings.specs.Settings.{uses_costs};
ghost use Rattle.step_times.specs.Prices.{prices};
ghost use Rattle.planning.specs.Acting.{Tabled, Priced, decided_priced, lent_to_act};

use crate::uses;
use asking::Ask;
use deciding::Choice;
use goodput::curve::Source;
use ledger_rows::layout::Past;
use settings::{Policy, Settings};

// The measured prices of the first depths, as many as `out` has slots for, where there is a table and the policy uses costs. Else `out` stays as
// it is, and is not read.
fn measure(
    policy: Policy,
    ask: Ask,
    depths: &[u32],
    batches: &[u32],
    seconds: &[f64],
    out: &mut [f64],
)
    requires out_len_bound { length out.old ≤ 65 }
    requires tabled { uses_costs policy ≡ true → ask.source ≡ Table → Tabled ask depths.now batches.now seconds.now }
    ensures { uses_costs policy ≡ true → ask.source ≡ Table → out.new ≡ take (length out.old) (prices ask.sequences ask.rates.kv_delta (zip ask.rows depths.now batches.now seconds.now)) }
{
    let source = ask.source;
    let rates = ask.rates;
    if uses::uses_costs(policy) {
        match source {
            Source::Roofline => {}
            Source::Table => {
                step_times::inner::prices_to(
                    depths,
                    batches,
                    seconds,
                    ask.rows,
                    ask.sequences,
                    rates.kv_delta,
                    out,
                )
            }
        }
    }
}

// What is decided by the prices in force.
pub fn decide_priced(
    settings: Settings,
    ask: Ask,
    past: Past,
    positions: &[f64],
    roofline: &[f64],
    depths: &[u32],
    batches: &[u32],
    seconds: &[f64],
    loaded: &[f64],
    signals: &[f64],
    bank_curve: &[f64],
    indices: &[u32],
    drafts: &mut [u32],
) -> Choice
    requires { Priced settings ask past (lent_to_act positions.now roofline.now depths.now batches.now seconds.now loaded.now signals.now bank_curve.now indices.now) drafts.old }
    ensures { record { drafts = drafts.new; weighed = result.weighed; change = result.change } ≡ decided_priced settings ask (lent_to_act positions.now roofline.now depths.now batches.now seconds.now loaded.now signals.now bank_curve.now indices.now) past }
{
    let policy = settings.policy;
    let source = ask.source;
    let gamma = settings::gamma_in(settings, ask.depth);
    let end = gamma as usize + 1;
    let mut measured = [0.0; 65];
    measure(policy, ask, depths, batches, seconds, &mut measured[..end]);
    let curve = goodput::curve::curve(roofline, &measured, source, gamma as usize);
    deciding::decide(
        settings, ask, past, positions, loaded, signals, bank_curve, indices, curve, drafts,
    )
}
