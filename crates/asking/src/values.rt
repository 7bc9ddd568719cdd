// The values of what a plan is lent, for a caller that has judged the sizes and the lengths.
ghost use Rattle.std.specs.Prelude.{◌≡◌, true, cond, ◌≤◌, length};
ghost use Rattle.ledger_rows.specs.Layout.{room};
ghost use Rattle.ledger_workers.specs.Workers.{past_of};
ghost use Rattle.settings.specs.Settings.{uses_costs, gamma_in};
ghost use Rattle.asked_values.specs.Columns.{columns_fit};
ghost use Rattle.asking.specs.Asked.{lists_of, costs_valued, values_judged};

use crate::{Ask, Inputs};
use asked_rooms::rooms::uses_costs;
use asked_values::inner;
use refusals::Refusal;
use settings::Settings;

// Whether the rates, the prices and the loaded experts are in range, where the policy looks at costs.
fn are_costs(settings: Settings, ask: Ask, gamma: usize, inputs: Inputs) -> bool
    requires columns { cond (uses_costs settings.policy) (columns_fit ask.source ask.rows inputs.depths.now inputs.batches.now inputs.seconds.now) true ≡ true }
    requires depth { gamma ≡ gamma_in settings ask.depth }
    ensures { result ≡ costs_valued settings ask (lists_of inputs.entry) }
{
    if !uses_costs(settings.policy) {
        return true;
    }
    speculative::drafter::judge_rates(ask.rates).is_ok()
        && inner::are_priced(
            ask.source,
            gamma,
            inputs.roofline,
            inputs.depths,
            inputs.batches,
            inputs.seconds,
            ask.rows,
        )
        && inner::are_loaded(settings.drafter, ask.sequences as usize, inputs.loaded)
}

// Refused as an input where a value that the plan uses is out of range.
#[tactic(auto, unfolding(crate::specs::Asked::values_judged))]
pub fn judge_values(
    settings: Settings,
    ask: Ask,
    inputs: Inputs,
    storage: &[u64],
) -> Result<(), Refusal>
    requires columns { cond (uses_costs settings.policy) (columns_fit ask.source ask.rows inputs.depths.now inputs.batches.now inputs.seconds.now) true ≡ true }
    requires room_in_bounds { room ≤ length storage.now }
    ensures { result ≡ values_judged settings ask (lists_of inputs.entry) (past_of storage.now ask.a ask.b) }
{
    let gamma = settings::gamma_in(settings, ask.depth) as usize;
    let costs = are_costs(settings, ask, gamma, inputs);
    if costs && inner::is_read(settings, gamma, inputs.bank_curve, storage, ask.a, ask.b) {
        Ok(())
    } else {
        Err(Refusal::Input)
    }
}
