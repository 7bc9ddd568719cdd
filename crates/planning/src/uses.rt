// What a plan uses, by its policy.
ghost use Rattle.std.specs.Prelude.{◌≡◌, ◌&&◌};
ghost use Rattle.settings.specs.Settings.{uses_costs, uses_signals, is_trace};
ghost use Rattle.planning.specs.Steps.{put_under};

use acceptance::AcceptanceModel;
use settings::Policy;
use switch_settings::SwitchConstraints;

// The costs: all but `Fixed`.
pub fn uses_costs(policy: Policy) -> bool
    ensures { result ≡ uses_costs policy }
{
    match policy {
        Policy::Fixed => false,
        Policy::GoodputBudget | Policy::GatedBudget | Policy::GatedAggregate => true,
    }
}

fn is_trace(model: AcceptanceModel) -> bool
    ensures { result ≡ is_trace model }
{
    match model {
        AcceptanceModel::Constant(_) | AcceptanceModel::PerPosition => false,
        AcceptanceModel::Trace => true,
    }
}

// The signals of a bank's rounds: the two gated policies.
pub fn uses_bank_signals(policy: Policy, model: AcceptanceModel) -> bool
    ensures { result ≡ uses_signals policy && is_trace model }
{
    match policy {
        Policy::Fixed | Policy::GoodputBudget => false,
        Policy::GatedBudget | Policy::GatedAggregate => is_trace(model),
    }
}

// The worker's record: `GatedAggregate` where switching is constrained.
pub fn uses_record(policy: Policy, switch: SwitchConstraints) -> bool
    ensures { result ≡ put_under switch policy }
{
    match policy {
        Policy::Fixed | Policy::GoodputBudget | Policy::GatedBudget => false,
        Policy::GatedAggregate => !switch.is_unconstrained(),
    }
}
