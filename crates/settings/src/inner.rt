// What the depth of a plan's drafts is capped at, for a caller that has the policy.
ghost use Rattle.std.specs.Prelude.{◌≡◌};
ghost use Rattle.settings.specs.Settings.{capped_by};

use acceptance::AcceptanceModel;

// gamma, capped at the depth of a trace's bank.
pub fn capped(model: AcceptanceModel, gamma: u32, depth: u32) -> u32
    ensures { result ≡ capped_by model gamma depth }
{
    match model {
        AcceptanceModel::Constant(_) | AcceptanceModel::PerPosition => gamma,
        AcceptanceModel::Trace => gamma.min(depth),
    }
}
