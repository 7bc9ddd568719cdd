// What a planner is set to: how deep it may draft, how its drafts are accepted, how it decides, and what drafting and switching cost.
#![tactic(auto)]

pub mod inner;

ghost use Rattle.std.specs.Prelude.{◌≡◌};
ghost use Rattle.settings.specs.Settings.{settings_judged, gamma_in};

use acceptance::AcceptanceModel;
use refusals::Refusal;
use speculative::drafter::DrafterCost;
use switch_settings::SwitchConstraints;
use verify_prices::PriceMode;

// How the depth of a batch's drafts is decided.
#[derive(Clone, Copy)]
pub enum Policy {
    // gamma, whatever it costs
    Fixed,
    // the best depth by the mean acceptance
    GoodputBudget,
    // each sequence's own depth, by a gate
    GatedBudget,
    // one best depth by the sequences' own chains, passed through switching
    GatedAggregate,
}

// The positions of `PerPosition` stand beside it.
#[derive(Clone, Copy)]
pub struct Settings {
    pub gamma: u32,
    pub model: AcceptanceModel,
    pub policy: Policy,
    pub switch: SwitchConstraints,
    pub drafter: DrafterCost,
    // how a gate prices between depths
    pub prices: PriceMode,
}

// Refused as a setting where the model or its positions, the drafter or the switch settings are out of range, used or not.
#[tactic(auto, unfolding(crate::specs::Settings::settings_judged))]
pub fn judge_settings(settings: Settings, positions: &[f64]) -> Result<(), Refusal>
    ensures { result ≡ settings_judged settings positions.now }
{
    acceptance::judge_model(settings.model, positions)?;
    speculative::drafter::judge_drafter(settings.drafter)?;
    switch_settings::judge_switch(settings.switch)
}

// The depth that a plan may draft to: gamma, which all policies but `Fixed` cap at the depth of the bank, where there is one.
pub fn gamma_in(settings: Settings, depth: u32) -> u32
    ensures { result ≡ gamma_in settings depth }
{
    match settings.policy {
        Policy::Fixed => settings.gamma,
        Policy::GoodputBudget | Policy::GatedBudget | Policy::GatedAggregate => {
            inner::capped(settings.model, settings.gamma, depth)
        }
    }
}
