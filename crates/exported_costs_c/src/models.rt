// How the target accepts a draft. A model crosses as the number of its case and its alpha.
ghost use Rattle.std.specs.Prelude.{◌≡◌};
ghost use Rattle.acceptance.specs.Acceptance.{a_d, model_refusal, expected_accepted, sample_accepted};
ghost use Rattle.exported_costs.specs.Asked.{model_of};
ghost use Rattle.exported_costs.specs.Answers.{float_told, sample_told};

use exported::Told;

// The value of position d.
#[unsafe(no_mangle)]
pub extern "C" fn acceptance_a_d(model: u32, alpha: f64, positions: &[f64], d: usize) -> f64
    ensures { result ≡ a_d (model_of model alpha) positions.now d }
{
    exported_costs::models::acceptance_a_d(model, alpha, positions, d)
}

// The number of the refusal, 0 for none.
#[unsafe(no_mangle)]
pub extern "C" fn acceptance_model_refusal(model: u32, alpha: f64, positions: &[f64]) -> u64
    ensures { result ≡ model_refusal (model_of model alpha) positions.now }
{
    exported_costs::models::acceptance_model_refusal(model, alpha, positions)
}

// `first` is the value.
#[unsafe(no_mangle)]
pub extern "C" fn acceptance_expected_accepted(
    model: u32,
    alpha: f64,
    positions: &[f64],
    gamma: u32,
) -> Told
    ensures { result ≡ float_told (expected_accepted (model_of model alpha) positions.now gamma) }
{
    exported_costs::models::acceptance_expected_accepted(model, alpha, positions, gamma)
}

// `first` is the commits, and `second` the draws used.
#[unsafe(no_mangle)]
pub extern "C" fn acceptance_sample_accepted(
    model: u32,
    alpha: f64,
    positions: &[f64],
    gamma: u32,
    draws: &[f64],
) -> Told
    ensures { result ≡ sample_told (sample_accepted (model_of model alpha) positions.now gamma draws.now) }
{
    exported_costs::models::acceptance_sample_accepted(model, alpha, positions, gamma, draws)
}
