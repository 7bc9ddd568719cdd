// How the target accepts a draft: the value of each position, the expected number of accepted drafts, and the number that
// lent draws accept. Every function takes every model, list and number.
#![tactic(auto)]

pub mod inner;

ghost use Rattle.std.specs.Prelude.{◌≡◌};
ghost use Rattle.acceptance.specs.Acceptance.{a_d, all_chances, carries_chance, model_judged, acceptance_judged, expected_to, expected_accepted, sample_accepted};

use refusals::Refusal;

// `PerPosition`'s list stands beside the enum, as `positions`; the rounds of `Trace` are the planner's.
#[derive(Clone, Copy)]
pub enum AcceptanceModel {
    Constant(f64),
    PerPosition,
    Trace,
}

// How many drafts were accepted, and how many draws that took.
#[derive(Clone, Copy)]
pub struct Sample {
    pub commits: u32,
    pub used: usize,
}

// The most positions of a model.
const MOST_POSITIONS: usize = 64;

// The most drafts.
const MOST_GAMMA: u32 = 64;

// The value of position d, the chance that the draft there is accepted: 0.0 past the list, and for `Trace`.
pub fn a_d(model: AcceptanceModel, positions: &[f64], d: usize) -> f64
    ensures { result ≡ a_d model positions.now d }
{
    match model {
        AcceptanceModel::Constant(alpha) => alpha,
        AcceptanceModel::PerPosition => {
            if d < positions.len() {
                positions[d]
            } else {
                0.0
            }
        }
        AcceptanceModel::Trace => 0.0,
    }
}

// Refused as a setting where the model or a position is out of range or there are too many positions, used by the model or not.
#[tactic(auto, unfolding(crate::specs::Acceptance::model_judged))]
pub fn judge_model(model: AcceptanceModel, positions: &[f64]) -> Result<(), Refusal>
    ensures { result ≡ model_judged model positions.now }
{
    if positions.len() <= MOST_POSITIONS && are_chances(positions) && carries_chance(model) {
        Ok(())
    } else {
        Err(Refusal::Setting)
    }
}

// The expected number of accepted drafts of a draft of `gamma`; the model is judged before gamma. Of `Trace` it is 0.0.
#[tactic(auto, unfolding(crate::specs::Acceptance::expected_accepted))]
pub fn expected_accepted(
    model: AcceptanceModel,
    positions: &[f64],
    gamma: u32,
) -> Result<f64, Refusal>
    ensures { result ≡ expected_accepted model positions.now gamma }
{
    judge(model, positions, gamma)?;
    Ok(expected_sum(model, positions, gamma))
}

// How many drafts of one sequence the draws accept, from the front of `draws`: the model is judged first, then gamma, then each draw.
#[tactic(auto, unfolding(crate::specs::Acceptance::sample_accepted))]
pub fn sample_accepted(
    model: AcceptanceModel,
    positions: &[f64],
    gamma: u32,
    draws: &[f64],
) -> Result<Sample, Refusal>
    ensures { result ≡ sample_accepted model positions.now gamma draws.now }
{
    judge(model, positions, gamma)?;
    inner::sample_from(model, positions, gamma, draws, 0)
}

// Whether every position is a chance: no NaN, the sign bit clear, not above 1.0.
fn are_chances(positions: &[f64]) -> bool
    ensures { result ≡ all_chances positions.now }
{
    positions.iter().all(|x| float::in_range(*x, 0.0, 1.0))
}

// Whether what the model itself carries is a chance.
fn carries_chance(model: AcceptanceModel) -> bool
    ensures { result ≡ carries_chance model }
{
    match model {
        AcceptanceModel::Constant(alpha) => float::in_range(alpha, 0.0, 1.0),
        AcceptanceModel::PerPosition | AcceptanceModel::Trace => true,
    }
}

// What is refused before anything is drawn or added up: the model, then gamma.
#[tactic(auto, unfolding(crate::specs::Acceptance::acceptance_judged))]
fn judge(model: AcceptanceModel, positions: &[f64], gamma: u32) -> Result<(), Refusal>
    ensures { result ≡ acceptance_judged model positions.now gamma }
{
    judge_model(model, positions)?;
    if gamma <= MOST_GAMMA {
        Ok(())
    } else {
        Err(Refusal::Size)
    }
}

// The sum of the products of the first values, one product for each draft.
fn expected_sum(model: AcceptanceModel, positions: &[f64], gamma: u32) -> f64
    ensures { result ≡ expected_to model positions.now gamma }
{
    let mut prefix = 1.0;
    let mut e = 0.0;
    for d in 0..gamma as usize {
        prefix *= a_d(model, positions, d);
        e += prefix;
    }
    e
}
