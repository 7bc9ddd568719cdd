// The expected acceptance of a batch at each depth: from its survival chains, from an acceptance model, or from a trace bank.
ghost use Rattle.std.specs.Prelude.{◌≡◌};
ghost use Rattle.goodput.specs.Expected.{expected_by_depth, model_expected, bank_expected};

use acceptance::AcceptanceModel;
use refusals::Refusal;

// Writes the expected acceptance of a batch at the depths 0 to gamma to the front of `out`. The chains stand one after the
// other, 64 slots each, and each has its length. 11, then 16 where the chains or `out` are too short, then 15 where a length
// is above 64 or a survival that is read is out of range.
#[tactic(auto, using(crate::proofs::Batches::fits), unfolding(crate::specs::Expected::expected_by_depth))]
pub fn expected_by_depth(
    chains: &[f64],
    lengths: &[u32],
    gamma: u32,
    out: &mut [f64],
) -> Result<(), Refusal>
    ensures { record { answer = result; out = out.new } ≡ expected_by_depth chains.now lengths.now gamma out.old }
{
    goodput_judges::judge_chains(chains, lengths, gamma, out.len())?;
    let sums = chains::inner::expected_over(chains, lengths, gamma);
    let count = gamma as usize + 1;
    out[..count].copy_from_slice(&sums[..count]);
    Ok(())
}

// Writes n times the model's expected number of accepted drafts at the depths 0 to gamma to the front of `out`. 12, then 11,
// then 16 where `out` is too short.
#[tactic(auto, using(goodput_judges::proofs::Passed::model_passed), unfolding(crate::specs::Expected::model_expected))]
pub fn model_expected(
    model: AcceptanceModel,
    positions: &[f64],
    gamma: u32,
    n: u32,
    out: &mut [f64],
) -> Result<(), Refusal>
    ensures { record { answer = result; out = out.new } ≡ model_expected model positions.now gamma n out.old }
{
    goodput_judges::judge_model_values(model, positions, gamma, n, out.len())?;
    budgets::model_values(model, positions, gamma, n, out);
    Ok(())
}

// Writes n times the bank's expected acceptance at the depths 0 to gamma to the front of `out`: of a bank of this depth with
// this curve, past the depth that at the depth. 11, then 16 where the curve ends before the last entry that is used or `out` is
// too short, then 15 where an entry that is used is out of range.
#[tactic(auto, using(goodput_judges::proofs::Passed::bank_passed), unfolding(crate::specs::Expected::bank_expected))]
pub fn bank_expected(
    curve: &[f64],
    depth: u32,
    gamma: u32,
    n: u32,
    out: &mut [f64],
) -> Result<(), Refusal>
    ensures { record { answer = result; out = out.new } ≡ bank_expected curve.now depth gamma n out.old }
{
    goodput_judges::judge_bank_values(curve, depth, gamma, n, out.len())?;
    budgets::bank_values(curve, depth, gamma, n, out);
    Ok(())
}
