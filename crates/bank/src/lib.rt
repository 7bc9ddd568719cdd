// The trace bank: rounds with their commits and signals, read from a text, and its expected acceptance.
#![tactic(auto)]

ghost use Rattle.std.specs.Prelude.{◌≡◌};
ghost use Rattle.bank.specs.Read.{bank_read};
ghost use Rattle.bank.specs.Acceptance.{expected_accepted, sizes_judged};

use bank_judge::{BankSize, MOST_DEPTH};
use refusals::{Refusal, RefusedRow};

// Reads a trace bank: its size, with its rounds and its curve in the buffers, or the first refusal, with nothing written.
pub fn read(
    text: &[u8],
    commits: &mut [u32],
    signals: &mut [f64],
    curve: &mut [f64],
) -> Result<BankSize, RefusedRow>
    ensures { record { answer = result; commits = commits.new; signals = signals.new; curve = curve.new } ≡ bank_read text.now commits.old signals.old curve.old }
{
    let size = bank_judge::inner::judge(text, commits.len(), signals.len(), curve.len())?;
    bank_fill::inner::fill(text, size.depth, size.rounds, commits, signals, curve);
    Ok(size)
}

// The expected acceptance at draft depth `gamma`, of a bank of this depth with this curve: past the depth it is that at the depth.
#[tactic(auto, unfolding(crate::specs::Acceptance::expected_accepted, crate::specs::Acceptance::curve_entry, crate::specs::Acceptance::entry_of))]
pub fn expected_accepted(curve: &[f64], depth: u32, gamma: u32) -> Result<f64, Refusal>
    ensures { result ≡ expected_accepted curve.now depth gamma }
{
    judge_sizes(depth, gamma)?;
    let g = gamma.min(depth) as usize;
    if g < curve.len() {
        let value = curve[g];
        if float::in_range(value, 0.0, 64.0) {
            Ok(value)
        } else {
            Err(Refusal::Input)
        }
    } else {
        Err(Refusal::ShortBuffer)
    }
}

// Refuses a depth that is no bank's, and a gamma that is too large.
#[tactic(auto, unfolding(crate::specs::Acceptance::sizes_judged))]
fn judge_sizes(depth: u32, gamma: u32) -> Result<(), Refusal>
    ensures { result ≡ sizes_judged depth gamma }
{
    if 0 < depth && depth as usize <= MOST_DEPTH && gamma as usize <= MOST_DEPTH {
        Ok(())
    } else {
        Err(Refusal::Size)
    }
}
