// Survival chains, the price curve in force, and the expected acceptance of a batch at each depth.
ghost use Rattle.std.specs.Prelude.{◌≡◌, ◌≤◌, length, take};
ghost use Rattle.rounds.specs.Signals.{slots};
ghost use Rattle.goodput.specs.Survival.{survival_of};
ghost use Rattle.goodput.specs.Curve.{in_force};
ghost use Rattle.goodput.specs.Expected.{expected_by_depth, model_expected, bank_expected};
ghost use Rattle.exported_costs.specs.Asked.{model_of};
ghost use Rattle.exported_batches.specs.Answers.{source_of, prices_told, survival_told, values_left};

use crate::answers;
use exported::Told;
use exported_costs::asked;
use goodput::{curve, expected, survival};

// At most the first 64.
fn front<'a>(signal: &'a [f64]) -> &'a [f64]
    ensures { result.now ≡ take 64 signal.now }
{
    if 64 < signal.len() {
        let end = 64usize;
        &signal[..end]
    } else {
        signal
    }
}

// Confidences in 64 slots, with 0.0 past them.
fn slots_of(confidences: &[f64]) -> [f64; 64]
    requires { length confidences.now ≤ 64 }
    ensures { result ≡ slots confidences.now }
{
    let mut out = [0.0; 64];
    for d in 0..confidences.len() {
        out[d] = confidences[d];
    }
    out
}

// `first` is slot `at` of the chain, 0 past its 64 slots. The signal is the first 64 of what is lent, with 0.0 past its end.
#[unsafe(no_mangle)]
pub extern "C" fn goodput_survival_chain(signal: &[f64], length: usize, at: usize) -> Told
    ensures { result ≡ survival_told at (survival_of (slots (take 64 signal.now)) length) }
{
    let confidences = front(signal);
    let held = slots_of(confidences);
    let found = survival::survival_chain(held, length);
    let first = if at < 64 {
        float::bits(found.chain[at])
    } else {
        0
    };
    Told {
        refusal: found.refusal,
        first,
        second: 0,
    }
}

// `first` is how many prices there are, and `second` the one at `at`, 0 past the last.
#[unsafe(no_mangle)]
pub extern "C" fn goodput_curve<'a>(
    roofline: &'a [f64],
    measured: &'a [f64],
    source: u32,
    gamma: usize,
    at: usize,
) -> Told
    ensures { result ≡ prices_told at (in_force roofline.now measured.now (source_of source) gamma) }
{
    let from = answers::source_of(source);
    let prices = curve::curve(roofline, measured, from, gamma);
    answers::of_prices(prices, at)
}

// The number of the refusal, 0 for none; the values stand at the front of `out`.
#[unsafe(no_mangle)]
pub extern "C" fn goodput_expected_by_depth(
    chains: &[f64],
    lengths: &[u32],
    gamma: u32,
    out: &mut [f64],
) -> u64
    ensures { (result, out.new) ≡ values_left (expected_by_depth chains.now lengths.now gamma out.old) }
{
    let answer = expected::expected_by_depth(chains, lengths, gamma, out);
    answers::of_answer(answer)
}

// The number of the refusal, 0 for none; the values stand at the front of `out`.
#[unsafe(no_mangle)]
pub extern "C" fn goodput_model_expected(
    model: u32,
    alpha: f64,
    positions: &[f64],
    gamma: u32,
    n: u32,
    out: &mut [f64],
) -> u64
    ensures { (result, out.new) ≡ values_left (model_expected (model_of model alpha) positions.now gamma n out.old) }
{
    let accepts = asked::model_of(model, alpha);
    let answer = expected::model_expected(accepts, positions, gamma, n, out);
    answers::of_answer(answer)
}

// The number of the refusal, 0 for none; the values stand at the front of `out`.
#[unsafe(no_mangle)]
pub extern "C" fn goodput_bank_expected(
    curve: &[f64],
    depth: u32,
    gamma: u32,
    n: u32,
    out: &mut [f64],
) -> u64
    ensures { (result, out.new) ≡ values_left (bank_expected curve.now depth gamma n out.old) }
{
    let answer = expected::bank_expected(curve, depth, gamma, n, out);
    answers::of_answer(answer)
}
