// The survival chains of a batch, one after the other, 64 slots a sequence.
ghost use Rattle.std.specs.Prelude.{◌≡◌, ◌≤◌, ◌+◌, ◌*◌, length, take};
ghost use Rattle.std.proofs.lemmas.List.Edits.{sets};
ghost use Rattle.float.specs.Floats.{f1};
ghost use Rattle.chains.specs.Survival.{products};
ghost use Rattle.rounds.specs.Signals.{are_finite, slots, Zeros, model_chain, same_chains, round_chains};

use crate::signals;
use acceptance::AcceptanceModel;

// Whether the first gamma confidences of every round that is drawn are finite.
pub fn are_finite(signals: &[f64], depth: u32, gamma: u32, indices: &[u32]) -> bool
    ensures { result ≡ are_finite signals.now depth gamma indices.now }
{
    for index in indices {
        let confidences = signals::confidences_of(signals, depth, gamma, *index);
        if !chain_tests::are_finite(confidences) {
            return false;
        }
    }
    true
}

// A chain's first slots laid from a place on.
fn lay(front: &[f64], chains: &mut [f64], at: usize)
    requires { at + length front.now ≤ length chains.old }
    ensures { chains.new ≡ sets chains.old at front.now }
{
    chains[at..at + front.len()].copy_from_slice(front);
}

// The running products of a signal laid from a place on.
fn lay_products(signal: &[f64], chains: &mut [f64], at: usize)
    requires { at + length signal.now ≤ length chains.old }
    ensures { chains.new ≡ sets chains.old at (products f1 signal.now) }
{
    let mut s = 1.0;
    for (d, confidence) in signal.iter().enumerate() {
        s *= float::clamp_unit(*confidence);
        chains[at + d] = s;
    }
}

// The running products of a round's first `width` confidences, each that is not there 0.0.
fn lay_round(confidences: &[f64], width: usize, chains: &mut [f64], at: usize)
    requires { (length confidences.now ≤ width) × (width ≤ 64) × (at + 64 ≤ length chains.old) }
    ensures { chains.new ≡ sets chains.old at (products f1 (take width (slots confidences.now))) }
{
    if confidences.len() < width {
        let signal = signals::slots_of(confidences);
        lay_products(&signal[..width], chains, at);
    } else {
        lay_products(confidences, chains, at);
    }
}

// The chains of the drawn rounds of a bank, laid over slots that all hold 0.0: of each only the slots that may hold something
// else are written.
pub fn lay_rounds(signals: &[f64], depth: u32, gamma: u32, indices: &[u32], chains: &mut [f64])
    requires { (gamma ≤ 64) × (length indices.now * 64 ≤ length chains.old) × Zeros chains.old }
    ensures { chains.new ≡ sets chains.old 0 (round_chains signals.now depth gamma indices.now) }
{
    let width = gamma as usize;
    for (k, index) in indices.iter().enumerate() {
        let confidences = signals::confidences_of(signals, depth, gamma, *index);
        lay_round(confidences, width, chains, k * 64);
    }
}

// The chain of a model's rounds, for each of n sequences, laid in the same way.
pub fn lay_model(
    model: AcceptanceModel,
    positions: &[f64],
    gamma: u32,
    n: usize,
    chains: &mut [f64],
)
    requires { (gamma ≤ 64) × (n ≤ 1024) × (n * 64 ≤ length chains.old) × Zeros chains.old }
    ensures { chains.new ≡ sets chains.old 0 (same_chains (model_chain model positions.now gamma) n) }
{
    let width = gamma as usize;
    let signal = signals::model_slots(model, positions, gamma);
    let chain = chains::inner::chain(signal, width);
    for k in 0..n {
        lay(&chain[..width], chains, k * 64);
    }
}
