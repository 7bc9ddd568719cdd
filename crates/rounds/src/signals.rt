// The signal of a round, as it goes into its survival chain.
ghost use Rattle.std.specs.Prelude.{◌≡◌, ◌≤◌, ◌*◌, length, take, drop};
ghost use Rattle.rounds.specs.Signals.{slots, values_from, confidences};

use acceptance::AcceptanceModel;

// At most `count` values from `at` on, and fewer where the list ends.
fn part<'a>(values: &'a [f64], at: usize, count: usize) -> &'a [f64]
    ensures { result.now ≡ take count (drop at values.now) }
{
    if values.len() <= at {
        let end = values.len();
        return &values[end..];
    }
    let rest = &values[at..];
    if count < rest.len() {
        &rest[..count]
    } else {
        rest
    }
}

// The first gamma confidences of a bank's round.
pub fn confidences_of<'a>(signals: &'a [f64], depth: u32, gamma: u32, index: u32) -> &'a [f64]
    ensures { result.now ≡ confidences signals.now depth gamma index }
{
    let at = index as usize * depth as usize;
    part(signals, at, gamma as usize)
}

// Confidences in 64 slots, with 0.0 past them.
pub fn slots_of(confidences: &[f64]) -> [f64; 64]
    requires { length confidences.now ≤ 64 }
    ensures { result ≡ slots confidences.now }
{
    let mut out = [0.0; 64];
    out[..confidences.len()].copy_from_slice(confidences);
    out
}

// The model's values at the first gamma positions in 64 slots, with 0.0 past them.
pub fn model_slots(model: AcceptanceModel, positions: &[f64], gamma: u32) -> [f64; 64]
    requires { gamma ≤ 64 }
    ensures { result ≡ slots (values_from model positions.now 0 gamma) }
{
    let mut out = [0.0; 64];
    for d in 0..gamma as usize {
        out[d] = acceptance::a_d(model, positions, d);
    }
    out
}
