// What n sequences are expected to accept at each depth where none has a signal of its own, for callers that have judged what
// they were lent. The values go to the front of `out`.
#![tactic(auto)]

ghost use Rattle.std.specs.Prelude.{◌≡◌, ◌≤◌, ◌<◌, min, length};
ghost use Rattle.budgets.specs.Budget.{model_values, bank_values, over};

use acceptance::AcceptanceModel;

// n times the model's expected number of accepted drafts at the depths 0 to gamma, in one pass: a depth's product and sum are
// those of the depth before it and one draft more.
pub fn model_values(model: AcceptanceModel, positions: &[f64], gamma: u32, n: u32, out: &mut [f64])
    requires { gamma < length out.old }
    ensures { out.new ≡ over (model_values model positions.now n gamma) out.old }
{
    let count = gamma as usize + 1;
    let times = n as f64;
    let mut prefix = 1.0;
    let mut e = 0.0;
    for d in 0..count {
        out[d] = times * e;
        prefix *= acceptance::a_d(model, positions, d);
        e += prefix;
    }
}

// n times the bank's curve at the depths 0 to gamma; past the bank's depth it is the value there.
pub fn bank_values(curve: &[f64], depth: u32, gamma: u32, n: u32, out: &mut [f64])
    requires gamma_bound { gamma ≤ 64 }
    requires gamma_in_bounds { gamma < length out.old }
    requires depth_in_bounds { min gamma depth < length curve.now }
    ensures { out.new ≡ over (bank_values curve.now depth n gamma) out.old }
{
    let times = n as f64;
    for g in 0..gamma + 1 {
        let at = g.min(depth) as usize;
        out[g as usize] = times * curve[at];
    }
}
