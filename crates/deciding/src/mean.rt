// The best depth by the mean acceptance, of the model or of the bank.
ghost use Rattle.std.specs.Prelude.{◌≡◌, true, ◌+◌, ◌≤◌, ◌<◌, length};
ghost use Rattle.budgets.specs.Budget.{over};
ghost use Rattle.settings.specs.Settings.{is_trace};
ghost use Rattle.deciding.specs.Deciding.{mean_expected};
ghost use Rattle.deciding.specs.Ready.{looped};

use acceptance::AcceptanceModel;
use asking::Ask;
use settings::Settings;

// What n sequences are expected to accept at the depths 0 to gamma, at the front of `out`.
fn expect(
    model: AcceptanceModel,
    positions: &[f64],
    bank_curve: &[f64],
    depth: u32,
    n: u32,
    gamma: u32,
    out: &mut [f64],
)
    requires gamma_bound { (gamma ≤ 64) × (gamma < length out.old) }
    requires gamma_in_bounds { is_trace model ≡ true → gamma < length bank_curve.now }
    ensures { out.new ≡ over (mean_expected model positions.now bank_curve.now depth n gamma) out.old }
{
    match model {
        AcceptanceModel::Constant(_) => budgets::model_values(model, positions, gamma, n, out),
        AcceptanceModel::PerPosition => budgets::model_values(model, positions, gamma, n, out),
        AcceptanceModel::Trace => budgets::bank_values(bank_curve, depth, gamma, n, out),
    }
}

// The best depth of these values.
pub fn mean_depth(
    settings: Settings,
    ask: Ask,
    gamma: u32,
    positions: &[f64],
    loaded: &[f64],
    bank_curve: &[f64],
    curve: &[f64],
) -> u32
    requires gamma_bound { (gamma ≤ 64) × (length curve.now ≡ gamma + 1) }
    requires gamma_in_bounds { is_trace settings.model ≡ true → gamma < length bank_curve.now }
    ensures { result ≡ looped settings ask loaded.now (mean_expected settings.model positions.now bank_curve.now ask.depth ask.sequences gamma) curve.now }
{
    let model = settings.model;
    let drafter = settings.drafter;
    let rates = ask.rates;
    let n = ask.sequences;
    let count = curve.len();
    let mut expected = [0.0; 65];
    expect(
        model,
        positions,
        bank_curve,
        ask.depth,
        n,
        gamma,
        &mut expected,
    );
    let experts = speculative::inner::loaded_at(drafter, loaded, n as usize);
    depths::inner::depth_over(&expected[..count], curve, n, drafter, rates, experts)
}
