// The two gates.
ghost use Rattle.std.specs.Prelude.{◌≡◌};
ghost use Rattle.gates.specs.Entry.{ragged_answer, block_answer};
ghost use Rattle.exported_costs.specs.Asked.{drafter_of, rates_of};
ghost use Rattle.verify_prices.specs.Rule.{mode_of};
ghost use Rattle.exported_batches.specs.Answers.{widths_left};

use crate::answers;
use exported::Told;
use exported_costs::asked;
use verify_prices::inner::mode_of;

// `first` is how many slots were weighed; the widths stand at the front of `widths`.
#[unsafe(no_mangle)]
pub extern "C" fn gates_ragged(
    chains: &[f64],
    lengths: &[u32],
    curve: &[f64],
    gamma: u32,
    mode: u32,
    kind: u32,
    p: f64,
    q: f64,
    x: u32,
    y: u32,
    z: u32,
    peak: f64,
    bw: f64,
    kv_delta: f64,
    loaded: &[f64],
    widths: &mut [u32],
) -> Told
    ensures { (result, widths.new) ≡ widths_left (ragged_answer chains.now lengths.now curve.now gamma (drafter_of kind p q x y z) (rates_of peak bw kv_delta) loaded.now (mode_of mode) widths.old) }
{
    let head = asked::drafter_of(kind, p, q, x, y, z);
    let rates = asked::rates_of(peak, bw, kv_delta);
    let prices = mode_of(mode);
    let answer = gates::gated_ragged_draft(
        chains, lengths, curve, gamma, prices, head, rates, loaded, widths,
    );
    answers::of_gated(answer)
}

// `first` is how many slots were weighed; the widths stand at the front of `widths`.
#[unsafe(no_mangle)]
pub extern "C" fn gates_block(
    chains: &[f64],
    lengths: &[u32],
    curve: &[f64],
    gamma: u32,
    mode: u32,
    kind: u32,
    p: f64,
    q: f64,
    x: u32,
    y: u32,
    z: u32,
    peak: f64,
    bw: f64,
    kv_delta: f64,
    loaded: &[f64],
    widths: &mut [u32],
) -> Told
    ensures { (result, widths.new) ≡ widths_left (block_answer chains.now lengths.now curve.now gamma (drafter_of kind p q x y z) (rates_of peak bw kv_delta) loaded.now (mode_of mode) widths.old) }
{
    let head = asked::drafter_of(kind, p, q, x, y, z);
    let rates = asked::rates_of(peak, bw, kv_delta);
    let prices = mode_of(mode);
    let answer = gates::gated_block_verify(
        chains, lengths, curve, gamma, prices, head, rates, loaded, widths,
    );
    answers::of_gated(answer)
}
