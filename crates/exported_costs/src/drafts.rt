// What producing the drafts costs. A drafter crosses as the number of its kind, its two sizes and its three counts; rates as three floats.
ghost use Rattle.std.specs.Prelude.{◌≡◌};
ghost use Rattle.speculative.specs.Drafter.{absent, is_block, drafter_refusal, rates_refusal, draft_seconds, draft_pass, draft_ragged};
ghost use Rattle.exported_costs.specs.Asked.{drafter_of, rates_of};
ghost use Rattle.exported_costs.specs.Answers.{float_told, drafter_told};

use crate::{answers, asked};
use exported::Told;
use speculative::drafter;

// `first` is the number of its kind, and `second` its first size.
pub fn speculative_no_drafter() -> Told
    ensures { result ≡ drafter_told absent }
{
    let none = drafter::no_drafter();
    answers::of_drafter(none)
}

// Whether the head drafts one block for all sequences.
pub fn speculative_is_block(kind: u32, p: f64, q: f64, x: u32, y: u32, z: u32) -> bool
    ensures { result ≡ is_block (drafter_of kind p q x y z) }
{
    let head = asked::drafter_of(kind, p, q, x, y, z);
    drafter::is_block(head)
}

// The number of the refusal, 0 for none.
pub fn speculative_drafter_refusal(kind: u32, p: f64, q: f64, x: u32, y: u32, z: u32) -> u64
    ensures { result ≡ drafter_refusal (drafter_of kind p q x y z) }
{
    let head = asked::drafter_of(kind, p, q, x, y, z);
    refusals::number_in(drafter::judge_drafter(head))
}

// The number of the refusal, 0 for none.
pub fn speculative_rates_refusal(peak: f64, bw: f64, kv_delta: f64) -> u64
    ensures { result ≡ rates_refusal (rates_of peak bw kv_delta) }
{
    let rates = asked::rates_of(peak, bw, kv_delta);
    refusals::number_in(drafter::judge_rates(rates))
}

// `first` is the seconds.
pub fn speculative_seconds(
    kind: u32,
    p: f64,
    q: f64,
    x: u32,
    y: u32,
    z: u32,
    gamma: u32,
    batch: u32,
    peak: f64,
    bw: f64,
    kv_delta: f64,
    verify_c: f64,
    loaded: &[f64],
) -> Told
    ensures { result ≡ float_told (draft_seconds (drafter_of kind p q x y z) gamma batch (rates_of peak bw kv_delta) verify_c loaded.now) }
{
    let head = asked::drafter_of(kind, p, q, x, y, z);
    let rates = asked::rates_of(peak, bw, kv_delta);
    let answer = drafter::seconds(head, gamma, batch, rates, verify_c, loaded);
    answers::of_float(answer)
}

// `first` is the seconds.
pub fn speculative_pass_seconds(
    kind: u32,
    p: f64,
    q: f64,
    x: u32,
    y: u32,
    z: u32,
    batch: u32,
    peak: f64,
    bw: f64,
    kv_delta: f64,
    loaded: &[f64],
) -> Told
    ensures { result ≡ float_told (draft_pass (drafter_of kind p q x y z) batch (rates_of peak bw kv_delta) loaded.now) }
{
    let head = asked::drafter_of(kind, p, q, x, y, z);
    let rates = asked::rates_of(peak, bw, kv_delta);
    let answer = drafter::pass_seconds(head, batch, rates, loaded);
    answers::of_float(answer)
}

// `first` is the seconds.
pub fn speculative_ragged_seconds(
    kind: u32,
    p: f64,
    q: f64,
    x: u32,
    y: u32,
    z: u32,
    widths: &[u32],
    peak: f64,
    bw: f64,
    kv_delta: f64,
    verify_c: f64,
    loaded: &[f64],
) -> Told
    ensures { result ≡ float_told (draft_ragged (drafter_of kind p q x y z) widths.now (rates_of peak bw kv_delta) verify_c loaded.now) }
{
    let head = asked::drafter_of(kind, p, q, x, y, z);
    let rates = asked::rates_of(peak, bw, kv_delta);
    let answer = drafter::ragged_seconds(head, widths, rates, verify_c, loaded);
    answers::of_float(answer)
}
