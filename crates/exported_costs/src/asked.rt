// What plain numbers stand for. A number that stands for no case is taken for the last one.
ghost use Rattle.std.specs.Prelude.{◌≡◌};
ghost use Rattle.exported_costs.specs.Asked.{model_of, drafter_of, rates_of};

use acceptance::AcceptanceModel;
use speculative::drafter::{DrafterCost, Rates};

// 0 a constant, 1 a list of positions, 2 a trace.
#[tactic(auto, unfolding(crate::specs::Asked::model_of))]
pub fn model_of(model: u32, alpha: f64) -> AcceptanceModel
    ensures { result ≡ model_of model alpha }
{
    match model {
        0 => AcceptanceModel::Constant(alpha),
        1 => AcceptanceModel::PerPosition,
        _ => AcceptanceModel::Trace,
    }
}

// 0 a fraction, 1 an autoregressive head, 2 a block head: its sizes `p` and `q`, its counts `x`, `y` and `z`.
#[tactic(auto, unfolding(crate::specs::Asked::drafter_of))]
pub fn drafter_of(kind: u32, p: f64, q: f64, x: u32, y: u32, z: u32) -> DrafterCost
    ensures { result ≡ drafter_of kind p q x y z }
{
    match kind {
        0 => DrafterCost::Fraction { frac: p },
        1 => DrafterCost::Autoregressive {
            dense_params: p,
            expert_params: q,
            num_experts: x,
            experts_per_tok: y,
            shared_experts: z,
        },
        _ => DrafterCost::BlockParallel {
            params: p,
            block: x,
        },
    }
}

#[tactic(auto, unfolding(crate::specs::Asked::rates_of))]
pub fn rates_of(peak: f64, bw: f64, kv_delta: f64) -> Rates
    ensures { result ≡ rates_of peak bw kv_delta }
{
    Rates { peak, bw, kv_delta }
}
