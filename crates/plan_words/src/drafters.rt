// A drafter is six words: its kind (0 Fraction, 1 Autoregressive, 2 BlockParallel), two floats, three counts, 0 for what a kind lacks; the
// first count of BlockParallel is its block. Rates are three words: peak, bw and kv_delta.
use cases::words;
use speculative::drafter::{DrafterCost, Rates};

// The drafter whose words come first.
pub fn drafter_of(input: &[u64]) -> DrafterCost {
    match words::at(input, 0) {
        0 => DrafterCost::Fraction {
            frac: words::float_at(input, 1),
        },
        1 => DrafterCost::Autoregressive {
            dense_params: words::float_at(input, 1),
            expert_params: words::float_at(input, 2),
            num_experts: words::whole_at(input, 3),
            experts_per_tok: words::whole_at(input, 4),
            shared_experts: words::whole_at(input, 5),
        },
        _ => DrafterCost::BlockParallel {
            params: words::float_at(input, 1),
            block: words::whole_at(input, 3),
        },
    }
}

// The rates whose words stand at three places.
pub fn rates_at(input: &[u64], peak: usize, bw: usize, kv_delta: usize) -> Rates {
    Rates {
        peak: words::float_at(input, peak),
        bw: words::float_at(input, bw),
        kv_delta: words::float_at(input, kv_delta),
    }
}
