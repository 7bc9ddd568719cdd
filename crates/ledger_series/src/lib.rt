// The seconds' means, for the series and the day figure.
#![tactic(auto)]

// One second: its mean draft by sequence, its mean batch by step, and its mean committed by sequence.
#[derive(Clone, Copy)]
pub struct DepthSample {
    pub second: u64,
    pub mean_draft: f64,
    pub mean_decode_batch: f64,
    pub mean_committed: f64,
}

pub mod inner;
