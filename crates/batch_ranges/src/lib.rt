// Whether a depth is measured, and between which batches, in a table that was judged.
#![tactic(auto)]

pub mod inner;
mod range;

// The first and the last batch that a depth is measured at.
#[derive(Clone, Copy)]
pub struct BatchRange {
    pub low: u32,
    pub high: u32,
}
