// The row of a depth that is nearest to a batch, in a table that was judged.
#![tactic(auto)]

pub mod inner;

// The row nearest to a batch: its batch and its seconds.
#[derive(Clone, Copy)]
pub struct Nearest {
    pub batch: u32,
    pub seconds: f64,
}
