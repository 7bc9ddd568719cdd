// The verify price between depths, in both modes. It has no entry points: what it does leans on its caller.
#![tactic(auto)]

pub mod bridging;
pub mod inner;
mod widths;

// How a price between depths is worked out.
#[derive(Clone, Copy)]
pub enum PriceMode {
    // from the two depths around it, measured or not: the Rust's
    Default,
    // from the nearest measured depths
    Bridged,
}
