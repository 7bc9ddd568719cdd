// What a plan is weighed by: survival chains, the price curve in force, the expected acceptance and the cost of each depth,
// and the depth of the best goodput.
#![tactic(auto)]

pub mod curve;
pub mod depth;
pub mod expected;
pub mod pricing;
pub mod survival;
