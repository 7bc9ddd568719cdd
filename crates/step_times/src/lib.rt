// The seconds of a step at a depth, between depths, and the prices of all depths, in a table that was judged.
#![tactic(auto)]

mod frac;
pub mod inner;
mod prices;
