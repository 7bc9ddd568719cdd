// What a worker's clock shows at a plan, read off the marks of the plans that stand. For the calls of `day_clock`, which see to it that the ring
// has its words.
#![tactic(auto)]

pub mod shows;
pub mod stands;
