// The steps of a plan behind its draws, for a caller that has judged what comes before each: what is left to refuse is refused, and
// only then is anything decided and written.
#![tactic(auto)]

pub mod acting;
pub mod judging;
mod pricing;
mod uses;
