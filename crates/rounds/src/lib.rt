// The rounds that a batch draws: each sequence's commits, the draws that they use, and their signals as survival chains. All of
// it is for callers that have judged the settings and the sizes.
#![tactic(auto)]

pub mod batch;
pub mod drawing;
mod signals;
