// What plans are made of, among the words of a case: drafters, rates and survival chains.
#![tactic(auto)]

pub mod drafters;
pub mod lent_chains;
