// What the ledger answers, as the words of a case: outcomes, and the calls that change nothing.
#![tactic(auto)]

pub mod outcome;
pub mod reads;
