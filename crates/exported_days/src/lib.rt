// Day files across the C boundary: the entry points of the `day_` crates and of `ledger_sums`, for runs that call them from outside.
#![tactic(auto)]

pub mod kept;
pub mod lines;
pub mod lists;
pub mod named;
