// The seconds held, ascending, each with its sums: for the calls of `ledger`, which keep the storage long enough.
#![tactic(auto)]

pub mod inner;
