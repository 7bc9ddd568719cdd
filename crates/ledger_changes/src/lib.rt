// The newest changes, each with what it takes to take it back: for the calls of `ledger`, which keep the storage long enough.
#![tactic(auto)]

pub mod inner;
