// The workers held, ascending by their two numbers, each with its record: for the calls of `ledger`, which keep the storage long enough.
#![tactic(auto)]

pub mod inner;
