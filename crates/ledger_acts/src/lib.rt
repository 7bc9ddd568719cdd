// Plans and collections on a storage that is long enough: for the calls of `ledger`.
#![tactic(auto)]

pub mod inner;
