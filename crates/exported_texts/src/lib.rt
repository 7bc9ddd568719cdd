// Bytes, lines and fields across the C boundary: the entry points of `blocks`, `text`, `trimming` and `reader`, for runs that call them from outside.
#![tactic(auto)]

pub mod finding;
pub mod parting;
pub mod reading;
