// The cost lookups, the acceptance models and the drafters across the C boundary, for runs that call every entry point from outside. No host links it.
#![tactic(auto)]

pub mod answers;
pub mod asked;
pub mod drafts;
pub mod lookups;
pub mod models;
