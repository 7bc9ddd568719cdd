// What a batch is weighed by, and the two gates, across the C boundary, for runs that call every entry point from outside. No host links it.
#![tactic(auto)]

pub mod answers;
pub mod best_depths;
pub mod chances;
pub mod gated;
