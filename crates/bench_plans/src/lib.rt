// What bench/ calls across the C boundary of a plan and its parts: each answer as one plain number, which crosses alike on every machine.
#![tactic(auto)]

pub mod batches;
pub mod kept;
pub mod ways;
pub mod whole;
