// Switching across the C boundary, for runs that call every entry point from outside. No host links it. A record crosses as its width, its rounds
// and its stall; the settings as the cooldown, the number of the step's case with the most candidates, and the cost of a change.
#![tactic(auto)]

pub mod answers;
pub mod asked;
pub mod decisions;
pub mod widths;
