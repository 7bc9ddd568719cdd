// What a line of a day file does without a plan: the settings, the lists and files that plans are lent, and what is told of what is held.
#![tactic(auto)]

pub mod files;
pub mod lent;
pub mod listed;
pub mod setup;
pub mod told;
pub mod turns;
pub mod values;
