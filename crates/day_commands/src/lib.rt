// What a line of a day file does: what `day_turns` has, and the planner's calls with what is told of each.
#![tactic(auto)]

mod acts;
mod asked;
pub mod commands;
