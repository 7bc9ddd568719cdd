// A line of a cost table: nothing, a row, or what is wrong with it.
#![tactic(auto)]

pub mod line;
