// Numbers in text and floats across the C boundary: the entry points of `numeral`, `decimals` and `float`, for runs that call them from outside.
#![tactic(auto)]

pub mod floats;
pub mod numbers;
