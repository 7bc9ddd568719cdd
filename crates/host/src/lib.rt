// What crosses the C boundary: records of plain numbers, an enum by the number of its case; and what they stand for; and which library this is.
#![tactic(auto)]

pub mod answers;
pub mod asked;
pub mod library;
