// What the replays share: the lines of a case file, the words and lists in them, the answers, and the tally.
#![tactic(auto)]

pub mod answers;
pub mod line;
pub mod lists;
pub mod sums;
pub mod tally;
pub mod words;
