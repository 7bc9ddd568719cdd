// The marks of a day's plans, in a ring of words: one for each plan that stands. Which worker made it, in which second, and how that worker's
// clock stands. For the calls of `day_clock`, which see to it that the ring has its words.
#![tactic(auto)]

pub mod ring;
pub mod walks;
