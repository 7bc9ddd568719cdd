// What producing the drafts costs: the three kinds of drafter, their rates, and the seconds of a draft.
#![tactic(auto)]

pub mod drafter;
pub mod inner;
