// The buffers that reading a trace bank fills.
#![tactic(auto)]

pub mod inner;
