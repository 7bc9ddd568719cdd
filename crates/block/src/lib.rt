// The block gate once the batch's depth is known. It has no entry points: what it does leans on its caller.
#![tactic(auto)]

pub mod inner;
mod weighing;
