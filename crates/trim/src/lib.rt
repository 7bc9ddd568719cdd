// The ragged gate's weighing, from widths that the whole draft has. It has no entry points: what it does leans on its caller.
#![tactic(auto)]

pub mod inner;
mod left;
