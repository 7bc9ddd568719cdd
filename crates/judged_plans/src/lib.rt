// Plans whose settings and inputs are judged, for the calls of `planner`.
#![tactic(auto)]

pub mod inner;

// A plan with the draws used and the slots weighed; a plan of no sequences; or the number of the refusal.
#[derive(Clone, Copy)]
pub enum Planned {
    Plan { used: usize, weighed: usize },
    Empty,
    Refused(u64),
}
