// How long until a worker's width settles, as theorems about the definitions of switching and of the planner: it has no function of its own.
#![tactic(auto)]
