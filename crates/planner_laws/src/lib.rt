// What the planner is relied on for, as theorems about its definitions: it has no function of its own.
#![tactic(auto)]
