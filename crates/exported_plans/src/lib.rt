// The ledger's judges, a plan that is counted, and what settings and inputs are refused for, across the C boundary, for runs that call every entry
// point from outside. No host links it; what else there is of plans `latchmeander` exports.
#![tactic(auto)]

pub mod inputs;
pub mod kept;
