// The exports of `exported_costs` for C: each calls the function of its name there, and says the same of it.
#![tactic(auto)]

mod drafts;
mod lookups;
mod models;
