// The exports of `latchmeander` for C: each calls the function of its name there, and says the same of it.
#![tactic(auto)]

mod arriving;
mod files;
mod library;
mod plans;
mod storage;
