// The sizes and the rooms of what a plan is asked with, for `asking`, which judges the values behind them.
#![tactic(auto)]

pub mod rooms;
pub mod sizes;

use goodput::curve::Source;
use speculative::drafter::Rates;

// What a plan is asked for beside the settings: whose it is, over how many sequences, when its step ends, the rates, where the
// prices come from, the rows of the table, and the depth and the rounds of the bank.
#[derive(Clone, Copy)]
pub struct Ask {
    pub a: u64,
    pub b: u64,
    pub sequences: u32,
    pub end: f64,
    pub rates: Rates,
    pub source: Source,
    pub rows: usize,
    pub depth: u32,
    pub rounds: u32,
}

// How long each list is that a plan may be refused for.
#[derive(Clone, Copy)]
pub struct Lengths {
    pub storage: usize,
    pub drafts: usize,
    pub commits: usize,
    pub roofline: usize,
    pub depths: usize,
    pub batches: usize,
    pub seconds: usize,
    pub loaded: usize,
    pub bank_commits: usize,
    pub signals: usize,
    pub bank_curve: usize,
}
