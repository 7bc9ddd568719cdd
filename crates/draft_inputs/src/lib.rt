// What a draft is asked with: its counts, its widths, and the experts that are loaded.
#![tactic(auto)]

pub mod inner;

// The most drafts.
pub const MOST_GAMMA: u32 = 64;

// The most experts, and the longest block.
pub const MOST_COUNT: u32 = 1000000;
