// What a text says of a trace bank: its size, or the first refusal.
#![tactic(auto)]

pub mod inner;

// The sizes of a bank.
pub const MOST_COLUMNS: usize = 128;

pub const MOST_DEPTH: usize = 64;

pub const MOST_ROUNDS: usize = 65536;

// The size of a bank that was read.
#[derive(Clone, Copy)]
pub struct BankSize {
    pub depth: u32,
    pub rounds: u32,
}
