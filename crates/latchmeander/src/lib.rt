// The library that a host links: the planner's calls across the C boundary. `include/latchmeander.h` declares them.
// Structs cross by value, a slice as its address and its length, and nothing is kept after a call but what the host lent.
#![tactic(auto)]

pub mod arriving;
pub mod files;
pub mod library;
pub mod plans;
pub mod storage;
