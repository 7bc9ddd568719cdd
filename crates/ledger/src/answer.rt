// What is answered of a worker, and what is asked for it.

// A worker's record, its stall by its bits.
#[derive(Clone, Copy)]
pub struct Held {
    pub width: u64,
    pub rounds: u64,
    pub stall: u64,
}

// What a plan makes of a worker's record: nothing, or the record that the decision gave.
#[derive(Clone, Copy)]
pub enum Decision {
    Nothing,
    Put {
        a: u64,
        b: u64,
        width: u64,
        rounds: u64,
        stall: u64,
    },
}
