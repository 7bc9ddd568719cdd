// What is answered for a row: its second with the drafts, the sequences, the committed and the steps added up in it.
#[derive(Clone, Copy)]
pub struct Sums {
    pub second: u64,
    pub drafts: u64,
    pub sequences: u64,
    pub committed: u64,
    pub steps: u64,
}
