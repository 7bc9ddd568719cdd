// Lists of numbers in a day file's line: judged and read field by field, in one walk each. For `day_lists`, which hands over the list.
#![tactic(auto)]

pub mod inner;

use refusals::Refusal;

// The first field of a list that is no such number, and why.
#[derive(Clone, Copy)]
pub struct WrongNumber {
    pub field: u64,
    pub refusal: Refusal,
}
