// What plans are lent, as the words of a case set it: registers for the settings and the costs, and eleven lists in two rooms. Each stays as
// it is until it is set anew.
#![tactic(auto)]

pub mod lists;
pub mod registers;
pub mod settles;

// Whether a turn of a letter sets something: `r` sets registers and `l` a list.
pub fn is_setting(letter: u8) -> bool {
    matches!(letter, b'r' | b'l')
}

// Sets what the letter says.
pub fn set(letter: u8, call: &[u64], set: &mut [u64], floats: &mut [f64], wholes: &mut [u32]) {
    if letter == b'r' {
        registers::set(call, set);
    } else {
        lists::set(call, set, floats, wholes);
    }
}
