// The planner's calls, made with the words of a case: one plan, many plans, how long a width takes to settle, and all others.
#![tactic(auto)]

pub mod held;
pub mod many;
pub mod plans;
pub mod settles;

ghost use Rattle.std.specs.Prelude.{◌≤◌, length};

// Makes the call of a letter: `p` is a plan, `m` are many, `s` asks how long a width takes to settle.
pub fn make(
    letter: u8,
    call: &[u64],
    set: &[u64],
    floats: &[f64],
    wholes: &[u32],
    storage: &mut [u64],
    ours: &mut [u64],
    at: usize,
) -> usize
    ensures { result ≤ length ours.new }
{
    if letter == b'p' {
        return plans::one(call, set, floats, wholes, storage, ours, at);
    }
    if letter == b'm' {
        return many::plans(call, set, floats, wholes, storage, ours, at);
    }
    if letter == b's' {
        return settles::one(call, set, floats, wholes, ours, at);
    }
    held::make(letter, call, storage, ours, at)
}
