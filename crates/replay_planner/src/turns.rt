// A case is a run of turns, each of one word that has the number of its words and its letter, 256 times the one and the other, and of those
// words. `r` sets registers and `l` a list; the others are calls. Answered are the number of plans and of those refused, and what each
// call answers, one behind the other.
ghost use Rattle.std.specs.Prelude.{◌≤◌, length};

use cases::{answers, words};
use planner_calls::plans::WHOLE;

// Plays a case on a whole storage.
pub fn play(input: &[u64], floats: &mut [f64], wholes: &mut [u32], ours: &mut [u64]) -> usize
    ensures { result ≤ length ours.new }
{
    let mut storage = [0xDEAD_BEEFu64; WHOLE];
    let mut set = [0u64; 33];
    let at = answers::two(ours, 0, 0);
    play_from(input, at, &mut set, floats, wholes, &mut storage, ours)
}

fn play_from(
    input: &[u64],
    start: usize,
    set: &mut [u64],
    floats: &mut [f64],
    wholes: &mut [u32],
    storage: &mut [u64],
    ours: &mut [u64],
) -> usize
    requires { start ≤ length ours.old }
    ensures { result ≤ length ours.new }
{
    let mut rest = input;
    let mut at = start;
    // no index is counted: each turn takes as many words as its first says
    while !rest.is_empty() {
        let size = size(rest);
        at = turn(&rest[0..size], set, floats, wholes, storage, ours, at);
        rest = &rest[size..];
    }
    at
}

// How many words the first turn has, its first included, and at most those that are left.
fn size(rest: &[u64]) -> usize
    requires { 1 ≤ length rest.now }
    ensures { (1 ≤ result) × (result ≤ length rest.now) }
{
    let words = (words::at(rest, 0) / 256) as usize;
    if rest.len() <= words {
        rest.len()
    } else {
        words + 1
    }
}

// Sets what the letter says, or makes its call.
fn turn(
    call: &[u64],
    set: &mut [u64],
    floats: &mut [f64],
    wholes: &mut [u32],
    storage: &mut [u64],
    ours: &mut [u64],
    at: usize,
) -> usize
    requires { at ≤ length ours.old }
    ensures { result ≤ length ours.new }
{
    let letter = (words::at(call, 0) % 256) as u8;
    if plan_lent::is_setting(letter) {
        plan_lent::set(letter, call, set, floats, wholes);
        return at;
    }
    planner_calls::make(letter, call, set, floats, wholes, storage, ours, at)
}
