// The words of a batch are a drafter, three rates, gamma, the slots that are lent for what is written, the chains, and three lists: the
// chains' lengths, the curve and the loaded experts. The chains are the slots that are lent, how many slots of each chain are given, and a
// list of rows of so many. The chains take the rows in turn, from the first again behind the last; what no row says is a NaN.
ghost use Rattle.std.specs.Prelude.{◌≤◌, length};

use cases::{lists, words};
use std::num::wrapping_add_u64;

// Where the slots that are lent stand, where those that are given, the rows' list, and its first word.
const SLOTS: usize = 11;

const GIVEN: usize = 12;

const ROWS: usize = 13;

const FIRST: u64 = 14;

// The bits of a NaN.
const NAN: u64 = 0x7FF8_0000_0000_0000;

// Where the list of the chains' lengths stands.
pub fn lengths_at(input: &[u64]) -> usize
    ensures { result ≤ length input.now }
{
    lists::behind(input, ROWS, words::least_at(input, ROWS, input.len()))
}

// Puts the chains' slots at the front of the room, and answers how many.
pub fn fill(input: &[u64], chains: &mut [f64]) -> usize
    ensures { result ≤ length chains.new }
{
    let count = words::least_at(input, SLOTS, chains.len());
    let mut taken = 0u64;
    for k in 0..count {
        chains[k] = float::of_bits(slot(input, k, taken));
        taken = further(input, k, taken);
    }
    count
}

// Whether the rows say what a slot of the chains holds.
fn is_given(input: &[u64], k: usize) -> bool {
    words::at(input, ROWS) != 0 && ((k % 64) as u64) < words::at(input, GIVEN)
}

// The bits of a slot of the chains: those of the rows behind as many as were taken, or a NaN.
fn slot(input: &[u64], k: usize, taken: u64) -> u64 {
    if is_given(input, k) {
        return words::at(input, wrapping_add_u64(FIRST, taken) as usize);
    }
    NAN
}

// How many are taken behind a slot; none again behind the last.
fn further(input: &[u64], k: usize, taken: u64) -> u64 {
    if !is_given(input, k) {
        return taken;
    }
    let next = wrapping_add_u64(taken, 1);
    if next < words::at(input, ROWS) {
        next
    } else {
        0
    }
}
