// The words of an answer, put into a room one behind the other. Each function answers where the next one goes; what is past the room is
// left out, and the answer is then the room's end.
ghost use Rattle.std.specs.Prelude.{◌≤◌, length};

use crate::words::Word;

pub fn put(out: &mut [u64], at: usize, word: u64) -> usize
    ensures { result ≤ length out.new }
{
    if out.len() <= at {
        return out.len();
    }
    out[at] = word;
    at + 1
}

pub fn put_float(out: &mut [u64], at: usize, value: f64) -> usize
    ensures { result ≤ length out.new }
{
    put(out, at, value.word())
}

// The words of a list, without its length.
pub fn put_list<T: Word>(out: &mut [u64], at: usize, list: &[T]) -> usize
    ensures { result ≤ length out.new }
{
    let mut next = at.min(out.len());
    for value in list {
        next = put(out, next, value.word());
    }
    next
}

pub fn put_whole_numbers(out: &mut [u64], at: usize, list: &[u32]) -> usize
    ensures { result ≤ length out.new }
{
    put_list(out, at, list)
}

pub fn put_floats(out: &mut [u64], at: usize, list: &[f64]) -> usize
    ensures { result ≤ length out.new }
{
    put_list(out, at, list)
}

// A refusal's number alone, or 0 and a value, and so on: each puts the answer from the room's front on.
pub fn one(out: &mut [u64], first: u64) -> usize
    ensures { result ≤ length out.new }
{
    put(out, 0, first)
}

pub fn two(out: &mut [u64], first: u64, second: u64) -> usize
    ensures { result ≤ length out.new }
{
    put_list(out, 0, &[first, second])
}

pub fn three(out: &mut [u64], first: u64, second: u64, third: u64) -> usize
    ensures { result ≤ length out.new }
{
    put_list(out, 0, &[first, second, third])
}

pub fn four(out: &mut [u64], first: u64, second: u64, third: u64, fourth: u64) -> usize
    ensures { result ≤ length out.new }
{
    put_list(out, 0, &[first, second, third, fourth])
}
