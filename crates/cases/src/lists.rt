// Lists and texts among the words of a case. A list is its length and then its words; a text is its length in bytes, and then they, eight
// to a word, the first the highest.
ghost use Rattle.std.specs.Prelude.{◌≤◌, length};

use crate::words::{Word, at, least_at};

// Where the words behind a list stand that starts at a place and has so many.
pub fn behind(words: &[u64], place: usize, count: usize) -> usize
    ensures { result ≤ length words.now }
{
    if words.len() <= place {
        return words.len();
    }
    if words.len() - place <= count {
        return words.len();
    }
    place + count + 1
}

// Puts the list of whole numbers at a place at the front of the room, and answers how many. What is past the room is left out.
pub fn whole_numbers(words: &[u64], place: usize, out: &mut [u32]) -> usize
    ensures { result ≤ length out.new }
{
    list(words, place, out)
}

// The same with the floats whose bits the words are.
pub fn floats(words: &[u64], place: usize, out: &mut [f64]) -> usize
    ensures { result ≤ length out.new }
{
    list(words, place, out)
}

// The same with whatever the words stand for.
pub fn list<T: Word>(words: &[u64], place: usize, out: &mut [T]) -> usize
    ensures { result ≤ length out.new }
{
    if words.len() <= place {
        return 0;
    }
    first_list(&words[place..], out)
}

fn first_list<T: Word>(words: &[u64], out: &mut [T]) -> usize
    ensures { result ≤ length out.new }
{
    let count = least_at(words, 0, out.len());
    for k in 0..count {
        out[k] = T::of_word(at(words, k + 1));
    }
    count
}

// The same with the bytes of a text.
pub fn text(words: &[u64], place: usize, out: &mut [u8]) -> usize
    ensures { result ≤ length out.new }
{
    if words.len() <= place {
        return 0;
    }
    first_text(&words[place..], out)
}

fn first_text(words: &[u64], out: &mut [u8]) -> usize
    ensures { result ≤ length out.new }
{
    let count = least_at(words, 0, out.len());
    for k in 0..count {
        out[k] = at(words, k / 8 + 1).to_be_bytes()[k % 8];
    }
    count
}
