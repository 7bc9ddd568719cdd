// Two sums over words: of the words, and of the sums up to each word, which tells their places apart.
use crate::words::Word;

#[derive(Clone, Copy)]
pub struct Sums {
    pub first: u64,
    pub second: u64,
}

impl Sums {
    pub fn new() -> Self {
        Sums {
            first: 0,
            second: 0,
        }
    }

    pub fn and(self, word: u64) -> Self {
        let first = self.first.wrapping_add(word);
        let second = self.second.wrapping_add(first);
        Sums { first, second }
    }

    pub fn and_words(self, words: &[u64]) -> Self {
        self.and_list(words)
    }

    pub fn and_floats(self, words: &[f64]) -> Self {
        self.and_list(words)
    }

    // Every word of a list, one after the other.
    pub fn and_list<T: Word>(self, list: &[T]) -> Self {
        let mut sums = self;
        for value in list {
            sums = sums.and(value.word());
        }
        sums
    }
}
