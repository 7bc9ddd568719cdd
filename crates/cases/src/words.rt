// Words: what a case lends and what it answers, each of sixteen hexadecimal digits in the file and a u64 in a room.
ghost use Rattle.std.specs.Prelude.{◌<◌, ◌≤◌, length};

// What a word stands for: itself, a whole number, of which 32 bits count, or a float, of which it is the bits.
pub trait Word: Copy {
    fn of_word(word: u64) -> Self;

    fn word(self) -> u64;
}

impl Word for u64 {
    fn of_word(word: u64) -> Self {
        word
    }

    fn word(self) -> u64 {
        self
    }
}

impl Word for u32 {
    fn of_word(word: u64) -> Self {
        (word % 4294967296) as u32
    }

    fn word(self) -> u64 {
        self as u64
    }
}

impl Word for f64 {
    fn of_word(word: u64) -> Self {
        float::of_bits(word)
    }

    fn word(self) -> u64 {
        float::bits(self)
    }
}

// Bytes of a word and of the space before it.
const WORD: usize = 17;

// Puts the words of a text, each behind a space, at the front of the room, and answers how many. What is past the room is left out.
pub fn of_text(text: &[u8], out: &mut [u64]) -> usize
    ensures { result ≤ length out.new }
{
    let mut rest = text;
    for k in 0..out.len() {
        if rest.len() < WORD {
            return k;
        }
        out[k] = value(&rest[1..WORD]);
        rest = &rest[WORD..];
    }
    out.len()
}

// The number that hexadecimal digits spell, of which the last sixteen count.
pub fn value(digits: &[u8]) -> u64 {
    let mut value = 0u64;
    for digit in digits {
        value = value % 0x1000_0000_0000_0000 * 16 + hex_digit(*digit);
    }
    value
}

fn hex_digit(b: u8) -> u64
    ensures { result < 16 }
{
    if b < 97 {
        return (b % 16) as u64;
    }
    ((b - 87) % 16) as u64
}

// Whether two lists of words are the same.
pub fn same(ours: &[u64], theirs: &[u64]) -> bool {
    ours == theirs
}

// The word at a place; past the end 0.
pub fn at(words: &[u64], place: usize) -> u64 {
    words.get(place).copied().unwrap_or(0)
}

// The whole number at a place, of which 32 bits count.
pub fn whole_at(words: &[u64], place: usize) -> u32 {
    u32::of_word(at(words, place))
}

// The float whose bits stand at a place.
pub fn float_at(words: &[u64], place: usize) -> f64 {
    f64::of_word(at(words, place))
}

// The number at a place, and at most `most`.
pub fn least_at(words: &[u64], place: usize, most: usize) -> usize
    ensures { result ≤ most }
{
    (at(words, place) as usize).min(most)
}
