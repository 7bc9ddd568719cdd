// Lines and fields of a lent text. Each function looks at the front of what it is lent: a caller hands it the rest of its text.
#![tactic(auto)]

pub mod inner;

ghost use Rattle.std.specs.Prelude.{◌≡◌, ◌-◌, [], length, get_or};
ghost use Rattle.blocks.specs.Blocks.{find};
ghost use Rattle.text.specs.Lines.{starts_with, first_line, after_line};
ghost use Rattle.text.specs.Fields.{fields, same_text};

use blocks::near;

// Where the first line of a text stops, and where the next one starts.
#[derive(Clone, Copy)]
pub struct Line {
    pub stop: usize,
    pub next: usize,
}

// The first line is `&s[..stop]`, and the lines after it are those of `&s[next..]`. A CR directly before the LF is no part of the line.
pub fn first_line(s: &[u8]) -> Line
    ensures stop { result.stop ≡ length (first_line s.now) }
    ensures next { result.next ≡ length s.now - length (after_line s.now) }
{
    line_to(s, blocks::find(s, b'\n'))
}

// The first line of a text whose first LF stands at `feed`, or that has none and ends there.
fn line_to(s: &[u8], feed: usize) -> Line
    requires { feed ≡ find 10 s.now }
    ensures stop { result.stop ≡ length (first_line s.now) }
    ensures next { result.next ≡ length s.now - length (after_line s.now) }
{
    if feed < s.len() {
        if 0 < feed {
            let last = feed - 1;
            if s[last] == b'\r' {
                return Line {
                    stop: last,
                    next: feed + 1,
                };
            }
        }
        return Line {
            stop: feed,
            next: feed + 1,
        };
    }
    Line {
        stop: feed,
        next: feed,
    }
}

// How many fields a line has: one more than it has commas.
pub fn field_count(s: &[u8]) -> usize
    ensures { result ≡ length (fields s.now) }
{
    blocks::count(s, b',') + 1
}

// The field at a place of a line, counted from 0; an empty one where the line has fewer.
pub fn field(s: &[u8], place: usize) -> &[u8]
    ensures { result.now ≡ get_or (fields s.now) place [] }
{
    let mut rest = s;
    let mut left = place;
    // no index is counted: each turn takes the rest behind a comma
    loop {
        let comma = near::find(rest, b',');
        if left == 0 {
            return &rest[..comma];
        }
        if rest.len() <= comma {
            return &rest[comma..];
        }
        let next = comma + 1;
        rest = &rest[next..];
        left -= 1;
    }
}

// Whether two texts are the same, byte by byte.
pub fn same(a: &[u8], b: &[u8]) -> bool
    ensures { result ≡ same_text a.now b.now }
{
    if a.len() != b.len() {
        return false;
    }
    for (at, x) in a.iter().enumerate() {
        if *x != b[at] {
            return false;
        }
    }
    true
}

// Whether the first byte of a text is this one; an empty text has none.
pub fn starts_with(s: &[u8], byte: u8) -> bool
    ensures { result ≡ starts_with byte s.now }
{
    if 0 < s.len() { s[0] == byte } else { false }
}
