// A case of words as a line: `KIND INPUTS ANSWERS WORD ..`, where KIND is a letter, INPUTS and ANSWERS are six digits each that say how
// many words are lent and answered, and each word is sixteen hexadecimal digits behind a space.
ghost use Rattle.std.specs.Prelude.{◌<◌, ◌≤◌, length};

use crate::words;
use case_files::refill;
use std::fs::File;

// Bytes of a line besides its words, its newline included; and of a word.
const BESIDES: usize = 16;

const WORD: usize = 17;

// A case whose words were read: how many are lent and how many answered, and where what follows it starts and ends in the room. A kind of 0
// is no case: the file is at its end where `end` is 0 too.
#[derive(Clone, Copy)]
pub struct Case {
    pub kind: u8,
    pub inputs: usize,
    pub answers: usize,
    pub next: usize,
    pub end: usize,
}

// Reads the words of the next case, which starts in the room at a place, or further on in the file.
pub fn next(file: &mut File, room: &mut [u8], words: &mut [u64], at: usize, end: usize) -> Case {
    if is_whole(room, at, end) {
        return case_at(room, words, at, end);
    }
    let more = refill(file, room, at, end);
    case_at(room, words, 0, more)
}

// Whether the words of an answer are those that a case has behind its inputs.
pub fn agrees(case: Case, words: &[u64], ours: &[u64]) -> bool {
    let inputs = case.inputs;
    let answers = case.answers;
    if words.len() < inputs || words.len() - inputs < answers {
        return false;
    }
    let end = inputs + answers;
    words::same(ours, &words[inputs..end])
}

// Whether a whole case starts at a place, in what was read up to an end.
fn is_whole(room: &[u8], at: usize, end: usize) -> bool {
    end <= room.len() && at <= end && 0 < size(&room[at..end])
}

// The case at a place, in what was read up to an end.
fn case_at(room: &[u8], words: &mut [u64], at: usize, end: usize) -> Case {
    if room.len() < end || end < at {
        return none(at, end);
    }
    let size = size(&room[at..end]);
    if size == 0 {
        return none(at, end);
    }
    let next = at + size;
    read(&room[at..next], words, next, end)
}

fn none(at: usize, end: usize) -> Case {
    Case {
        kind: 0,
        inputs: 0,
        answers: 0,
        next: at,
        end,
    }
}

// The case of a line, and where what follows it stands. One of more words than the room takes is none.
fn read(line: &[u8], words: &mut [u64], next: usize, end: usize) -> Case {
    if line.len() < BESIDES {
        return none(next, end);
    }
    let inputs = count(&line[2..8]);
    let answers = count(&line[9..15]);
    let read = words::of_text(&line[15..], words);
    if read < inputs + answers {
        return none(next, end);
    }
    Case {
        kind: line[0],
        inputs,
        answers,
        next,
        end,
    }
}

// How many bytes the case has that the bytes start with, and 0 where they start with none.
fn size(bytes: &[u8]) -> usize
    ensures { result ≤ length bytes.now }
{
    if bytes.len() < BESIDES {
        return 0;
    }
    let inputs = count(&bytes[2..8]);
    let answers = count(&bytes[9..15]);
    let size = BESIDES + WORD * (inputs + answers);
    if bytes.len() < size {
        return 0;
    }
    if bytes[size - 1] != b'\n' {
        return 0;
    }
    size
}

// The number that digits spell, 0 where they do not.
fn count(digits: &[u8]) -> usize
    ensures { result < 4294967296 }
{
    let Ok(n) = numeral::whole(digits) else {
        return 0;
    };
    n as usize
}
