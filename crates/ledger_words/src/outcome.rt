// What a call answers: the refusal's number or 0, and the value, 0 where there is none.
ghost use Rattle.std.specs.Prelude.{◌≤◌, length};

use cases::answers;
use cases::words::Word;
use refusals::Refusal;

#[derive(Clone, Copy)]
pub struct Outcome {
    pub refusal: u64,
    pub value: u64,
}

pub fn refused(refusal: Refusal) -> Outcome {
    Outcome {
        refusal: refusal.number(),
        value: 0,
    }
}

pub fn value(value: u64) -> Outcome {
    Outcome { refusal: 0, value }
}

pub fn of_answer(answer: Result<(), Refusal>) -> Outcome {
    match answer {
        Ok(()) => value(0),
        Err(refusal) => refused(refusal),
    }
}

// Of a number or a float, its word.
pub fn of_value<T: Word>(answer: Result<T, Refusal>) -> Outcome {
    match answer {
        Ok(found) => value(found.word()),
        Err(refusal) => refused(refusal),
    }
}

// Puts the refusal and the value.
pub fn put(ours: &mut [u64], at: usize, outcome: Outcome) -> usize
    ensures { result ≤ length ours.new }
{
    answers::put_list(ours, at, &[outcome.refusal, outcome.value])
}
