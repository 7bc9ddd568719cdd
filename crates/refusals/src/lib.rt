// Why a call is refused, each reason with its number.
#![tactic(auto)]

ghost use Rattle.std.specs.Prelude.{◌≡◌};
ghost use Rattle.refusals.specs.Refusals.{number_of, number_in};

#[derive(Clone, Copy, Debug, PartialEq, Eq)]
pub enum Refusal {
    // 1: a text byte is above 127
    NotAscii,
    // 2: the text has length 0
    EmptyText,
    // 3: the header is wrong
    WrongHeader,
    // 4: a row's field count differs
    FieldCount,
    // 5: a whole number is malformed or above 4294967295
    MalformedWhole,
    // 6: a decimal is malformed
    MalformedDecimal,
    // 7: a decimal has over 15 significant digits or over 22 decimals
    LongDecimal,
    // 8: `step_seconds` is not above zero
    StepSeconds,
    // 9: `num_draft_tokens` is 0
    NoDrafts,
    // 10: no data rows
    NoRows,
    // 11: a size is passed
    Size,
    // 12: a setting is out of range
    Setting,
    // 13: a needed draw is absent
    AbsentDraw,
    // 14: a draw is not at least 0 and below 1, or a round index is not below the round count
    Draw,
    // 15: a cost input, signal value, chain, expected value, width, bank or table value or lent record is out of range
    Input,
    // 16: a lent buffer is too short
    ShortBuffer,
    // 17: the worker is new and 256 are held
    WorkerRoom,
    // 18: the second is new and 4096 are held
    SecondRoom,
    // 19: the second already has 1000000 steps
    StepRoom,
    // 20: no rows after sanitisation
    NoSaneRows,
    // 21: no withdrawal is available
    NoWithdrawal,
}

impl Refusal {
    // The number that the rules give it.
    pub fn number(self) -> u64
        ensures { result ≡ number_of self }
    {
        match self {
            Refusal::NotAscii => 1,
            Refusal::EmptyText => 2,
            Refusal::WrongHeader => 3,
            Refusal::FieldCount => 4,
            Refusal::MalformedWhole => 5,
            Refusal::MalformedDecimal => 6,
            Refusal::LongDecimal => 7,
            Refusal::StepSeconds => 8,
            Refusal::NoDrafts => 9,
            Refusal::NoRows => 10,
            Refusal::Size => 11,
            Refusal::Setting => 12,
            Refusal::AbsentDraw => 13,
            Refusal::Draw => 14,
            Refusal::Input => 15,
            Refusal::ShortBuffer => 16,
            Refusal::WorkerRoom => 17,
            Refusal::SecondRoom => 18,
            Refusal::StepRoom => 19,
            Refusal::NoSaneRows => 20,
            Refusal::NoWithdrawal => 21,
        }
    }
}

// A refusal of a text, with the row of the line at fault: 1 is the header, 0 stands for the whole text.
#[derive(Clone, Copy, Debug, PartialEq, Eq)]
pub struct RefusedRow {
    pub refusal: Refusal,
    pub row: u64,
}

// The number of a judgement's refusal, 0 where it passes.
pub fn number_in(judgement: Result<(), Refusal>) -> u64
    ensures { result ≡ number_in judgement }
{
    match judgement {
        Ok(()) => 0,
        Err(refusal) => refusal.number(),
    }
}
