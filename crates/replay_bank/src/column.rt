// An answer as a column of a case: sixteen hexadecimal digits, or dashes and the refusal's number, for a bank with its row.
use acceptance::Sample;
use bank_judge::BankSize;
use cases::sums::Sums;
use refusals::{Refusal, RefusedRow};

#[derive(Clone, Copy)]
pub struct Column {
    pub bytes: [u8; 16],
    pub is_value: bool,
}

impl Column {
    // Whether a column of a case is the same.
    pub fn is(self, column: &[u8]) -> bool {
        let bytes = self.bytes;
        text::same(&bytes, column)
    }

    // Whether it is what the rules say and, where it is a value, what the Rust says too.
    pub fn agrees(self, ruled: &[u8], rust: &[u8]) -> bool {
        let as_ruled = self.is(ruled);
        if self.is_value {
            return as_ruled && self.is(rust);
        }
        as_ruled
    }
}

// Whether a column of the Rust is an answer.
pub fn is_answer(column: &[u8]) -> bool {
    !text::same(column, b"----------------")
}

// Whether two columns of a case are the sums.
pub fn are_sums(sums: Sums, first: &[u8], second: &[u8]) -> bool {
    let ours = of_value(sums.first);
    let all = of_value(sums.second);
    ours.is(first) && all.is(second)
}

pub fn of_bank(answer: Result<BankSize, RefusedRow>) -> Column {
    match answer {
        Ok(size) => of_value(joined(size.depth, size.rounds)),
        Err(refused) => of_refusal_at(refused.refusal, refused.row),
    }
}

pub fn of_expected(answer: Result<f64, Refusal>) -> Column {
    match answer {
        Ok(value) => of_value(float::bits(value)),
        Err(refusal) => of_refusal(refusal),
    }
}

pub fn of_sample(answer: Result<Sample, Refusal>) -> Column {
    match answer {
        Ok(sample) => of_value(joined(sample.commits, (sample.used % 4294967296) as u32)),
        Err(refusal) => of_refusal(refusal),
    }
}

pub fn of_value(n: u64) -> Column {
    let mut bytes = [0u8; 16];
    io::hex(n, 16, &mut bytes);
    Column {
        bytes,
        is_value: true,
    }
}

// Both numbers in one.
fn joined(high: u32, low: u32) -> u64 {
    high as u64 * 4294967296 + low as u64
}

fn of_refusal(refusal: Refusal) -> Column {
    let number = refusal.number();
    let mut bytes = [b'-'; 16];
    bytes[14] = digit(number / 10);
    bytes[15] = digit(number);
    Column {
        bytes,
        is_value: false,
    }
}

fn of_refusal_at(refusal: Refusal, row: u64) -> Column {
    let number = refusal.number();
    let mut bytes = [b'-'; 16];
    bytes[6] = digit(number / 10);
    bytes[7] = digit(number);
    let mut left = row;
    for at in (8..16usize).rev() {
        bytes[at] = digit(left);
        left /= 10;
    }
    Column {
        bytes,
        is_value: false,
    }
}

// The last decimal digit of a number.
fn digit(n: u64) -> u8 {
    48 + (n % 10) as u8
}
