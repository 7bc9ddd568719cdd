// A case of an acceptance model: `m EXPECTED SAMPLE RUST RUST LENGTH WORDS`. The words, of sixteen hexadecimal digits each, are the
// model's kind, alpha, gamma, the number of positions, the positions, the number of draws, the draws. And a case of the value of one of
// its positions: `a VALUE RUST LENGTH WORDS`, where the position stands for gamma and no draws follow.
ghost use Rattle.std.specs.Prelude.{◌≤◌, length};

use crate::column::Column;
use crate::{column, words};
use acceptance::AcceptanceModel;

// What we answer.
#[derive(Clone, Copy)]
pub struct Outcome {
    pub expected: Column,
    pub sample: Column,
}

// Asks the model that the words describe. There is room for 128 positions and 128 draws; the rest of a longer list is left out.
pub fn run(text: &[u8]) -> Outcome {
    let mut positions = [0.0f64; 128];
    let mut draws = [0.0f64; 128];
    let count = count_at(text, 3);
    words::floats(text, 4, count, &mut positions);
    let drawn = count_at(text, 4 + count);
    words::floats(text, 5 + count, drawn, &mut draws);
    ask(text, &positions, count, &draws, drawn)
}

// The value of the position that the words describe, with the same room.
pub fn value(text: &[u8]) -> Column {
    let mut positions = [0.0f64; 128];
    let count = count_at(text, 3);
    words::floats(text, 4, count, &mut positions);
    value_with(text, &positions, count)
}

// A list's length.
fn count_at(text: &[u8], at: usize) -> usize
    ensures { result ≤ 128 }
{
    words::at(text, at).min(128) as usize
}

// With so many of the positions and of the draws.
fn ask(text: &[u8], positions: &[f64], count: usize, draws: &[f64], drawn: usize) -> Outcome
    requires count_in_bounds { count ≤ length positions.now }
    requires drawn_in_bounds { drawn ≤ length draws.now }
{
    let model = model_of(words::at(text, 0), words::at(text, 1));
    let gamma = (words::at(text, 2) % 4294967296) as u32;
    answers(model, gamma, &positions[0..count], &draws[0..drawn])
}

// With so many of the positions.
fn value_with(text: &[u8], positions: &[f64], count: usize) -> Column
    requires { count ≤ length positions.now }
{
    let model = model_of(words::at(text, 0), words::at(text, 1));
    let d = words::at(text, 2) as usize;
    let value = acceptance::a_d(model, &positions[0..count], d);
    column::of_value(float::bits(value))
}

fn answers(model: AcceptanceModel, gamma: u32, positions: &[f64], draws: &[f64]) -> Outcome {
    let expected = acceptance::expected_accepted(model, positions, gamma);
    let sample = acceptance::sample_accepted(model, positions, gamma, draws);
    Outcome {
        expected: column::of_expected(expected),
        sample: column::of_sample(sample),
    }
}

fn model_of(kind: u64, alpha: u64) -> AcceptanceModel {
    match kind {
        0 => AcceptanceModel::Constant(float::of_bits(alpha)),
        1 => AcceptanceModel::PerPosition,
        _ => AcceptanceModel::Trace,
    }
}
