// The expected acceptance of n sequences, by a model or by a bank's curve. The words are the model's kind (0 Constant, 1 PerPosition, 2 Trace)
// and alpha, or the bank's depth and 0; gamma, n, the slots that are lent for the values, and a list: the positions or the curve.
ghost use Rattle.std.specs.Prelude.{◌≤◌, length};

use acceptance::AcceptanceModel;
use cases::{answers, lists, tally, words};
use goodput::expected;
use refusals::Refusal;

// What each slot of values holds before a call.
pub const BEFORE: f64 = 42.0;

pub fn print(rt: HostRuntime, counts: &[u64]) {
    tally::print_kind(rt, counts, b'm', b"model_expected");
    tally::print_kind(rt, counts, b'b', b"bank_expected");
}

pub fn is_expectation(kind: u8) -> bool {
    matches!(kind, b'm' | b'b')
}

// Lends the list, and as many slots for the values as the words say.
pub fn expectation(kind: u8, input: &[u64], ours: &mut [u64]) -> usize
    ensures { result ≤ length ours.new }
{
    let mut list = [0.0f64; 128];
    let n = lists::floats(input, 5, &mut list);
    let mut out = [BEFORE; 128];
    let room = words::least_at(input, 4, 128);
    expect_in(kind, input, &list[0..n], &mut out[0..room], ours)
}

fn expect_in(kind: u8, input: &[u64], list: &[f64], out: &mut [f64], ours: &mut [u64]) -> usize
    ensures { result ≤ length ours.new }
{
    let answer = ask(kind, input, list, out);
    put(ours, answer, out)
}

fn ask(kind: u8, input: &[u64], list: &[f64], out: &mut [f64]) -> Result<(), Refusal> {
    let gamma = words::whole_at(input, 2);
    let n = words::whole_at(input, 3);
    if kind == b'm' {
        return expected::model_expected(model_of(input), list, gamma, n, out);
    }
    expected::bank_expected(list, words::whole_at(input, 0), gamma, n, out)
}

fn model_of(input: &[u64]) -> AcceptanceModel {
    let kind = words::at(input, 0);
    if kind == 0 {
        return AcceptanceModel::Constant(words::float_at(input, 1));
    }
    if kind == 1 {
        return AcceptanceModel::PerPosition;
    }
    AcceptanceModel::Trace
}

// The refusal, and the values as the call leaves them.
pub fn put(ours: &mut [u64], answer: Result<(), Refusal>, out: &[f64]) -> usize
    ensures { result ≤ length ours.new }
{
    let at = answers::one(ours, refusals::number_in(answer));
    answers::put_floats(ours, at, out)
}
