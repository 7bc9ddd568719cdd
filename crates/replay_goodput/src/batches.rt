// Batches of sequences: their expected acceptance and their best depth. The words are those of a batch, as `plan_words::lent_chains` has them.
ghost use Rattle.std.specs.Prelude.{◌≤◌, length};

use crate::{costs, expectations};
use cases::{lists, tally, words};
use goodput::{depth, expected};
use plan_words::{drafters, lent_chains};
use refusals::Refusal;

pub fn print(rt: HostRuntime, counts: &[u64]) {
    tally::print_kind(rt, counts, b'e', b"expected_by_depth");
    tally::print_kind(rt, counts, b'a', b"aggregate_depth");
}

pub fn is_batch(kind: u8) -> bool {
    matches!(kind, b'e' | b'a')
}

// Lends the chains and their lengths.
pub fn batch(kind: u8, input: &[u64], room: &mut [f64], ours: &mut [u64]) -> usize
    ensures { result ≤ length ours.new }
{
    let slots = lent_chains::fill(input, room);
    let place = lent_chains::lengths_at(input);
    let mut lengths = [0u32; 1088];
    let n = lists::whole_numbers(input, place, &mut lengths);
    let next = lists::behind(input, place, n);
    with_lengths(kind, input, &room[0..slots], &lengths[0..n], next, ours)
}

// Lends the curve and the loaded experts, which stand at a place.
fn with_lengths(
    kind: u8,
    input: &[u64],
    chains: &[f64],
    lengths: &[u32],
    place: usize,
    ours: &mut [u64],
) -> usize
    ensures { result ≤ length ours.new }
{
    if kind == b'e' {
        return expectation(input, chains, lengths, ours);
    }
    let mut curve = [0.0f64; 128];
    let c = lists::floats(input, place, &mut curve);
    let next = lists::behind(input, place, c);
    let mut loaded = [0.0f64; 1088];
    let l = lists::floats(input, next, &mut loaded);
    let best = best(input, chains, lengths, &curve[0..c], &loaded[0..l]);
    costs::put_depth(ours, best)
}

fn best(
    input: &[u64],
    chains: &[f64],
    lengths: &[u32],
    curve: &[f64],
    loaded: &[f64],
) -> Result<u32, Refusal> {
    let gamma = words::whole_at(input, 9);
    let head = drafters::drafter_of(input);
    let rates = drafters::rates_at(input, 6, 7, 8);
    depth::aggregate_depth(chains, lengths, curve, gamma, head, rates, loaded)
}

// Lends as many slots for the values as the words say.
fn expectation(input: &[u64], chains: &[f64], lengths: &[u32], ours: &mut [u64]) -> usize
    ensures { result ≤ length ours.new }
{
    let mut out = [expectations::BEFORE; 128];
    let room = words::least_at(input, 10, 128);
    expect_in(input, chains, lengths, &mut out[0..room], ours)
}

fn expect_in(
    input: &[u64],
    chains: &[f64],
    lengths: &[u32],
    out: &mut [f64],
    ours: &mut [u64],
) -> usize
    ensures { result ≤ length ours.new }
{
    let gamma = words::whole_at(input, 9);
    let answer = expected::expected_by_depth(chains, lengths, gamma, out);
    expectations::put(ours, answer, out)
}
