// Prices without a batch: the total cost of a depth, and the best depth of expected values that are lent. The words are a drafter, three
// rates, the depth or gamma, the sequences, the verify cost, and three lists: the expected values, the curve and the loaded experts.
ghost use Rattle.std.specs.Prelude.{◌≤◌, length};

use cases::{answers, lists, tally, words};
use goodput::{depth, pricing};
use plan_words::drafters;
use refusals::Refusal;

pub fn print(rt: HostRuntime, counts: &[u64]) {
    tally::print_kind(rt, counts, b't', b"total_cost");
    tally::print_kind(rt, counts, b'd', b"best_depth");
}

pub fn is_price(kind: u8) -> bool {
    matches!(kind, b't' | b'd')
}

// Lends the lists.
pub fn price(kind: u8, input: &[u64], ours: &mut [u64]) -> usize
    ensures { result ≤ length ours.new }
{
    let mut expected = [0.0f64; 128];
    let e = lists::floats(input, 12, &mut expected);
    let second = lists::behind(input, 12, e);
    let mut curve = [0.0f64; 128];
    let c = lists::floats(input, second, &mut curve);
    let third = lists::behind(input, second, c);
    let mut loaded = [0.0f64; 1088];
    let l = lists::floats(input, third, &mut loaded);
    ask(
        kind,
        input,
        &expected[0..e],
        &curve[0..c],
        &loaded[0..l],
        ours,
    )
}

fn ask(
    kind: u8,
    input: &[u64],
    expected: &[f64],
    curve: &[f64],
    loaded: &[f64],
    ours: &mut [u64],
) -> usize
    ensures { result ≤ length ours.new }
{
    if kind == b't' {
        return put_cost(ours, total(input, loaded));
    }
    put_depth(ours, best(input, expected, curve, loaded))
}

fn total(input: &[u64], loaded: &[f64]) -> Result<f64, Refusal> {
    let head = drafters::drafter_of(input);
    let rates = drafters::rates_at(input, 6, 7, 8);
    let g = words::whole_at(input, 9);
    let n = words::whole_at(input, 10);
    pricing::total_cost(head, g, n, rates, words::float_at(input, 11), loaded)
}

fn best(input: &[u64], expected: &[f64], curve: &[f64], loaded: &[f64]) -> Result<u32, Refusal> {
    let head = drafters::drafter_of(input);
    let rates = drafters::rates_at(input, 6, 7, 8);
    let gamma = words::whole_at(input, 9);
    let n = words::whole_at(input, 10);
    depth::best_depth(expected, curve, gamma, n, head, rates, loaded)
}

fn put_cost(ours: &mut [u64], cost: Result<f64, Refusal>) -> usize
    ensures { result ≤ length ours.new }
{
    match cost {
        Ok(value) => answers::two(ours, 0, float::bits(value)),
        Err(refusal) => answers::two(ours, refusal.number(), 0),
    }
}

pub fn put_depth(ours: &mut [u64], best: Result<u32, Refusal>) -> usize
    ensures { result ≤ length ours.new }
{
    match best {
        Ok(g) => answers::two(ours, 0, g as u64),
        Err(refusal) => answers::two(ours, refusal.number(), 0),
    }
}
