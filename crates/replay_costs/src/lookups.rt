// Lookups in a lent cost table. The words are what is asked, two numbers, then the rows and the three columns, each a list.
ghost use Rattle.std.specs.Prelude.{◌≤◌, length};

use crate::kinds;
use batch_ranges::BatchRange;
use cases::{answers, lists, words};
use refusals::Refusal;

pub fn print(rt: HostRuntime, counts: &[u64]) {
    kinds::print(
        rt,
        counts,
        b"j table_refusal\ns step_time\nh has_draft\nr batch_range\nm max_batch\nf step_time_frac\np price_curve\n",
    );
}

pub fn is_lookup(kind: u8) -> bool {
    matches!(kind, b'j' | b's' | b'h' | b'r' | b'm' | b'f' | b'p')
}

// Lends the columns to the lookup of a kind.
pub fn lookup(
    kind: u8,
    input: &[u64],
    depths: &mut [u32],
    batches: &mut [u32],
    seconds: &mut [f64],
    ours: &mut [u64],
) -> usize
    ensures { result ≤ length ours.new }
{
    let d = lists::whole_numbers(input, 3, depths);
    let second = lists::behind(input, 3, d);
    let b = lists::whole_numbers(input, second, batches);
    let third = lists::behind(input, second, b);
    let s = lists::floats(input, third, seconds);
    ask(
        kind,
        input,
        &depths[0..d],
        &batches[0..b],
        &seconds[0..s],
        ours,
    )
}

fn ask(
    kind: u8,
    input: &[u64],
    depths: &[u32],
    batches: &[u32],
    seconds: &[f64],
    ours: &mut [u64],
) -> usize
    ensures { result ≤ length ours.new }
{
    let rows = words::at(input, 2) as usize;
    if kind == b'j' {
        let judgement = cost_lookup::judge_table(depths, batches, seconds, rows);
        return answers::one(ours, refusals::number_in(judgement));
    }
    if kind == b'p' {
        return prices(input, depths, batches, seconds, rows, ours);
    }
    if kind == b's' {
        return times(input, depths, batches, seconds, rows, ours);
    }
    if kind == b'f' {
        return fractions(input, depths, batches, seconds, rows, ours);
    }
    depth(
        kind,
        words::whole_at(input, 1),
        depths,
        batches,
        seconds,
        rows,
        ours,
    )
}

fn times(
    input: &[u64],
    depths: &[u32],
    batches: &[u32],
    seconds: &[f64],
    rows: usize,
    ours: &mut [u64],
) -> usize
    ensures { result ≤ length ours.new }
{
    let batch = words::whole_at(input, 0);
    let depth = words::whole_at(input, 1);
    put_time(
        ours,
        cost_lookup::step_time(depths, batches, seconds, rows, batch, depth),
    )
}

fn fractions(
    input: &[u64],
    depths: &[u32],
    batches: &[u32],
    seconds: &[f64],
    rows: usize,
    ours: &mut [u64],
) -> usize
    ensures { result ≤ length ours.new }
{
    let batch = words::whole_at(input, 0);
    let g = words::float_at(input, 1);
    put_time(
        ours,
        cost_lookup::step_time_frac(depths, batches, seconds, rows, batch, g),
    )
}

fn prices(
    input: &[u64],
    depths: &[u32],
    batches: &[u32],
    seconds: &[f64],
    rows: usize,
    ours: &mut [u64],
) -> usize
    ensures { result ≤ length ours.new }
{
    let batch = words::whole_at(input, 0);
    let kv_delta = words::float_at(input, 1);
    put_curve(
        ours,
        cost_lookup::price_curve(depths, batches, seconds, rows, batch, kv_delta),
    )
}

// The prices; beside a refusal zeros.
fn put_curve(ours: &mut [u64], curve: Result<[f64; 65], Refusal>) -> usize
    ensures { result ≤ length ours.new }
{
    let (number, prices) = match curve {
        Ok(prices) => (0, prices),
        Err(refusal) => (refusal.number(), [0.0; 65]),
    };
    let at = answers::one(ours, number);
    answers::put_floats(ours, at, &prices)
}

// The lookups that are asked with a depth alone.
fn depth(
    kind: u8,
    depth: u32,
    depths: &[u32],
    batches: &[u32],
    seconds: &[f64],
    rows: usize,
    ours: &mut [u64],
) -> usize
    ensures { result ≤ length ours.new }
{
    if kind == b'h' {
        return put_measured(
            ours,
            cost_lookup::has_draft(depths, batches, seconds, rows, depth),
        );
    }
    if kind == b'r' {
        return put_range(
            ours,
            cost_lookup::batch_range(depths, batches, seconds, rows, depth),
        );
    }
    put_batch(
        ours,
        cost_lookup::max_batch(depths, batches, seconds, rows, depth),
    )
}

fn put_time(ours: &mut [u64], time: Result<Option<f64>, Refusal>) -> usize
    ensures { result ≤ length ours.new }
{
    match time {
        Ok(Some(value)) => answers::three(ours, 0, 1, float::bits(value)),
        Ok(None) => answers::three(ours, 0, 0, 0),
        Err(refusal) => answers::three(ours, refusal.number(), 0, 0),
    }
}

fn put_measured(ours: &mut [u64], measured: Result<bool, Refusal>) -> usize
    ensures { result ≤ length ours.new }
{
    match measured {
        Ok(is_measured) => answers::two(ours, 0, u64::from(is_measured)),
        Err(refusal) => answers::two(ours, refusal.number(), 0),
    }
}

fn put_range(ours: &mut [u64], range: Result<Option<BatchRange>, Refusal>) -> usize
    ensures { result ≤ length ours.new }
{
    match range {
        Ok(Some(range)) => answers::four(ours, 0, 1, range.low as u64, range.high as u64),
        Ok(None) => answers::four(ours, 0, 0, 0, 0),
        Err(refusal) => answers::four(ours, refusal.number(), 0, 0, 0),
    }
}

fn put_batch(ours: &mut [u64], batch: Result<Option<u32>, Refusal>) -> usize
    ensures { result ≤ length ours.new }
{
    match batch {
        Ok(Some(largest)) => answers::three(ours, 0, 1, largest as u64),
        Ok(None) => answers::three(ours, 0, 0, 0),
        Err(refusal) => answers::three(ours, refusal.number(), 0, 0),
    }
}
