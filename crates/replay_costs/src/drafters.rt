// Drafter costs. The words of a cost are a drafter, gamma, batch, three rates, the verify cost, and two lists: the widths and the loaded
// experts; `plan_words::drafters` says what the words of a drafter and of rates are.
ghost use Rattle.std.specs.Prelude.{◌≤◌, length};

use crate::kinds;
use cases::{answers, lists, words};
use refusals::Refusal;
use speculative::drafter;

pub fn print(rt: HostRuntime, counts: &[u64]) {
    kinds::print(
        rt,
        counts,
        b"v drafter_refusal\nw rates_refusal\nb is_block\nd seconds\nq pass_seconds\ng ragged_seconds\n",
    );
}

pub fn is_cost(kind: u8) -> bool {
    matches!(kind, b'd' | b'q' | b'g')
}

pub fn is_setting(kind: u8) -> bool {
    matches!(kind, b'v' | b'w' | b'b')
}

// What is refused of a drafter or of rates, and whether a drafter drafts one block.
pub fn setting(kind: u8, input: &[u64], ours: &mut [u64]) -> usize
    ensures { result ≤ length ours.new }
{
    if kind == b'w' {
        return answers::one(
            ours,
            refusals::number_in(drafter::judge_rates(plan_words::drafters::rates_at(
                input, 0, 1, 2,
            ))),
        );
    }
    let head = plan_words::drafters::drafter_of(input);
    if kind == b'v' {
        return answers::one(ours, refusals::number_in(drafter::judge_drafter(head)));
    }
    answers::two(ours, 0, u64::from(drafter::is_block(head)))
}

// Lends the lists to the cost of a kind.
pub fn cost(
    kind: u8,
    input: &[u64],
    widths: &mut [u32],
    loaded: &mut [f64],
    ours: &mut [u64],
) -> usize
    ensures { result ≤ length ours.new }
{
    let w = lists::whole_numbers(input, 12, widths);
    let second = lists::behind(input, 12, w);
    let n = lists::floats(input, second, loaded);
    put_time(ours, ask(kind, input, &widths[0..w], &loaded[0..n]))
}

fn ask(kind: u8, input: &[u64], widths: &[u32], loaded: &[f64]) -> Result<f64, Refusal> {
    let head = plan_words::drafters::drafter_of(input);
    let batch = words::whole_at(input, 7);
    let rates = plan_words::drafters::rates_at(input, 8, 9, 10);
    let verify_c = words::float_at(input, 11);
    if kind == b'g' {
        return drafter::ragged_seconds(head, widths, rates, verify_c, loaded);
    }
    if kind == b'q' {
        return drafter::pass_seconds(head, batch, rates, loaded);
    }
    drafter::seconds(
        head,
        words::whole_at(input, 6),
        batch,
        rates,
        verify_c,
        loaded,
    )
}

fn put_time(ours: &mut [u64], time: Result<f64, Refusal>) -> usize
    ensures { result ≤ length ours.new }
{
    match time {
        Ok(value) => answers::two(ours, 0, float::bits(value)),
        Err(refusal) => answers::two(ours, refusal.number(), 0),
    }
}
