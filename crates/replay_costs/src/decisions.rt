// Switching. A record is three words, its width, rounds and stall; switch settings are four, the cooldown, whether there is a max_step, the
// max_step, and the cost. The words of a decision are the record, the target, the settings and the curve, a list; those of a walk are the
// width, the target, both words of the max_step and the candidates, a list.
ghost use Rattle.std.specs.Prelude.{◌≤◌, length};

use crate::kinds;
use cases::{answers, lists, words};
use refusals::Refusal;
use switch_settings::{MaxStep, SwitchConstraints};
use switching::{Collected, Decided, Switching};

pub fn print(rt: HostRuntime, counts: &[u64]) {
    kinds::print(
        rt,
        counts,
        b"u switch_refusal\na is_unconstrained\no record_refusal\nk walk_candidates\ni first\nc decide\nl decide_lent\ne collect\nn collect_lent\n",
    );
}

pub fn is_decision(kind: u8) -> bool {
    matches!(kind, b'c' | b'l' | b'k')
}

// The kinds that lend a list.
pub fn decision(
    kind: u8,
    input: &[u64],
    candidates: &mut [u32],
    curve: &mut [f64],
    ours: &mut [u64],
) -> usize
    ensures { result ≤ length ours.new }
{
    if kind == b'k' {
        let n = lists::whole_numbers(input, 4, candidates);
        return put_walk(input, &candidates[0..n], ours);
    }
    let n = lists::floats(input, 8, curve);
    put_decided(ours, decided(kind, input, &curve[0..n]))
}

fn put_walk(input: &[u64], candidates: &[u32], ours: &mut [u64]) -> usize
    ensures { result ≤ length ours.new }
{
    let width = words::whole_at(input, 0);
    let target = words::whole_at(input, 1);
    let step = step_of(words::at(input, 2), words::whole_at(input, 3));
    answers::two(
        ours,
        0,
        width_walk::walk_candidates(candidates, width, target, step) as u64,
    )
}

fn step_of(is_there: u64, step: u32) -> MaxStep {
    if is_there == 0 {
        return MaxStep::Unlimited;
    }
    MaxStep::AtMost(step)
}

fn record_of(input: &[u64]) -> Switching {
    Switching {
        width: words::whole_at(input, 0),
        rounds: words::whole_at(input, 1),
        stall: words::float_at(input, 2),
    }
}

fn constraints_at(
    input: &[u64],
    cooldown: usize,
    is_there: usize,
    step: usize,
    cost: usize,
) -> SwitchConstraints {
    let max_step = step_of(words::at(input, is_there), words::whole_at(input, step));
    SwitchConstraints {
        cooldown_rounds: words::whole_at(input, cooldown),
        max_step,
        cost_ms: words::float_at(input, cost),
    }
}

fn decided(kind: u8, input: &[u64], curve: &[f64]) -> Decided {
    let held = record_of(input);
    let target = words::whole_at(input, 3);
    let constraints = constraints_at(input, 4, 5, 6, 7);
    if kind == b'l' {
        return switching_lent::lend_and_decide(held, curve, target, constraints);
    }
    switching::decide(held, curve, target, constraints)
}

// The refusal, the width, and the record as it is kept.
fn put_decided(ours: &mut [u64], d: Decided) -> usize
    ensures { result ≤ length ours.new }
{
    let answer = d.answer;
    let at = put_answer(ours, answer);
    put_record(ours, at, d.kept)
}

fn put_answer(ours: &mut [u64], answer: Result<u32, Refusal>) -> usize
    ensures { result ≤ length ours.new }
{
    match answer {
        Ok(width) => answers::two(ours, 0, width as u64),
        Err(refusal) => answers::two(ours, refusal.number(), 0),
    }
}

fn put_record(ours: &mut [u64], at: usize, held: Switching) -> usize
    ensures { result ≤ length ours.new }
{
    let next = answers::put(ours, at, held.width as u64);
    let last = answers::put(ours, next, held.rounds as u64);
    answers::put_float(ours, last, held.stall)
}

// The kinds that lend numbers alone.
pub fn setting(kind: u8, input: &[u64], ours: &mut [u64]) -> usize
    ensures { result ≤ length ours.new }
{
    if kind == b'u' {
        return answers::one(
            ours,
            refusals::number_in(switch_settings::judge_switch(constraints_at(input, 0, 1, 2, 3))),
        );
    }
    if kind == b'a' {
        return put_unconstrained(ours, constraints_at(input, 0, 1, 2, 3));
    }
    if kind == b'i' {
        return put_decided(ours, switching::first(words::whole_at(input, 0)));
    }
    record(kind, record_of(input), ours)
}

fn put_unconstrained(ours: &mut [u64], constraints: SwitchConstraints) -> usize
    ensures { result ≤ length ours.new }
{
    answers::two(ours, 0, u64::from(constraints.is_unconstrained()))
}

// The kinds that lend a record alone.
fn record(kind: u8, held: Switching, ours: &mut [u64]) -> usize
    ensures { result ≤ length ours.new }
{
    if kind == b'o' {
        return answers::one(ours, refusals::number_in(switching::judge_record(held)));
    }
    if kind == b'e' {
        return put_collected(ours, switching::collect(held));
    }
    if kind == b'n' {
        return put_collected(ours, switching_lent::lend_and_collect(held));
    }
    0
}

// The refusal, the stall, and the record as it is kept.
fn put_collected(ours: &mut [u64], d: Collected) -> usize
    ensures { result ≤ length ours.new }
{
    let answer = d.answer;
    let at = put_stall(ours, answer);
    put_record(ours, at, d.kept)
}

fn put_stall(ours: &mut [u64], answer: Result<f64, Refusal>) -> usize
    ensures { result ≤ length ours.new }
{
    match answer {
        Ok(value) => answers::two(ours, 0, float::bits(value)),
        Err(refusal) => answers::two(ours, refusal.number(), 0),
    }
}
