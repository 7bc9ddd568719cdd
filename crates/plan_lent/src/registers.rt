// The registers, a word each: the drafter (0 to 5), peak, bw and kv_delta (6 to 8), gamma (9), the model's kind (10: 0 Constant,
// 1 PerPosition, 2 Trace) and its alpha (11), the policy (12: 0 Fixed, 1 GoodputBudget, 2 GatedBudget, 3 GatedAggregate), cooldown_rounds (13),
// whether there is a max_step and which (14, 15), cost_ms (16), whether there is a table (17) and its rows (18), the bank's depth and rounds
// (19, 20), the lengths of the lists (21 to 31), and the price mode (32: 0 Default, 1 Bridged).
use crate::lists::LISTS;
use acceptance::AcceptanceModel;
use asking::Ask;
use cases::words;
use goodput::curve::Source;
use plan_words::drafters;
use settings::{Policy, Settings};
use switch_settings::{MaxStep, SwitchConstraints};
use verify_prices::inner::mode_of;

// How many registers there are.
pub const REGISTERS: usize = 33;

// Where the lengths of the lists start.
const LENGTHS: usize = 21;

// A word put at a place; past the end nothing.
pub fn put(out: &mut [u64], at: usize, word: u64) {
    if at < out.len() {
        out[at] = word;
    }
}

// Sets registers from one on, to the words behind its number.
pub fn set(call: &[u64], registers: &mut [u64]) {
    let first = words::least_at(call, 1, REGISTERS);
    for (k, word) in call.iter().skip(2).enumerate() {
        put(registers, first + k, *word);
    }
}

// The length of a list.
pub fn length_of(registers: &[u64], list: usize) -> u64 {
    if LISTS <= list {
        return 0;
    }
    words::at(registers, LENGTHS + list)
}

pub fn set_length(registers: &mut [u64], list: usize, length: u64) {
    if list < LISTS {
        put(registers, LENGTHS + list, length);
    }
}

fn model(registers: &[u64]) -> AcceptanceModel {
    match words::at(registers, 10) {
        0 => AcceptanceModel::Constant(words::float_at(registers, 11)),
        1 => AcceptanceModel::PerPosition,
        _ => AcceptanceModel::Trace,
    }
}

fn policy(registers: &[u64]) -> Policy {
    match words::at(registers, 12) {
        0 => Policy::Fixed,
        1 => Policy::GoodputBudget,
        2 => Policy::GatedBudget,
        _ => Policy::GatedAggregate,
    }
}

fn max_step(registers: &[u64]) -> MaxStep {
    if words::at(registers, 14) == 0 {
        return MaxStep::Unlimited;
    }
    MaxStep::AtMost(words::whole_at(registers, 15))
}

fn switch(registers: &[u64]) -> SwitchConstraints {
    let max_step = max_step(registers);
    SwitchConstraints {
        cooldown_rounds: words::whole_at(registers, 13),
        max_step,
        cost_ms: words::float_at(registers, 16),
    }
}

pub fn settings(registers: &[u64]) -> Settings {
    let model = model(registers);
    let policy = policy(registers);
    let switch = switch(registers);
    let drafter = drafters::drafter_of(registers);
    let prices = mode_of(words::whole_at(registers, 32));
    Settings {
        gamma: words::whole_at(registers, 9),
        model,
        policy,
        switch,
        drafter,
        prices,
    }
}

fn source(registers: &[u64]) -> Source {
    if words::at(registers, 17) == 0 {
        return Source::Roofline;
    }
    Source::Table
}

// What a plan asks for; of whom, over how many sequences and when is said beside the registers.
pub fn ask(registers: &[u64], a: u64, b: u64, sequences: u32, end: f64) -> Ask {
    let rates = drafters::rates_at(registers, 6, 7, 8);
    let source = source(registers);
    Ask {
        a,
        b,
        sequences,
        end,
        rates,
        source,
        rows: words::at(registers, 18) as usize,
        depth: words::whole_at(registers, 19),
        rounds: words::whole_at(registers, 20),
    }
}
