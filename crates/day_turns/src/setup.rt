// The commands that set something which a line says by itself.
use crate::turns::Turn;
use crate::{turns, values};
use day_names::{DrafterName, PolicyName, PricesName};
use plan_lent::registers;

pub fn gamma(turn: Turn, line: &[u8], set: &mut [u64], page: &mut [u8]) -> Turn {
    registers::put(set, 9, values::whole(line, 1));
    turns::set(turn, line, page)
}

pub fn policy(turn: Turn, line: &[u8], set: &mut [u64], page: &mut [u8]) -> Turn {
    registers::put(set, 12, policy_number(line));
    turns::set(turn, line, page)
}

fn policy_number(line: &[u8]) -> u64 {
    match day_names::policy_of(day_line::field(line, 1)) {
        Some(PolicyName::Fixed) | None => 0,
        Some(PolicyName::GoodputBudget) => 1,
        Some(PolicyName::GatedBudget) => 2,
        Some(PolicyName::GatedAggregate) => 3,
    }
}

// Every draft is accepted with one chance.
pub fn constant(turn: Turn, line: &[u8], set: &mut [u64], page: &mut [u8]) -> Turn {
    registers::put(set, 10, 0);
    registers::put(set, 11, values::bits(line, 2));
    turns::set(turn, line, page)
}

// Cooldown rounds, the largest step or none, and the cost in milliseconds.
pub fn switch(turn: Turn, line: &[u8], set: &mut [u64], page: &mut [u8]) -> Turn {
    registers::put(set, 13, values::whole(line, 1));
    registers::put(set, 14, is_limited(line) as u64);
    registers::put(set, 15, values::whole(line, 2));
    registers::put(set, 16, values::bits(line, 3));
    turns::set(turn, line, page)
}

fn is_limited(line: &[u8]) -> bool {
    !day_names::is_none(day_line::field(line, 2))
}

// Peak, bw and kv_delta.
pub fn rates(turn: Turn, line: &[u8], set: &mut [u64], page: &mut [u8]) -> Turn {
    registers::put(set, 6, values::bits(line, 1));
    registers::put(set, 7, values::bits(line, 2));
    registers::put(set, 8, values::bits(line, 3));
    turns::set(turn, line, page)
}

// How a depth that is not measured is priced.
pub fn prices(turn: Turn, line: &[u8], set: &mut [u64], page: &mut [u8]) -> Turn {
    registers::put(set, 32, prices_number(line));
    turns::set(turn, line, page)
}

fn prices_number(line: &[u8]) -> u64 {
    match day_names::prices_of(day_line::field(line, 1)) {
        Some(PricesName::Default) | None => 0,
        Some(PricesName::Bridged) => 1,
    }
}

pub fn drafter(turn: Turn, line: &[u8], set: &mut [u64], page: &mut [u8]) -> Turn {
    match day_names::drafter_of(day_line::field(line, 1)) {
        Some(DrafterName::Fraction) => fraction(turn, line, set, page),
        Some(DrafterName::Autoregressive) => autoregressive(turn, line, set, page),
        Some(DrafterName::BlockParallel) => block_parallel(turn, line, set, page),
        Some(DrafterName::Absent) => absent(turn, line, set, page),
        None => turns::unnamed(turn, page),
    }
}

fn fraction(turn: Turn, line: &[u8], set: &mut [u64], page: &mut [u8]) -> Turn {
    put_drafter(set, 0, values::bits(line, 2), 0, 0, 0, 0);
    turns::set(turn, line, page)
}

fn autoregressive(turn: Turn, line: &[u8], set: &mut [u64], page: &mut [u8]) -> Turn {
    let dense = values::bits(line, 2);
    let expert = values::bits(line, 3);
    let experts = values::whole(line, 4);
    let per_token = values::whole(line, 5);
    let shared = values::whole(line, 6);
    put_drafter(set, 1, dense, expert, experts, per_token, shared);
    turns::set(turn, line, page)
}

fn block_parallel(turn: Turn, line: &[u8], set: &mut [u64], page: &mut [u8]) -> Turn {
    put_drafter(
        set,
        2,
        values::bits(line, 2),
        0,
        values::whole(line, 3),
        0,
        0,
    );
    turns::set(turn, line, page)
}

// No drafter is a fraction of 0.
fn absent(turn: Turn, line: &[u8], set: &mut [u64], page: &mut [u8]) -> Turn {
    put_drafter(set, 0, 0, 0, 0, 0, 0);
    turns::set(turn, line, page)
}

// A drafter is its kind, two floats by their bits and three counts.
fn put_drafter(set: &mut [u64], kind: u64, x: u64, y: u64, a: u64, b: u64, c: u64) {
    registers::put(set, 0, kind);
    registers::put(set, 1, x);
    registers::put(set, 2, y);
    registers::put(set, 3, a);
    registers::put(set, 4, b);
    registers::put(set, 5, c);
}
