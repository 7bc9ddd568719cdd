// How long until a width settles. The call's words are the width, the target, and how many slots of the widths are lent. Answered are the refusal,
// what became of it (0 refused, 1 within, 2 at once, 3 no step, 4 no candidate), the rounds, the walks, the width where it stays (0 where there
// is none), and the slots that were lent.
ghost use Rattle.std.specs.Prelude.{◌≤◌, length};

use cases::{answers, words};
use plan_lent::registers;
use plan_lent::settles::settles;
use settling::Settling;

// Has room for more widths than any way has.
pub fn one(
    call: &[u64],
    set: &[u64],
    floats: &[f64],
    wholes: &[u32],
    ours: &mut [u64],
    at: usize,
) -> usize
    ensures { result ≤ length ours.new }
{
    let mut widths = [0xDEAD_BEEFu32; 80];
    let settled = lend(call, set, floats, wholes, &mut widths);
    let next = put_head(ours, at, head_of(settled));
    let lent = words::least_at(call, 3, widths.len());
    answers::put_whole_numbers(ours, next, &widths[0..lent])
}

// Lends as many slots as the call says.
fn lend(call: &[u64], set: &[u64], floats: &[f64], wholes: &[u32], widths: &mut [u32]) -> Settling {
    let settings = registers::settings(set);
    let width = words::whole_at(call, 1);
    let target = words::whole_at(call, 2);
    let lent = words::least_at(call, 3, widths.len());
    settles(
        settings,
        set,
        floats,
        wholes,
        width,
        target,
        &mut widths[0..lent],
    )
}

// The words of an answer before its slots.
#[derive(Clone, Copy)]
struct Head {
    refusal: u64,
    became: u64,
    rounds: u64,
    walks: u32,
    width: u32,
}

fn head_of(settled: Settling) -> Head {
    match settled {
        Settling::Refused(number) => of_numbers(number, 0, 0, 0, 0),
        Settling::Within { rounds, walks } => of_numbers(0, 1, rounds, walks, 0),
        Settling::AtOnce => of_numbers(0, 2, 0, 0, 0),
        Settling::NoStep(width) => of_numbers(0, 3, 0, 0, width),
        Settling::NoCandidate(width) => of_numbers(0, 4, 0, 0, width),
    }
}

fn of_numbers(refusal: u64, became: u64, rounds: u64, walks: u32, width: u32) -> Head {
    Head {
        refusal,
        became,
        rounds,
        walks,
        width,
    }
}

fn put_head(ours: &mut [u64], at: usize, head: Head) -> usize
    ensures { result ≤ length ours.new }
{
    let second = answers::put(ours, at, head.refusal);
    let third = answers::put(ours, second, head.became);
    let fourth = answers::put(ours, third, head.rounds);
    let fifth = answers::put(ours, fourth, head.walks as u64);
    answers::put(ours, fifth, head.width as u64)
}
