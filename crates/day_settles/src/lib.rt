// How long until a width settles, asked by a line of a day file: the answer by the settings in force, and the table of the steps. Nothing is
// changed.
#![tactic(auto)]

use day_turns::turns::Turn;
use day_turns::{lent, turns, values};
use plan_lent::{registers, settles};
use settling::Settling;

// No way has more walks, so that no larger step has fewer.
const MOST: u32 = 64;

// The table as far as it is told, and the fewest walks in it.
#[derive(Clone, Copy)]
struct Rows {
    turn: Turn,
    fewest: u32,
}

// The words are the width and the target.
pub fn settles(
    turn: Turn,
    line: &[u8],
    set: &[u64],
    floats: &[f64],
    wholes: &[u32],
    page: &mut [u8],
) -> Turn {
    let mut widths = [0u32; 64];
    let answer = ask(line, set, floats, wholes, &mut widths);
    let told = tell(turn, answer, &widths, page);
    steps(told, line, set, floats, wholes, page)
}

fn ask(line: &[u8], set: &[u64], floats: &[f64], wholes: &[u32], widths: &mut [u32]) -> Settling {
    let settings = registers::settings(set);
    let width = whole(line, 1);
    let target = whole(line, 2);
    settles::settles(settings, set, floats, wholes, width, target, widths)
}

fn whole(line: &[u8], place: usize) -> u32 {
    (values::whole(line, place) % 4294967296) as u32
}

fn tell(turn: Turn, answer: Settling, widths: &[u32], page: &mut [u8]) -> Turn {
    match answer {
        Settling::Refused(number) => turns::refused_by(turn, number, 0, page),
        _ => {
            let at = page::make_room(turn.rt, page, turn.used);
            let used = settling_lines::answer(page, at, turn.number, answer, widths);
            turns::done(turn, used)
        }
    }
}

// The same question with other steps, over registers of its own.
fn steps(
    turn: Turn,
    line: &[u8],
    set: &[u64],
    floats: &[f64],
    wholes: &[u32],
    page: &mut [u8],
) -> Turn {
    let mut stepped = [0u64; 33];
    lent::copy_front(set, &mut stepped);
    table(turn, line, &mut stepped, floats, wholes, page)
}

// For the largest steps 1, 2, .. what is answered with each, where it has fewer walks than those before it: up to the first that has one walk.
// There is none where the target is no candidate, and none where the question is refused.
fn table(
    turn: Turn,
    line: &[u8],
    set: &mut [u64],
    floats: &[f64],
    wholes: &[u32],
    page: &mut [u8],
) -> Turn {
    registers::put(set, 14, 1);
    let mut told = Rows { turn, fewest: 65 };
    for step in 1..=MOST {
        registers::put(set, 15, step as u64);
        told = with_step(told, step, line, set, floats, wholes, page);
        if told.fewest <= 1 {
            break;
        }
    }
    told.turn
}

// Where the width does not arrive the table ends.
fn with_step(
    told: Rows,
    step: u32,
    line: &[u8],
    set: &[u64],
    floats: &[f64],
    wholes: &[u32],
    page: &mut [u8],
) -> Rows {
    let mut widths = [0u32; 64];
    let turn = told.turn;
    match ask(line, set, floats, wholes, &mut widths) {
        Settling::Within { rounds, walks } => {
            if walks < told.fewest {
                let turn = row(turn, step, rounds, walks, &widths, page);
                return Rows {
                    turn,
                    fewest: walks,
                };
            }
            told
        }
        _ => Rows { turn, fewest: 0 },
    }
}

fn row(turn: Turn, step: u32, rounds: u64, walks: u32, widths: &[u32], page: &mut [u8]) -> Turn {
    let at = page::make_room(turn.rt, page, turn.used);
    let used = settling_lines::step(page, at, turn.number, step, rounds, walks, widths);
    turns::done(turn, used)
}
