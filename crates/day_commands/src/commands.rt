// One line of a day file: judged as a whole, then carried out.
use crate::{acts, asked};
use day_names::{AcceptanceName, Command};
use day_shapes::{Expected, WrongField};
use day_turns::turns::Turn;
use day_turns::{lent, listed, setup, told, turns};

pub fn run(
    turn: Turn,
    day: &[u8],
    line: &[u8],
    set: &mut [u64],
    floats: &mut [f64],
    wholes: &mut [u32],
    storage: &mut [u64],
    clock: &mut [u64],
    file: &mut [u8],
    page: &mut [u8],
) -> Turn {
    match day_fields::line_judged(line) {
        Ok(()) => command(
            turn, day, line, set, floats, wholes, storage, clock, file, page,
        ),
        Err(wrong) => turns::wrong(turn, wrong, page),
    }
}

fn command(
    turn: Turn,
    day: &[u8],
    line: &[u8],
    set: &mut [u64],
    floats: &mut [f64],
    wholes: &mut [u32],
    storage: &mut [u64],
    clock: &mut [u64],
    file: &mut [u8],
    page: &mut [u8],
) -> Turn {
    match day_names::command_of(line) {
        Some(Command::Nothing) => turn,
        Some(Command::Gamma) => setup::gamma(turn, line, set, page),
        Some(Command::Policy) => setup::policy(turn, line, set, page),
        Some(Command::Acceptance) => acceptance(turn, day, line, set, floats, wholes, file, page),
        Some(Command::Drafter) => setup::drafter(turn, line, set, page),
        Some(Command::Switch) => setup::switch(turn, line, set, page),
        Some(Command::Rates) => setup::rates(turn, line, set, page),
        Some(Command::Roofline) => listed::roofline(turn, line, set, floats, page),
        Some(Command::Table) => lent::table(turn, day, line, set, floats, wholes, file, page),
        Some(Command::Loaded) => listed::loaded(turn, line, set, floats, page),
        Some(Command::Prices) => setup::prices(turn, line, set, page),
        Some(Command::Plan) => asked::plan(turn, line, set, floats, wholes, storage, clock, page),
        Some(Command::Collect) => acts::collect(turn, line, storage, clock, page),
        Some(Command::Withdraw) => acts::withdraw(turn, storage, clock, page),
        Some(Command::Series) => told::series(turn, storage, page),
        Some(Command::SeriesBits) => told::series_bits(turn, storage, page),
        Some(Command::Day) => told::day(turn, storage, page),
        Some(Command::Settles) => day_settles::settles(turn, line, set, floats, wholes, page),
        None => unknown(turn, page),
    }
}

// A line whose first field is no command.
fn unknown(turn: Turn, page: &mut [u8]) -> Turn {
    let first = WrongField {
        field: 0,
        expected: Expected::KnownCommand,
    };
    turns::wrong(turn, first, page)
}

// By the kind that the line names.
fn acceptance(
    turn: Turn,
    day: &[u8],
    line: &[u8],
    set: &mut [u64],
    floats: &mut [f64],
    wholes: &mut [u32],
    file: &mut [u8],
    page: &mut [u8],
) -> Turn {
    match day_names::acceptance_of(day_line::field(line, 1)) {
        Some(AcceptanceName::Constant) => setup::constant(turn, line, set, page),
        Some(AcceptanceName::PerPosition) => listed::per_position(turn, line, set, floats, page),
        Some(AcceptanceName::Trace) => lent::bank(turn, day, line, set, floats, wholes, file, page),
        None => turns::unnamed(turn, page),
    }
}
