// A plan: what the line asks for, and what is told of the answer.
use day_turns::turns::Turn;
use day_turns::{listed, turns, values};
use planner::Planned;
use planner_calls::plans;
use planner_calls::plans::Asker;

// The words of a plan are its worker's two numbers, its end time, its sequences, and its draws or round indices.
pub fn plan(
    turn: Turn,
    line: &[u8],
    set: &mut [u64],
    floats: &mut [f64],
    wholes: &mut [u32],
    storage: &mut [u64],
    clock: &mut [u64],
    page: &mut [u8],
) -> Turn {
    match listed::rounds(line, set, floats, wholes) {
        Ok(()) => make(
            turn,
            asker_of(line),
            set,
            floats,
            wholes,
            storage,
            clock,
            page,
        ),
        Err(wrong) => turns::wrong(turn, wrong, page),
    }
}

fn asker_of(line: &[u8]) -> Asker {
    Asker {
        a: values::whole(line, 1),
        b: values::whole(line, 2),
        sequences: (values::whole(line, 4) % 4294967296) as u32,
        end: values::decimal(line, 3),
    }
}

fn make(
    turn: Turn,
    asker: Asker,
    set: &[u64],
    floats: &[f64],
    wholes: &[u32],
    storage: &mut [u64],
    clock: &mut [u64],
    page: &mut [u8],
) -> Turn {
    let mut drafts = [0u32; 1024];
    let mut commits = [0u32; 1024];
    let planned = plans::plan(
        asker,
        set,
        floats,
        wholes,
        storage,
        &mut drafts,
        &mut commits,
    );
    tell(turn, asker, planned, &drafts, &commits, clock, page)
}

fn tell(
    turn: Turn,
    asker: Asker,
    planned: Planned,
    drafts: &[u32],
    commits: &[u32],
    clock: &mut [u64],
    page: &mut [u8],
) -> Turn {
    match planned {
        Planned::Plan { used, weighed } => {
            let noted = noted(turn, asker, clock, page);
            let headed = headed(noted, asker, used as u64, weighed as u64, page);
            ended(headed, asker.sequences as usize, drafts, commits, page)
        }
        Planned::Empty => empty(turn, page),
        Planned::Refused(number) => turns::refused_by(turn, number, 0, page),
    }
}

// The clock's note, where the plan's second lies before that of the plan before it.
fn noted(turn: Turn, asker: Asker, clock: &mut [u64], page: &mut [u8]) -> Turn {
    let second = numeral::second(asker.end);
    let by = day_clock::passed(clock, second);
    if by == 0 {
        return turn;
    }
    let at = page::make_room(turn.rt, page, turn.used);
    let used = shown::clock_back(page, at, turn.number, by, second);
    turns::done(turn, used)
}

fn headed(turn: Turn, asker: Asker, draws: u64, slots: u64, page: &mut [u8]) -> Turn {
    let at = page::make_room(turn.rt, page, turn.used);
    let second = numeral::second(asker.end);
    let used = shown::plan_head(
        page,
        at,
        turn.number,
        second,
        asker.sequences as u64,
        draws,
        slots,
    );
    turns::done(turn, used)
}

// What each of so many sequences drafts and commits.
fn ended(turn: Turn, sequences: usize, drafts: &[u32], commits: &[u32], page: &mut [u8]) -> Turn {
    if drafts.len() < sequences || commits.len() < sequences {
        return turn;
    }
    let used = shown::plan_lists(
        page,
        turn.used,
        &drafts[0..sequences],
        &commits[0..sequences],
    );
    turns::done(turn, used)
}

fn empty(turn: Turn, page: &mut [u8]) -> Turn {
    let at = page::make_room(turn.rt, page, turn.used);
    let used = shown::plan_empty(page, at, turn.number);
    turns::done(turn, used)
}
