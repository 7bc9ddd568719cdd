// What a host is answered: the number of the refusal, 0 for none, and the figures, each 0 where there are none.
ghost use Rattle.std.specs.Prelude.{◌≡◌};
ghost use Rattle.ledger_rows.specs.Layout.{room};
ghost use Rattle.host.specs.Answers.{answer_of, count_of, figure_of, no_worker, found_of, planned_of, not_read, bank_of, table_of, without_rounds, settling_of};

use bank_judge::BankSize;
use judged_plans::Planned;
use ledger::answer::Held;
use ledger_rows::layout::ROOM;
use refusals::{Refusal, RefusedRow};
use width_way::Settling;

// The draws that a plan used and the slots that it weighed.
#[repr(C)]
#[derive(Clone, Copy)]
pub struct HostPlan {
    pub refusal: u64,
    pub used: usize,
    pub weighed: usize,
}

#[repr(C)]
#[derive(Clone, Copy)]
pub struct HostCount {
    pub refusal: u64,
    pub count: u64,
}

#[repr(C)]
#[derive(Clone, Copy)]
pub struct HostFigure {
    pub refusal: u64,
    pub value: f64,
}

// `held` is 1 for a worker that is held, else 0.
#[repr(C)]
#[derive(Clone, Copy)]
pub struct HostWorker {
    pub refusal: u64,
    pub held: u64,
    pub width: u64,
    pub rounds: u64,
    pub stall: f64,
}

// A file that was read, or the row that it is refused for. A table has no depth.
#[repr(C)]
#[derive(Clone, Copy)]
pub struct HostRead {
    pub refusal: u64,
    pub row: u64,
    pub rows: u32,
    pub depth: u32,
}

// What becomes of a width. `settles` is 1 where it is the target after at most so many rounds, by so many walks; 2 at once; 3 never, for max_step
// is 0; 4 where the target is no candidate; 0 where it is refused. `width` is where 3 and 4 come to and stay.
#[repr(C)]
#[derive(Clone, Copy)]
pub struct HostSettling {
    pub refusal: u64,
    pub settles: u64,
    pub rounds: u64,
    pub walks: u64,
    pub width: u64,
}

// The words that a planner takes.
pub fn room() -> usize
    ensures { result ≡ room }
{
    ROOM
}

#[tactic(auto, unfolding(crate::specs::Answers::answer_of))]
pub fn of_answer(answer: Result<(), Refusal>) -> u64
    ensures { result ≡ answer_of answer }
{
    refusals::number_in(answer)
}

#[tactic(auto, unfolding(crate::specs::Answers::count_of))]
pub fn of_count(answer: Result<u64, Refusal>) -> HostCount
    ensures { result ≡ count_of answer }
{
    match answer {
        Ok(count) => HostCount { refusal: 0, count },
        Err(refusal) => HostCount {
            refusal: refusal.number(),
            count: 0,
        },
    }
}

// A stall, a mean or the seconds of a draft.
#[tactic(auto, unfolding(crate::specs::Answers::figure_of))]
pub fn of_figure(answer: Result<f64, Refusal>) -> HostFigure
    ensures { result ≡ figure_of answer }
{
    match answer {
        Ok(value) => HostFigure { refusal: 0, value },
        Err(refusal) => HostFigure {
            refusal: refusal.number(),
            value: 0.0,
        },
    }
}

fn no_worker(number: u64) -> HostWorker
    ensures { result ≡ no_worker number }
{
    HostWorker {
        refusal: number,
        held: 0,
        width: 0,
        rounds: 0,
        stall: 0.0,
    }
}

#[tactic(auto, unfolding(crate::specs::Answers::found_of))]
pub fn of_found(answer: Result<Option<Held>, Refusal>) -> HostWorker
    ensures { result ≡ found_of answer }
{
    match answer {
        Ok(Some(held)) => HostWorker {
            refusal: 0,
            held: 1,
            width: held.width,
            rounds: held.rounds,
            stall: float::of_bits(held.stall),
        },
        Ok(None) => no_worker(0),
        Err(refusal) => no_worker(refusal.number()),
    }
}

#[tactic(auto, unfolding(crate::specs::Answers::planned_of))]
pub fn of_planned(answer: Planned) -> HostPlan
    ensures { result ≡ planned_of answer }
{
    match answer {
        Planned::Plan { used, weighed } => HostPlan {
            refusal: 0,
            used,
            weighed,
        },
        Planned::Empty => HostPlan {
            refusal: 0,
            used: 0,
            weighed: 0,
        },
        Planned::Refused(number) => HostPlan {
            refusal: number,
            used: 0,
            weighed: 0,
        },
    }
}

fn not_read(refused: RefusedRow) -> HostRead
    ensures { result ≡ not_read refused }
{
    HostRead {
        refusal: refused.refusal.number(),
        row: refused.row,
        rows: 0,
        depth: 0,
    }
}

#[tactic(auto, unfolding(crate::specs::Answers::bank_of))]
pub fn of_bank(answer: Result<BankSize, RefusedRow>) -> HostRead
    ensures { result ≡ bank_of answer }
{
    match answer {
        Ok(size) => HostRead {
            refusal: 0,
            row: 0,
            rows: size.rounds,
            depth: size.depth,
        },
        Err(refused) => not_read(refused),
    }
}

#[tactic(auto, unfolding(crate::specs::Answers::table_of))]
pub fn of_table(answer: Result<u32, RefusedRow>) -> HostRead
    ensures { result ≡ table_of answer }
{
    match answer {
        Ok(rows) => HostRead {
            refusal: 0,
            row: 0,
            rows,
            depth: 0,
        },
        Err(refused) => not_read(refused),
    }
}

// An answer that has neither rounds nor walks.
fn without_rounds(refusal: u64, settles: u64, width: u32) -> HostSettling
    ensures { result ≡ without_rounds refusal settles width }
{
    HostSettling {
        refusal,
        settles,
        rounds: 0,
        walks: 0,
        width: width as u64,
    }
}

#[tactic(auto, unfolding(crate::specs::Answers::settling_of))]
pub fn of_settling(answer: Settling) -> HostSettling
    ensures { result ≡ settling_of answer }
{
    match answer {
        Settling::Within { rounds, walks } => HostSettling {
            refusal: 0,
            settles: 1,
            rounds,
            walks: walks as u64,
            width: 0,
        },
        Settling::AtOnce => without_rounds(0, 2, 0),
        Settling::NoStep(width) => without_rounds(0, 3, width),
        Settling::NoCandidate(width) => without_rounds(0, 4, width),
        Settling::Refused(number) => without_rounds(number, 0, 0),
    }
}
