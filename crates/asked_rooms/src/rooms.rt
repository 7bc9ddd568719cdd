// The lengths of what a plan is lent.
ghost use Rattle.std.specs.Prelude.{◌≡◌, ◌*◌};
ghost use Rattle.settings.specs.Settings.{uses_costs};
ghost use Rattle.asked_rooms.specs.Rooms.{own_rooms, price_rooms, loaded_room, cost_rooms, signal_rooms, bank_rooms, rooms_judged};

use crate::{Ask, Lengths};
use acceptance::AcceptanceModel;
use goodput::curve::Source;
use ledger_rows::layout::ROOM;
use refusals::Refusal;
use settings::{Policy, Settings};
use speculative::drafter::DrafterCost;

// Whether there is room for the storage, and for the drafts and the commits of n sequences.
fn own_rooms(n: usize, l: Lengths) -> bool
    ensures { result ≡ own_rooms n l }
{
    ROOM <= l.storage && n <= l.drafts && n <= l.commits
}

// Whether the roofline has gamma + 1 entries, or each column of the table its rows.
pub fn price_rooms(source: Source, gamma: usize, rows: usize, l: Lengths) -> bool
    ensures { result ≡ price_rooms source gamma rows l }
{
    match source {
        Source::Roofline => gamma < l.roofline,
        Source::Table => rows <= l.depths && rows <= l.batches && rows <= l.seconds,
    }
}

// Whether there are n + 1 loaded experts, which an autoregressive head alone reads.
fn loaded_room(drafter: DrafterCost, n: usize, l: Lengths) -> bool
    ensures { result ≡ loaded_room drafter n l }
{
    match drafter {
        DrafterCost::Autoregressive { .. } => n < l.loaded,
        DrafterCost::Fraction { .. } | DrafterCost::BlockParallel { .. } => true,
    }
}

// Whether the policy looks at costs.
pub fn uses_costs(policy: Policy) -> bool
    ensures { result ≡ uses_costs policy }
{
    match policy {
        Policy::Fixed => false,
        Policy::GoodputBudget | Policy::GatedBudget | Policy::GatedAggregate => true,
    }
}

// Whether what the policy reads of the costs is long enough. `Fixed` looks at no cost.
fn cost_rooms(
    policy: Policy,
    drafter: DrafterCost,
    source: Source,
    gamma: usize,
    n: usize,
    rows: usize,
    l: Lengths,
) -> bool
    ensures { result ≡ cost_rooms policy drafter source gamma n rows l }
{
    !uses_costs(policy) || price_rooms(source, gamma, rows, l) && loaded_room(drafter, n, l)
}

// How many signals the rounds of a bank have.
fn signals_of(rounds: u32, depth: u32) -> usize
    ensures { result ≡ rounds * depth }
{
    rounds as usize * depth as usize
}

// Whether the bank's curve has gamma + 1 entries, or its rounds all their signals: what the policy reads of them.
fn signal_rooms(policy: Policy, gamma: usize, depth: u32, rounds: u32, l: Lengths) -> bool
    ensures { result ≡ signal_rooms policy gamma depth rounds l }
{
    match policy {
        Policy::Fixed => true,
        Policy::GoodputBudget => gamma < l.bank_curve,
        Policy::GatedBudget | Policy::GatedAggregate => signals_of(rounds, depth) <= l.signals,
    }
}

// Whether what is read of a bank, which a trace alone has, is long enough.
fn bank_rooms(
    model: AcceptanceModel,
    policy: Policy,
    gamma: usize,
    depth: u32,
    rounds: u32,
    l: Lengths,
) -> bool
    ensures { result ≡ bank_rooms model policy gamma depth rounds l }
{
    match model {
        AcceptanceModel::Constant(_) | AcceptanceModel::PerPosition => true,
        AcceptanceModel::Trace => {
            rounds as usize <= l.bank_commits && signal_rooms(policy, gamma, depth, rounds, l)
        }
    }
}

// Refused where a buffer that the plan uses is too short.
#[tactic(auto, unfolding(crate::specs::Rooms::rooms_judged))]
pub fn judge_rooms(settings: Settings, ask: Ask, lengths: Lengths) -> Result<(), Refusal>
    ensures { result ≡ rooms_judged settings ask lengths }
{
    let gamma = settings::gamma_in(settings, ask.depth) as usize;
    let n = ask.sequences as usize;
    let policy = settings.policy;
    if own_rooms(n, lengths)
        && cost_rooms(
            policy,
            settings.drafter,
            ask.source,
            gamma,
            n,
            ask.rows,
            lengths,
        )
        && bank_rooms(
            settings.model,
            policy,
            gamma,
            ask.depth,
            ask.rounds,
            lengths,
        )
    {
        Ok(())
    } else {
        Err(Refusal::ShortBuffer)
    }
}
