// Whether the values that a plan uses are in range.
ghost use Rattle.std.specs.Prelude.{◌≡◌, true, cond, ◌+◌, ◌≤◌, eqb, length, take};
ghost use Rattle.cost_rows.specs.Table.{zip};
ghost use Rattle.switching.specs.Deciding.{is_record};
ghost use Rattle.ledger_rows.specs.Layout.{room};
ghost use Rattle.ledger_workers.specs.Workers.{past_of};
ghost use Rattle.asked_values.specs.Values.{prices_valued, loaded_valued, curve_valued, held_of, held_valued, policy_valued};
ghost use Rattle.asked_values.specs.Columns.{columns_fit};

use acceptance::AcceptanceModel;
use goodput::curve::Source;
use ledger_rows::layout::Past;
use settings::{Policy, Settings};
use speculative::drafter::DrafterCost;
use switch_settings::SwitchConstraints;

// The largest width and the most rounds of a worker's record.
const MOST_WIDTH: u64 = 64;

const MOST_ROUNDS: u64 = 4294967294;

// The entries up to `last`, uncopied, or all where there are fewer.
fn first_entries<'a>(s: &'a [f64], last: usize) -> &'a [f64]
    ensures { result.now ≡ take (last + 1) s.now }
{
    if last < s.len() {
        let end = last + 1;
        &s[..end]
    } else {
        s
    }
}

// Whether the prices in force are in range: the roofline's first gamma + 1, or the whole table's.
pub fn are_priced(
    source: Source,
    gamma: usize,
    roofline: &[f64],
    depths: &[u32],
    batches: &[u32],
    seconds: &[f64],
    rows: usize,
) -> bool
    requires { columns_fit source rows depths.now batches.now seconds.now ≡ true }
    ensures { result ≡ prices_valued source gamma roofline.now (zip rows depths.now batches.now seconds.now) }
{
    match source {
        Source::Roofline => chain_tests::are_prices(first_entries(roofline, gamma)),
        Source::Table => cost_lookup::judge_table(depths, batches, seconds, rows).is_ok(),
    }
}

// Whether the first n + 1 loaded experts are in range, which an autoregressive head alone reads.
pub fn are_loaded(drafter: DrafterCost, n: usize, loaded: &[f64]) -> bool
    ensures { result ≡ loaded_valued drafter n loaded.now }
{
    match drafter {
        DrafterCost::Fraction { .. } => true,
        DrafterCost::Autoregressive { .. } => chain_tests::are_up_to(first_entries(loaded, n), 1e6),
        DrafterCost::BlockParallel { .. } => true,
    }
}

// Whether the first gamma + 1 entries of a trace's curve are in range.
fn is_curve(model: AcceptanceModel, gamma: usize, curve: &[f64]) -> bool
    ensures { result ≡ curve_valued model gamma curve.now }
{
    match model {
        AcceptanceModel::Constant(_) => true,
        AcceptanceModel::PerPosition => true,
        AcceptanceModel::Trace => chain_tests::are_up_to(first_entries(curve, gamma), 64.0),
    }
}

// Whether a worker's record, if there is one, is one that switching takes.
fn is_held(past: Past) -> bool
    ensures { result ≡ cond (eqb past.kind 2) (is_record (held_of past)) true }
{
    if past.kind != 2 {
        return true;
    }
    if MOST_WIDTH < past.width {
        return false;
    }
    if MOST_ROUNDS < past.rounds {
        return false;
    }
    let stall = float::of_bits(past.stall);
    if float::is_finite(stall) {
        float::is_clear(stall)
    } else {
        false
    }
}

// Whether the worker's record is in range where it is used: where the switching is constrained.
fn is_past(switch: SwitchConstraints, storage: &[u64], a: u64, b: u64) -> bool
    requires { room ≤ length storage.now }
    ensures { result ≡ held_valued switch (past_of storage.now a b) }
{
    if switch.is_unconstrained() {
        return true;
    }
    is_held(ledger_workers::inner::past(storage, a, b))
}

// Whether what the policy reads besides the prices is in range.
pub fn is_read(
    settings: Settings,
    gamma: usize,
    curve: &[f64],
    storage: &[u64],
    a: u64,
    b: u64,
) -> bool
    requires { room ≤ length storage.now }
    ensures { result ≡ policy_valued settings.policy settings.model settings.switch gamma curve.now (past_of storage.now a b) }
{
    let policy = settings.policy;
    let model = settings.model;
    let switch = settings.switch;
    match policy {
        Policy::Fixed => true,
        Policy::GoodputBudget => is_curve(model, gamma, curve),
        Policy::GatedBudget => true,
        Policy::GatedAggregate => is_past(switch, storage, a, b),
    }
}
