// The sizes of what a plan is asked with.
ghost use Rattle.std.specs.Prelude.{◌≡◌};
ghost use Rattle.asked_rooms.specs.Sizes.{bank_fits, table_fits, sizes_judged};

use acceptance::AcceptanceModel;
use goodput::curve::Source;
use refusals::Refusal;

// The most drafts, sequences, rounds of a bank, and rows of a table.
const MOST_GAMMA: u32 = 64;

const MOST_SEQUENCES: u32 = 1024;

const MOST_ROUNDS: u32 = 65536;

const MOST_ROWS: usize = 4096;

// Whether the bank of a trace has a depth of 1 to 64 and no more rounds than it may have.
fn bank_fits(model: AcceptanceModel, depth: u32, rounds: u32) -> bool
    ensures { result ≡ bank_fits model depth rounds }
{
    match model {
        AcceptanceModel::Constant(_) | AcceptanceModel::PerPosition => true,
        AcceptanceModel::Trace => 1 <= depth && depth <= MOST_GAMMA && rounds <= MOST_ROUNDS,
    }
}

// Whether a table has no more rows than it may have.
fn table_fits(source: Source, rows: usize) -> bool
    ensures { result ≡ table_fits source rows }
{
    match source {
        Source::Roofline => true,
        Source::Table => rows <= MOST_ROWS,
    }
}

// Refused where gamma, the number of sequences, a trace's bank or a table is too large.
#[tactic(auto, unfolding(crate::specs::Sizes::sizes_judged))]
pub fn judge_sizes(
    model: AcceptanceModel,
    gamma: u32,
    n: u32,
    depth: u32,
    rounds: u32,
    source: Source,
    rows: usize,
) -> Result<(), Refusal>
    ensures { result ≡ sizes_judged model gamma n depth rounds source rows }
{
    let few = gamma <= MOST_GAMMA && n <= MOST_SEQUENCES;
    if few && bank_fits(model, depth, rounds) && table_fits(source, rows) {
        Ok(())
    } else {
        Err(Refusal::Size)
    }
}
