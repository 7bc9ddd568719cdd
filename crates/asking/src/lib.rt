// What of a plan's inputs is refused before anything is drawn: the sizes, the rooms, the values.
#![tactic(auto)]

mod values;

ghost use Rattle.std.specs.Prelude.{◌≡◌, length};
ghost use Rattle.asking.specs.Asked.{lists_of, lengths_of, asked_judged};

pub use asked_rooms::Ask;
use asked_rooms::{Lengths, rooms, sizes};
use refusals::Refusal;
use settings::Settings;

// The lists that a plan is lent to read; `positions` stand beside the settings.
#[derive(Clone, Copy)]
pub struct Inputs<'a> {
    pub positions: &'a [f64],
    pub roofline: &'a [f64],
    // the cost table, a column each
    pub depths: &'a [u32],
    pub batches: &'a [u32],
    pub seconds: &'a [f64],
    // the routed experts that each number of sequences loads
    pub loaded: &'a [f64],
    pub bank_commits: &'a [u32],
    pub signals: &'a [f64],
    pub bank_curve: &'a [f64],
    pub draws: &'a [f64],
    pub indices: &'a [u32],
}

// How long all that is lent is; `drafts` and `commits` are how many there is room for.
fn lengths(inputs: Inputs, storage: usize, drafts: usize, commits: usize) -> Lengths
    ensures { result ≡ lengths_of (lists_of inputs.entry) storage drafts commits }
{
    Lengths {
        storage,
        drafts,
        commits,
        roofline: inputs.roofline.len(),
        depths: inputs.depths.len(),
        batches: inputs.batches.len(),
        seconds: inputs.seconds.len(),
        loaded: inputs.loaded.len(),
        bank_commits: inputs.bank_commits.len(),
        signals: inputs.signals.len(),
        bank_curve: inputs.bank_curve.len(),
    }
}

// The sizes, then the rooms, then the values. `drafts` and `commits` are how many there is room for.
#[tactic(auto, using(crate::proofs::Passed::rooms_storage, crate::proofs::Passed::columns_fit_lem), unfolding(crate::specs::Asked::asked_judged))]
pub fn judge_ask(
    settings: Settings,
    ask: Ask,
    inputs: Inputs,
    storage: &[u64],
    drafts: usize,
    commits: usize,
) -> Result<(), Refusal>
    ensures { result ≡ asked_judged settings ask (lists_of inputs.entry) storage.now drafts commits }
{
    sizes::judge_sizes(
        settings.model,
        settings.gamma,
        ask.sequences,
        ask.depth,
        ask.rounds,
        ask.source,
        ask.rows,
    )?;
    rooms::judge_rooms(
        settings,
        ask,
        lengths(inputs, storage.len(), drafts, commits),
    )?;
    values::judge_values(settings, ask, inputs, storage)
}
