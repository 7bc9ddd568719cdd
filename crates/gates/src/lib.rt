// The two gates: which slots of the sequences' drafts are worth their price. Both take every chain, curve, drafter, rate and list: what is lent is
// judged first, and nothing is written where it is refused.
#![tactic(auto)]

ghost use Rattle.std.specs.Prelude.{◌≡◌};
ghost use Rattle.gates.specs.Entry.{room_judged, ragged_answer, block_answer};

use goodput::depth::aggregate_depth;
use refusals::Refusal;
use speculative::drafter::{DrafterCost, Rates, judge_drafter};
use verify_prices::PriceMode;

// The most drafts, and the most sequences.
const MOST_GAMMA: u32 = 64;

const MOST_SEQUENCES: usize = 1024;

// The ragged gate: every sequence drafts to the batch's best depth or to its chain's end, and the deepest slots are given back while that pays. The
// chains stand one after the other, 64 slots each, each with its length; the curve has a price for each depth from 0 to gamma; `loaded` has the routed
// experts that each number of sequences loads, and is looked at for an autoregressive head alone. The widths worth drafting stand at the front of
// `widths`. 12, 11, then 16 where the widths, the chains, the curve or the loaded experts are too short, then 15.
pub fn gated_ragged_draft(
    chains: &[f64],
    lengths: &[u32],
    curve: &[f64],
    gamma: u32,
    mode: PriceMode,
    drafter: DrafterCost,
    rates: Rates,
    loaded: &[f64],
    widths: &mut [u32],
) -> Result<usize, Refusal>
    ensures { record { answer = result; widths = widths.new } ≡ ragged_answer chains.now lengths.now curve.now gamma drafter rates loaded.now mode widths.old }
{
    judge_room(drafter, gamma, lengths.len(), widths.len())?;
    let depth = aggregate_depth(chains, lengths, curve, gamma, drafter, rates, loaded)?;
    let n = lengths.len();
    let count = gamma as usize + 1;
    let weighed = ragged::inner::gated_ragged_draft(
        chains,
        lengths,
        mode,
        &curve[..count],
        depth,
        drafter,
        rates,
        loaded,
        &mut widths[..n],
    );
    Ok(weighed)
}

// The block gate: the drafter's block at the batch's best depth is paid for, and slots are added to the verify while each pays. What is lent, written
// and refused is as for the ragged gate.
pub fn gated_block_verify(
    chains: &[f64],
    lengths: &[u32],
    curve: &[f64],
    gamma: u32,
    mode: PriceMode,
    drafter: DrafterCost,
    rates: Rates,
    loaded: &[f64],
    widths: &mut [u32],
) -> Result<usize, Refusal>
    ensures { record { answer = result; widths = widths.new } ≡ block_answer chains.now lengths.now curve.now gamma drafter rates loaded.now mode widths.old }
{
    judge_room(drafter, gamma, lengths.len(), widths.len())?;
    let depth = aggregate_depth(chains, lengths, curve, gamma, drafter, rates, loaded)?;
    let n = lengths.len();
    let count = gamma as usize + 1;
    let weighed = block::inner::gated_block_verify(
        chains,
        lengths,
        mode,
        &curve[..count],
        depth,
        drafter,
        rates,
        loaded,
        &mut widths[..n],
    );
    Ok(weighed)
}

// 12, 11, then 16 where there is no room for a width of each sequence.
#[tactic(auto, unfolding(crate::specs::Entry::room_judged, goodput_judges::specs::Refusals::sizes_judged, goodput_judges::specs::Refusals::counts_judged))]
fn judge_room(drafter: DrafterCost, gamma: u32, n: usize, room: usize) -> Result<(), Refusal>
    ensures { result ≡ room_judged drafter gamma n room }
{
    judge_drafter(drafter)?;
    if MOST_GAMMA < gamma || MOST_SEQUENCES < n {
        return Err(Refusal::Size);
    }
    if n <= room {
        Ok(())
    } else {
        Err(Refusal::ShortBuffer)
    }
}
