// What the survival chains of a batch give: the batch's depth, and each sequence's own draft, for a caller that has judged what
// it lends.
#![tactic(auto)]

ghost use Rattle.std.specs.Prelude.{◌≡◌, ◌+◌, ◌*◌, ◌≤◌, ◌<◌, length, replicate, true};
ghost use Rattle.std.proofs.lemmas.List.Edits.{sets};
ghost use Rattle.settings.specs.Settings.{is_trace};
ghost use Rattle.rounds.specs.Signals.{Zeros};
ghost use Rattle.slots.specs.Slots.{Fits};
ghost use Rattle.slots.specs.Gate.{Chosen};
ghost use Rattle.gating.specs.Chains.{chains_by};
ghost use Rattle.gating.specs.Batch.{Gate, gate_over, gate_of, Batched};

use acceptance::AcceptanceModel;
use asking::Ask;
use settings::Settings;
use speculative::drafter::{DrafterCost, Rates};
use verify_prices::PriceMode;

// The batch's depth, and how many slots were weighed.
#[derive(Clone, Copy)]
pub struct Gated {
    pub depth: u32,
    pub weighed: usize,
}

// The chains of the batch laid at the front of slots that all hold 0.0: those of the drawn rounds, or the model's for each
// sequence.
fn lay_chains(
    settings: Settings,
    ask: Ask,
    gamma: u32,
    positions: &[f64],
    signals: &[f64],
    indices: &[u32],
    chains: &mut [f64],
)
    requires gamma_bound { (gamma ≤ 64) × (ask.sequences ≤ 1024) × (ask.sequences * 64 ≤ length chains.old) × Zeros chains.old }
    requires sequences_in_bounds { is_trace settings.model ≡ true → ask.sequences ≤ length indices.now }
    ensures { chains.new ≡ sets chains.old 0 (chains_by settings.model positions.now signals.now ask.depth indices.now ask.sequences gamma) }
{
    let model = settings.model;
    let n = ask.sequences as usize;
    match model {
        AcceptanceModel::Constant(_) => {
            rounds::batch::lay_model(model, positions, gamma, n, chains)
        }
        AcceptanceModel::PerPosition => {
            rounds::batch::lay_model(model, positions, gamma, n, chains)
        }
        AcceptanceModel::Trace => {
            rounds::batch::lay_rounds(signals, ask.depth, gamma, &indices[..n], chains)
        }
    }
}

// The drafter's gate: a block head's is the block gate, any other's the ragged gate.
fn gate(
    chains: &[f64],
    lengths: &[u32],
    mode: PriceMode,
    curve: &[f64],
    depth: u32,
    kind: DrafterCost,
    rates: Rates,
    loaded: &[f64],
    drafts: &mut [u32],
) -> usize
    requires fits { Fits chains.now lengths.now (length lengths.now) }
    requires depth_in_bounds { (depth < length curve.now) × (length curve.now ≤ 65) }
    requires drafts_len { length drafts.old ≡ length lengths.now }
    ensures { record { widths = drafts.new; weighed = result } ≡ gate_of mode kind rates loaded.now curve.now lengths.now chains.now depth }
{
    if speculative::drafter::is_block(kind) {
        return block::inner::gated_block_verify(
            chains, lengths, mode, curve, depth, kind, rates, loaded, drafts,
        );
    }
    ragged::inner::gated_ragged_draft(
        chains, lengths, mode, curve, depth, kind, rates, loaded, drafts,
    )
}

// The batch's depth over chains that are all as long as gamma; where each sequence has its own draft, it is written.
fn gate_laid(
    settings: Settings,
    ask: Ask,
    gamma: u32,
    own: bool,
    chains: &[f64],
    lengths: &[u32],
    loaded: &[f64],
    curve: &[f64],
    drafts: &mut [u32],
) -> Gated
    requires lengths_value { (lengths.now ≡ replicate ask.sequences gamma) × (ask.sequences * 64 ≤ length chains.now) }
    requires gamma_bound { (gamma ≤ 64) × (ask.sequences ≤ 1024) × (length curve.now ≡ gamma + 1) × (length drafts.old ≡ ask.sequences) }
    ensures { record { depth = result.depth; weighed = result.weighed; drafts = drafts.new } ≡ gate_over own settings.prices settings.drafter ask.rates loaded.now curve.now ask.sequences gamma chains.now drafts.old }
{
    let kind = settings.drafter;
    let rates = ask.rates;
    let experts = speculative::inner::loaded_at(kind, loaded, lengths.len());
    let depth = depths::inner::gate_depth(chains, lengths, curve, kind, rates, experts);
    if own {
        let mode = settings.prices;
        let weighed = gate(
            chains, lengths, mode, curve, depth, kind, rates, loaded, drafts,
        );
        return Gated { depth, weighed };
    }
    Gated { depth, weighed: 0 }
}

// The chains are laid into a room for them, which holds 0.0, and the lengths are there.
fn gated_within(
    settings: Settings,
    ask: Ask,
    gamma: u32,
    own: bool,
    positions: &[f64],
    loaded: &[f64],
    signals: &[f64],
    indices: &[u32],
    curve: &[f64],
    lengths: &[u32],
    chains: &mut [f64],
    drafts: &mut [u32],
) -> Gated
    requires batched { Batched settings ask gamma indices.now curve.now drafts.old }
    requires lengths_value { (lengths.now ≡ replicate (length lengths.now) gamma) × (ask.sequences ≤ length lengths.now) × (ask.sequences * 64 ≤ length chains.old) × Zeros chains.old }
    ensures { record { depth = result.depth; weighed = result.weighed; drafts = drafts.new } ≡ gate_over own settings.prices settings.drafter ask.rates loaded.now curve.now ask.sequences gamma (chains_by settings.model positions.now signals.now ask.depth indices.now ask.sequences gamma) drafts.old }
{
    let n = ask.sequences as usize;
    lay_chains(settings, ask, gamma, positions, signals, indices, chains);
    let end = n * 64;
    gate_laid(
        settings,
        ask,
        gamma,
        own,
        &chains[..end],
        &lengths[..n],
        loaded,
        curve,
        drafts,
    )
}

// For at most N sequences, whose chains have SLOTS slots in all.
fn gated_roomy<const N: usize, const SLOTS: usize>(
    settings: Settings,
    ask: Ask,
    gamma: u32,
    own: bool,
    positions: &[f64],
    loaded: &[f64],
    signals: &[f64],
    indices: &[u32],
    curve: &[f64],
    drafts: &mut [u32],
) -> Gated
    requires batched { Batched settings ask gamma indices.now curve.now drafts.old }
    requires room { (ask.sequences ≤ N) × (N ≤ 1024) × (ask.sequences * 64 ≤ SLOTS) × (SLOTS ≤ 65536) }
    ensures { record { depth = result.depth; weighed = result.weighed; drafts = drafts.new } ≡ gate_over own settings.prices settings.drafter ask.rates loaded.now curve.now ask.sequences gamma (chains_by settings.model positions.now signals.now ask.depth indices.now ask.sequences gamma) drafts.old }
{
    let lengths = [gamma; N];
    let mut chains = [0.0f64; SLOTS];
    gated_within(
        settings,
        ask,
        gamma,
        own,
        positions,
        loaded,
        signals,
        indices,
        curve,
        &lengths,
        &mut chains,
        drafts,
    )
}

// For more than a few.
fn gated_more(
    settings: Settings,
    ask: Ask,
    gamma: u32,
    own: bool,
    positions: &[f64],
    loaded: &[f64],
    signals: &[f64],
    indices: &[u32],
    curve: &[f64],
    drafts: &mut [u32],
) -> Gated
    requires { Batched settings ask gamma indices.now curve.now drafts.old }
    ensures { record { depth = result.depth; weighed = result.weighed; drafts = drafts.new } ≡ gate_over own settings.prices settings.drafter ask.rates loaded.now curve.now ask.sequences gamma (chains_by settings.model positions.now signals.now ask.depth indices.now ask.sequences gamma) drafts.old }
{
    if ask.sequences <= 64 {
        return gated_roomy::<64, 4096>(
            settings, ask, gamma, own, positions, loaded, signals, indices, curve, drafts,
        );
    }
    gated_roomy::<1024, 65536>(
        settings, ask, gamma, own, positions, loaded, signals, indices, curve, drafts,
    )
}

// The batch's depth by its chains; where each sequence has its own draft, it is written. `gated_more` is called from two places, so that
// the compiler keeps it a call: the pages of its rooms, half a megabyte, are touched at each entry, and a small batch needs none of them.
pub fn gate_batch(
    settings: Settings,
    ask: Ask,
    gamma: u32,
    own: bool,
    positions: &[f64],
    loaded: &[f64],
    signals: &[f64],
    indices: &[u32],
    curve: &[f64],
    drafts: &mut [u32],
) -> Gated
    requires { Batched settings ask gamma indices.now curve.now drafts.old }
    ensures { record { depth = result.depth; weighed = result.weighed; drafts = drafts.new } ≡ gate_over own settings.prices settings.drafter ask.rates loaded.now curve.now ask.sequences gamma (chains_by settings.model positions.now signals.now ask.depth indices.now ask.sequences gamma) drafts.old }
{
    if ask.sequences <= 8 {
        return gated_roomy::<8, 512>(
            settings, ask, gamma, own, positions, loaded, signals, indices, curve, drafts,
        );
    }
    if own {
        return gated_more(
            settings, ask, gamma, true, positions, loaded, signals, indices, curve, drafts,
        );
    }
    gated_more(
        settings, ask, gamma, false, positions, loaded, signals, indices, curve, drafts,
    )
}
