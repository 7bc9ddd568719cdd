// The two gates. The words are those of a batch, as `plan_words::lent_chains` has them, with the mode of the prices behind gamma: 0 Default,
// any other Bridged. Without its first word such a list has the chains where a batch has them.
ghost use Rattle.std.specs.Prelude.{◌≤◌, length};

use cases::{answers, lists, tally, words};
use plan_words::{drafters, lent_chains};
use refusals::Refusal;
use verify_prices::inner::mode_of;

// What each slot of widths holds before a call.
const WHOLE_BEFORE: u32 = 0xDEAD_BEEF;

// Where the mode stands, and where the slots that are lent for the widths.
const MODE: usize = 10;

const ROOM: usize = 11;

// The letters under which the cases of the bridged mode are counted.
const BRIDGED_RAGGED: u8 = b's';

const BRIDGED_BLOCK: u8 = b'w';

pub fn print(rt: HostRuntime, counts: &[u64]) {
    tally::print_kind(rt, counts, b'r', b"gated_ragged_draft");
    tally::print_kind(rt, counts, BRIDGED_RAGGED, b"gated_ragged_draft bridged");
    tally::print_kind(rt, counts, b'v', b"gated_block_verify");
    tally::print_kind(rt, counts, BRIDGED_BLOCK, b"gated_block_verify bridged");
}

// The letter under which a case of a kind is counted.
pub fn counted_as(kind: u8, input: &[u64]) -> u8 {
    if words::at(input, MODE) == 0 {
        return kind;
    }
    if kind == b'r' {
        return BRIDGED_RAGGED;
    }
    BRIDGED_BLOCK
}

// Lends the chains and their lengths.
pub fn batch(kind: u8, input: &[u64], room: &mut [f64], ours: &mut [u64]) -> usize
    ensures { result ≤ length ours.new }
{
    if input.len() == 0 {
        return 0;
    }
    let slots = lent_chains::fill(&input[1..], room);
    let place = lent_chains::lengths_at(&input[1..]) + 1;
    let mut lengths = [0u32; 1088];
    let n = lists::whole_numbers(input, place, &mut lengths);
    let next = lists::behind(input, place, n);
    with_lengths(kind, input, &room[0..slots], &lengths[0..n], next, ours)
}

// Lends the curve and the loaded experts, which stand at a place.
fn with_lengths(
    kind: u8,
    input: &[u64],
    chains: &[f64],
    lengths: &[u32],
    place: usize,
    ours: &mut [u64],
) -> usize
    ensures { result ≤ length ours.new }
{
    let mut curve = [0.0f64; 128];
    let c = lists::floats(input, place, &mut curve);
    let next = lists::behind(input, place, c);
    let mut loaded = [0.0f64; 1088];
    let l = lists::floats(input, next, &mut loaded);
    weigh(
        kind,
        input,
        chains,
        lengths,
        &curve[0..c],
        &loaded[0..l],
        ours,
    )
}

// Lends as many slots for the widths as the words say.
fn weigh(
    kind: u8,
    input: &[u64],
    chains: &[f64],
    lengths: &[u32],
    curve: &[f64],
    loaded: &[f64],
    ours: &mut [u64],
) -> usize
    ensures { result ≤ length ours.new }
{
    let mut widths = [WHOLE_BEFORE; 1088];
    let room = words::least_at(input, ROOM, 1088);
    gate_in(
        kind,
        input,
        chains,
        lengths,
        curve,
        loaded,
        &mut widths[0..room],
        ours,
    )
}

fn gate_in(
    kind: u8,
    input: &[u64],
    chains: &[f64],
    lengths: &[u32],
    curve: &[f64],
    loaded: &[f64],
    widths: &mut [u32],
    ours: &mut [u64],
) -> usize
    ensures { result ≤ length ours.new }
{
    let gated = gate(kind, input, chains, lengths, curve, loaded, widths);
    let at = put_gated(ours, gated);
    answers::put_whole_numbers(ours, at, widths)
}

fn gate(
    kind: u8,
    input: &[u64],
    chains: &[f64],
    lengths: &[u32],
    curve: &[f64],
    loaded: &[f64],
    widths: &mut [u32],
) -> Result<usize, Refusal> {
    let gamma = words::whole_at(input, 9);
    let mode = mode_of(words::whole_at(input, MODE));
    let head = drafters::drafter_of(input);
    let rates = drafters::rates_at(input, 6, 7, 8);
    if kind == b'r' {
        return gates::gated_ragged_draft(
            chains, lengths, curve, gamma, mode, head, rates, loaded, widths,
        );
    }
    gates::gated_block_verify(
        chains, lengths, curve, gamma, mode, head, rates, loaded, widths,
    )
}

// The refusal, and the slots weighed.
fn put_gated(ours: &mut [u64], gated: Result<usize, Refusal>) -> usize
    ensures { result ≤ length ours.new }
{
    match gated {
        Ok(weighed) => answers::two(ours, 0, weighed as u64),
        Err(refusal) => answers::two(ours, refusal.number(), 0),
    }
}
