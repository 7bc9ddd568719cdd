// Signals and curves. The words of a survival chain are its length and the list of the signal's first confidences; the slots past them hold a
// NaN. Those of a curve are whether there is a table, gamma, and two lists: the roofline and the measured curve.
ghost use Rattle.std.specs.Prelude.{◌≤◌, length};

use cases::{answers, lists, tally, words};
use goodput::curve::Source;
use goodput::survival::Survival;
use goodput::{curve, survival};

// The bits of a NaN.
const NAN: u64 = 0x7FF8_0000_0000_0000;

pub fn print(rt: HostRuntime, counts: &[u64]) {
    tally::print_kind(rt, counts, b's', b"survival_chain");
    tally::print_kind(rt, counts, b'c', b"curve");
}

pub fn signal(kind: u8, input: &[u64], ours: &mut [u64]) -> usize
    ensures { result ≤ length ours.new }
{
    if kind == b's' {
        return put_survival(ours, chain(input));
    }
    if kind == b'c' {
        return prices(input, ours);
    }
    0
}

fn chain(input: &[u64]) -> Survival {
    let mut signal = [float::of_bits(NAN); 64];
    lists::floats(input, 1, &mut signal);
    survival::survival_chain(signal, words::at(input, 0) as usize)
}

// The refusal, and the 64 slots.
fn put_survival(ours: &mut [u64], survival: Survival) -> usize
    ensures { result ≤ length ours.new }
{
    let at = answers::one(ours, survival.refusal);
    let chain = survival.chain;
    answers::put_floats(ours, at, &chain)
}

// Lends both curves.
fn prices(input: &[u64], ours: &mut [u64]) -> usize
    ensures { result ≤ length ours.new }
{
    let mut roofline = [0.0f64; 128];
    let r = lists::floats(input, 2, &mut roofline);
    let second = lists::behind(input, 2, r);
    let mut measured = [0.0f64; 128];
    let m = lists::floats(input, second, &mut measured);
    put_curve(input, &roofline[0..r], &measured[0..m], ours)
}

// The entries that come back, as a list.
fn put_curve<'a>(input: &[u64], roofline: &'a [f64], measured: &'a [f64], ours: &mut [u64]) -> usize
    ensures { result ≤ length ours.new }
{
    let gamma = words::at(input, 1) as usize;
    let entries = curve::curve(roofline, measured, source_of(words::at(input, 0)), gamma);
    let at = answers::two(ours, 0, entries.len() as u64);
    answers::put_floats(ours, at, entries)
}

fn source_of(has_table: u64) -> Source {
    if has_table == 0 {
        return Source::Roofline;
    }
    Source::Table
}
