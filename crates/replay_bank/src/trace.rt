// A case of a bank: `b ANSWER SUM1 SUM2 RUST COMMITS SIGNALS CURVE LENGTH TEXT`.
ghost use Rattle.std.specs.Prelude.{◌≤◌, length};

use crate::column;
use crate::column::Column;
use cases::sums::Sums;

// What we answer, and the sums over the three buffers as we leave them.
#[derive(Clone, Copy)]
pub struct Outcome {
    pub answer: Column,
    pub sums: Sums,
}

// Reads the text into as much room as the three columns of digits say.
pub fn run(text: &[u8], commits: &[u8], signals: &[u8], curve: &[u8]) -> Outcome {
    let mut whole_commits = [0xDEAD_BEEFu32; 512];
    let mut whole_signals = [42.0f64; 16384];
    let mut whole_curve = [42.0f64; 80];
    run_within(
        text,
        slots(commits, 512),
        slots(signals, 16384),
        slots(curve, 80),
        &mut whole_commits,
        &mut whole_signals,
        &mut whole_curve,
    )
}

// The number that digits spell, and at most `most`.
fn slots(digits: &[u8], most: usize) -> usize
    ensures { result ≤ most }
{
    let Ok(n) = numeral::whole(digits) else {
        return 0;
    };
    (n as usize).min(most)
}

// Lends so many slots of each buffer.
fn run_within(
    text: &[u8],
    c: usize,
    s: usize,
    g: usize,
    commits: &mut [u32],
    signals: &mut [f64],
    curve: &mut [f64],
) -> Outcome
    requires c_in_bounds { c ≤ length commits.old }
    requires s_in_bounds { s ≤ length signals.old }
    requires g_in_bounds { g ≤ length curve.old }
{
    run_in(
        text,
        &mut commits[0..c],
        &mut signals[0..s],
        &mut curve[0..g],
    )
}

fn run_in(text: &[u8], commits: &mut [u32], signals: &mut [f64], curve: &mut [f64]) -> Outcome {
    let answer = bank::read(text, commits, signals, curve);
    let sums = Sums::new()
        .and_list(commits)
        .and_list(signals)
        .and_list(curve);
    Outcome {
        answer: column::of_bank(answer),
        sums,
    }
}
