// A row of the seconds as a sample, and many. Callers keep the storage long enough, and the buffers.
ghost use Rattle.std.specs.Prelude.{◌≡◌, ◌<◌, ◌≤◌, length, slice_set};
ghost use Rattle.float.specs.Floats.{f0};
ghost use Rattle.ledger_rows.specs.Layout.{room, seconds_most};
ghost use Rattle.ledger_series.specs.Series.{mean_of, sample_at, second_of, mean_of_drafts, mean_batch, mean_of_committed, up_to, front, added, figure_of};

use crate::DepthSample;
use ledger_rows::layout::{COMMITTED, DRAFTS, SECOND, SECONDS, SEQUENCES, STEPS};

// A sum divided once by a count, which is taken as 1 where it is 0.
fn mean(sum: u64, count: u64) -> f64
    ensures { result ≡ mean_of sum count }
{
    std::num::nearest_u64_to_f64(sum) / std::num::nearest_u64_to_f64(count.max(1))
}

// Row `row` as a sample.
#[tactic(auto, unfolding(crate::specs::Series::second_of, crate::specs::Series::mean_of_drafts, crate::specs::Series::mean_batch, crate::specs::Series::mean_of_committed))]
fn sample(words: &[u64], row: usize) -> DepthSample
    requires { (row < seconds_most) × (room ≤ length words.now) }
    ensures { result ≡ sample_at words.now row }
{
    let at = SECONDS + SECOND * row;
    let drafts = words[at + DRAFTS];
    let sequences = words[at + SEQUENCES];
    let committed = words[at + COMMITTED];
    let steps = words[at + STEPS];
    DepthSample {
        second: words[at],
        mean_draft: mean(drafts, sequences),
        mean_decode_batch: mean(sequences, steps),
        mean_committed: mean(committed, sequences),
    }
}

// A sample stored in place `row` of four buffers.
fn store(
    seconds: &mut [u64],
    mean_drafts: &mut [f64],
    mean_batches: &mut [f64],
    mean_committed: &mut [f64],
    row: usize,
    one: DepthSample,
)
    requires { (row < length seconds.old) × (row < length mean_drafts.old) × (row < length mean_batches.old) × (row < length mean_committed.old) }
    ensures { (seconds.new ≡ slice_set seconds.old row one.second) × (mean_drafts.new ≡ slice_set mean_drafts.old row one.mean_draft) × (mean_batches.new ≡ slice_set mean_batches.old row one.mean_decode_batch) × (mean_committed.new ≡ slice_set mean_committed.old row one.mean_committed) }
{
    seconds[row] = one.second;
    mean_drafts[row] = one.mean_draft;
    mean_batches[row] = one.mean_decode_batch;
    mean_committed[row] = one.mean_committed;
}

// The first `rows` rows as samples, at the fronts of four buffers.
#[tactic(auto, using(crate::proofs::Fronts::front_none, crate::proofs::Fronts::front_more))]
pub fn fill(
    words: &[u64],
    rows: usize,
    seconds: &mut [u64],
    mean_drafts: &mut [f64],
    mean_batches: &mut [f64],
    mean_committed: &mut [f64],
)
    requires { (rows ≤ seconds_most) × (room ≤ length words.now) × (rows ≤ length seconds.old) × (rows ≤ length mean_drafts.old) × (rows ≤ length mean_batches.old) × (rows ≤ length mean_committed.old) }
    ensures { (seconds.new ≡ front (second_of words.now) rows seconds.old) × (mean_drafts.new ≡ front (mean_of_drafts words.now) rows mean_drafts.old) × (mean_batches.new ≡ front (mean_batch words.now) rows mean_batches.old) × (mean_committed.new ≡ front (mean_of_committed words.now) rows mean_committed.old) }
{
    for row in 0..rows {
        let one = sample(words, row);
        store(seconds, mean_drafts, mean_batches, mean_committed, row, one);
    }
}

// The mean drafts of the first `rows` rows, added in order from 0.0.
#[tactic(auto, using(crate::proofs::Means::added_none, crate::proofs::Means::added_more))]
fn total(words: &[u64], rows: usize) -> f64
    requires { (rows ≤ seconds_most) × (room ≤ length words.now) }
    ensures { result ≡ added f0 (up_to (mean_of_drafts words.now) rows) }
{
    let mut sum = 0.0;
    for row in 0..rows {
        sum += sample(words, row).mean_draft;
    }
    sum
}

// Their sum divided once by how many there are; 0.0 for none.
#[tactic(auto, using(crate::proofs::Means::figure_none, crate::proofs::Means::figure_some))]
pub fn figure(words: &[u64], rows: usize) -> f64
    requires { (rows ≤ seconds_most) × (room ≤ length words.now) }
    ensures { result ≡ figure_of (up_to (mean_of_drafts words.now) rows) }
{
    if rows == 0 {
        return 0.0;
    }
    let sum = total(words, rows);
    sum / std::num::nearest_u64_to_f64(rows as u64)
}
