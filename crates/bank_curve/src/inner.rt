// The curve of a bank: for each depth the mean of min(commits, depth) over the rounds.
ghost use Rattle.std.specs.Prelude.{◌≡◌, false, suc, ◌+◌, ◌^◌, ◌≤◌, ◌<◌, min, length, set};
ghost use Rattle.std.proofs.lemmas.List.Edits.{sets};
ghost use Rattle.std.specs.Float.{binary64};
ghost use Rattle.std.specs.Float.Ieee.{round};
ghost use Rattle.bank_curve.specs.Curve.{sum_up_to, curve_from};

// A value put at a place, and the next place: past the end nothing is put.
pub fn put<T: Copy>(buffer: &mut [T], at: usize, value: T) -> usize
    requires { at ≤ length buffer.old }
    ensures next { result ≡ min (at + 1) (length buffer.old) }
    ensures stored { buffer.new ≡ set buffer.old at value }
{
    if at < buffer.len() {
        buffer[at] = value;
        return at + 1;
    }
    at
}

// The sum of min(commits, g) over the rounds.
fn sum_up_to(commits: &[u32], g: u32) -> u64
    requires commits_len_bound { length commits.now ≤ 65536 }
    requires g_bound { g ≤ 64 }
    ensures { result ≡ sum_up_to g commits.now }
{
    let mut sum = 0u64;
    for drafts in commits {
        sum += (*drafts).min(g) as u64;
    }
    sum
}

// A sum divided once by a count.
fn mean(sum: u64, count: u64) -> f64
    requires sum_bound { sum < 2 ^ 53 }
    requires count_nonzero { 0 < count }
    requires count_bound { count < 2 ^ 53 }
    ensures { result ≡ round binary64 false sum count }
{
    (sum as f64) / (count as f64)
}

// The curve's entries 0 to depth put at the front of the buffer.
pub fn fill_curve(commits: &[u32], depth: u32, curve: &mut [f64])
    requires commits_nonzero { 0 < length commits.now }
    requires commits_len_bound { length commits.now ≤ 65536 }
    requires depth_bound { depth ≤ 64 }
    ensures { curve.new ≡ sets curve.old 0 (curve_from 0 (suc depth) commits.now) }
{
    let count = commits.len() as u64;
    let mut at = 0usize;
    for g in 0..depth + 1 {
        let value = mean(sum_up_to(commits, g), count);
        at = put(curve, at, value);
    }
}
