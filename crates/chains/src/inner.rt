// What a batch's chains give, for callers that have judged them.
ghost use Rattle.std.specs.Prelude.{◌≡◌, ◌≤◌, ◌<◌, ◌+◌, ◌*◌, length, drop};
ghost use Rattle.chains.specs.Fours.{with_four, four_reach};
ghost use Rattle.chains.specs.Survival.{survival_chain};
ghost use Rattle.chains.specs.Expected.{with_chain, sums_with, expected_over, Fits};

// The running products of the first `length` confidences, each clamped to 0..1; 0.0 in the slots past them.
pub fn chain(signal: [f64; 64], length: usize) -> [f64; 64]
    requires { length ≤ 64 }
    ensures { result ≡ survival_chain signal length }
{
    let mut out = [0.0; 64];
    let mut s = 1.0;
    for d in 0..length {
        s *= float::clamp_unit(signal[d]);
        out[d] = s;
    }
    out
}

// One chain added to the sums: depth d + 1 gains the sum of the chain's first d + 1 entries.
fn add_chain(chain: &[f64], sums: &mut [f64])
    requires { length chain.now < length sums.old }
    ensures { sums.new ≡ with_chain chain.now sums.old }
{
    let mut acc = 0.0;
    for (d, s) in chain.iter().enumerate() {
        acc += *s;
        sums[d + 1] += acc;
    }
}

// Four chains of one width, one block of 64 slots after the other, added to the sums in their order. Their own sums do not wait
// for each other.
fn add_four(block: &[f64], width: usize, sums: &mut [f64])
    requires block_len { length block.now ≡ 256 }
    requires width_bound { width ≤ 64 }
    requires width_in_bounds { width < length sums.old }
    ensures { sums.new ≡ with_four width block.now sums.old }
{
    let mut p = 0.0;
    let mut q = 0.0;
    let mut r = 0.0;
    let mut s = 0.0;
    for d in 0..width {
        p += block[d];
        q += block[d + 64];
        r += block[d + 128];
        s += block[d + 192];
        sums[d + 1] = sums[d + 1] + p + q + r + s;
    }
}

// Whether the four chains from k on reach gamma.
fn reach_gamma(lengths: &[u32], k: usize, gamma: u32) -> bool
    requires { k + 4 ≤ length lengths.now }
    ensures { result ≡ four_reach gamma k lengths.now }
{
    gamma <= lengths[k]
        && gamma <= lengths[k + 1]
        && gamma <= lengths[k + 2]
        && gamma <= lengths[k + 3]
}

// The chains added to the sums four at a time, from the first on, as long as the next four reach gamma: how many were added.
fn add_fours(chains: &[f64], lengths: &[u32], gamma: u32, sums: &mut [f64]) -> usize
    requires gamma_bound { gamma ≤ 64 }
    requires fits { Fits chains.now lengths.now }
    requires sums_len { length sums.old ≡ 65 }
    ensures upper_bound { result ≤ length lengths.now }
    ensures sums_len_2 { length sums.new ≡ 65 }
    ensures sums_after { sums_with gamma (drop result lengths.now) (drop (result * 64) chains.now) sums.new ≡ sums_with gamma lengths.now chains.now sums.old }
{
    let width = gamma as usize;
    let mut k = 0;
    // no `for`: a turn takes four, and the first four that do not all reach gamma end it
    while k + 4 <= lengths.len() && reach_gamma(lengths, k, gamma) {
        let at = k * 64;
        add_four(&chains[at..at + 256], width, sums);
        k += 4;
    }
    k
}

// The expected acceptance at each depth over chains that each have their own length, 64 slots a sequence; 0.0 past gamma.
pub fn expected_over(chains: &[f64], lengths: &[u32], gamma: u32) -> [f64; 65]
    requires gamma_bound { gamma ≤ 64 }
    requires fits { Fits chains.now lengths.now }
    ensures { result ≡ expected_over gamma lengths.now chains.now }
{
    let mut sums = [0.0; 65];
    let added = add_fours(chains, lengths, gamma, &mut sums);
    for k in added..lengths.len() {
        let at = k * 64;
        let end = at + gamma.min(lengths[k]) as usize;
        add_chain(&chains[at..end], &mut sums);
    }
    sums
}
