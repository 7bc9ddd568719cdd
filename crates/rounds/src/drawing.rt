// What a caller that has judged the settings and the sizes calls.
ghost use Rattle.std.specs.Prelude.{◌≡◌, ◌≤◌, length};
ghost use Rattle.rounds.specs.Drawing.{analytic, replayed, drawn_over};

use acceptance::AcceptanceModel;

// How many draws were used, or the number of the refusal.
#[derive(Clone, Copy)]
pub enum Drawn {
    Used(usize),
    Refused(u64),
}

// Each sequence's commits by an acceptance model: it consumes draws from where the sequence before it stopped. 13 where a
// needed draw is absent, 14 where a consumed one is none; the commits of the sequences before it are written by then.
pub fn draw_commits(
    model: AcceptanceModel,
    positions: &[f64],
    gamma: u32,
    draws: &[f64],
    commits: &mut [u32],
) -> Drawn
    requires { (gamma ≤ 64) × (length commits.old ≤ 1024) }
    ensures { record { answer = result; commits = commits.new } ≡ drawn_over (analytic model positions.now gamma (length commits.old) draws.now) commits.old }
{
    let mut used = 0;
    for k in 0..commits.len() {
        match acceptance::inner::sample_from(model, positions, gamma, draws, used) {
            Ok(sample) => {
                commits[k] = sample.commits;
                used += sample.used;
            }
            Err(refusal) => return Drawn::Refused(refusal.number()),
        }
    }
    Drawn::Used(used)
}

// Each sequence's commits by the rounds of a bank, of which the index of each is lent. 13 where an index is absent, 14 where
// it is not below the round count.
pub fn replay_commits(
    bank_commits: &[u32],
    rounds: usize,
    indices: &[u32],
    commits: &mut [u32],
) -> Drawn
    requires { rounds ≤ length bank_commits.now }
    ensures { record { answer = result; commits = commits.new } ≡ drawn_over (replayed bank_commits.now rounds (length commits.old) indices.now) commits.old }
{
    let n = commits.len();
    for k in 0..n {
        if indices.len() <= k {
            return Drawn::Refused(13);
        }
        let index = indices[k] as usize;
        if rounds <= index {
            return Drawn::Refused(14);
        }
        commits[k] = bank_commits[index];
    }
    Drawn::Used(n)
}
