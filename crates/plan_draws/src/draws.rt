// The commits of a plan's sequences. They are drawn once what is refused after them is known, so that they are written only where nothing is.
ghost use Rattle.std.specs.Prelude.{◌≡◌, true, ◌++◌, ℕ, ◌≤◌, ◌<◌, length, get_or, drop};
ghost use Rattle.settings.specs.Settings.{is_trace};
ghost use Rattle.rounds.specs.Drawing.{analytic, replayed};
ghost use Rattle.plan_draws.specs.Draws.{drawn, drawn_unless, index_refusal, lent_to_draw};

use acceptance::AcceptanceModel;
use asking::Ask;
use rounds::drawing::Drawn;
use settings::Settings;

// The drawn commits at the front of the lent ones.
fn put_front(drawn: &[u32], commits: &mut [u32])
    requires { length drawn.now ≤ length commits.old }
    ensures { commits.new ≡ drawn.now ++ drop (length drawn.now) commits.old }
{
    // copy_from_slice would need memmove of whoever links the library
    for k in 0..drawn.len() {
        commits[k] = drawn[k];
    }
}

// As many sequences as `drawn` is long, by an acceptance model: drawn there first.
fn draw_within(
    late: u64,
    model: AcceptanceModel,
    positions: &[f64],
    gamma: u32,
    draws: &[f64],
    drawn: &mut [u32],
    commits: &mut [u32],
) -> Drawn
    requires { (gamma ≤ 64) × (length drawn.old ≤ 1024) × (length drawn.old ≤ length commits.old) }
    ensures { record { answer = result; commits = commits.new } ≡ drawn_unless late (analytic model positions.now gamma (length drawn.old) draws.now) commits.old }
{
    match rounds::drawing::draw_commits(model, positions, gamma, draws, drawn) {
        Drawn::Refused(number) => Drawn::Refused(number),
        Drawn::Used(used) => {
            if 0 < late {
                return Drawn::Refused(late);
            }
            put_front(drawn, commits);
            Drawn::Used(used)
        }
    }
}

// At most N sequences, drawn into an array of so many.
fn draw_in<const N: usize>(
    late: u64,
    model: AcceptanceModel,
    positions: &[f64],
    gamma: u32,
    n: usize,
    draws: &[f64],
    commits: &mut [u32],
) -> Drawn
    requires { (gamma ≤ 64) × (n ≤ N) × (N ≤ 1024) × (n ≤ length commits.old) }
    ensures { record { answer = result; commits = commits.new } ≡ drawn_unless late (analytic model positions.now gamma n draws.now) commits.old }
{
    let mut drawn = [0u32; N];
    draw_within(
        late,
        model,
        positions,
        gamma,
        draws,
        &mut drawn[..n],
        commits,
    )
}

// By an acceptance model: the array that is drawn into is as small as it may be.
fn draw_model(
    late: u64,
    model: AcceptanceModel,
    positions: &[f64],
    gamma: u32,
    n: usize,
    draws: &[f64],
    commits: &mut [u32],
) -> Drawn
    requires { (gamma ≤ 64) × (n ≤ 1024) × (n ≤ length commits.old) }
    ensures { record { answer = result; commits = commits.new } ≡ drawn_unless late (analytic model positions.now gamma n draws.now) commits.old }
{
    if n <= 64 {
        draw_in::<64>(late, model, positions, gamma, n, draws, commits)
    } else {
        draw_in::<1024>(late, model, positions, gamma, n, draws, commits)
    }
}

// 1 where an index is not below the round count; else what was told of the others.
fn above(rounds: usize, index: u32, told: u32) -> u32
    ensures { result ≡ 0 → (told ≡ 0) × (index < rounds) }
{
    if rounds <= index as usize { 1 } else { told }
}

// True only where all indices are below the round count. Each is looked at and none ends it, so that several can be looked at in one step.
fn are_below(rounds: usize, indices: &[u32]) -> bool
    ensures { result ≡ true → (k : ℕ) → k < length indices.now → get_or indices.now k 0 < rounds }
{
    let mut told = 0u32;
    for index in indices {
        told = above(rounds, *index, told);
    }
    told == 0
}

// What the first n indices are refused for, one after the other: 13 or 14, or 0.
fn first_refusal(rounds: usize, n: usize, indices: &[u32]) -> u64
    ensures { result ≡ index_refusal rounds n indices.now }
{
    for k in 0..n {
        if indices.len() <= k {
            return 13;
        }
        if rounds <= indices[k] as usize {
            return 14;
        }
    }
    0
}

// The same, by the quick test where it is enough.
fn index_refusal(rounds: usize, n: usize, indices: &[u32]) -> u64
    ensures { result ≡ index_refusal rounds n indices.now }
{
    if n <= indices.len() && are_below(rounds, &indices[..n]) {
        return 0;
    }
    first_refusal(rounds, n, indices)
}

// By the rounds of a bank: the indices are judged, and nothing is left to refuse where the rounds are replayed.
fn replay(
    late: u64,
    bank_commits: &[u32],
    rounds: usize,
    n: usize,
    indices: &[u32],
    commits: &mut [u32],
) -> Drawn
    requires { (rounds ≤ length bank_commits.now) × (n ≤ length commits.old) }
    ensures { record { answer = result; commits = commits.new } ≡ drawn_unless late (replayed bank_commits.now rounds n indices.now) commits.old }
{
    let of_indices = index_refusal(rounds, n, indices);
    if 0 < of_indices {
        return Drawn::Refused(of_indices);
    }
    if 0 < late {
        return Drawn::Refused(late);
    }
    rounds::drawing::replay_commits(bank_commits, rounds, indices, &mut commits[..n])
}

// Each sequence's commits, by the acceptance model or the rounds of the bank, at the front of the lent ones. 13 or 14 where a draw is
// absent or none; then `late`, which is refused after them. A refusal writes nothing.
pub fn draw(
    late: u64,
    settings: Settings,
    ask: Ask,
    positions: &[f64],
    bank_commits: &[u32],
    draws: &[f64],
    indices: &[u32],
    commits: &mut [u32],
) -> Drawn
    requires gamma_bound { (settings.gamma ≤ 64) × (ask.sequences ≤ 1024) × (ask.sequences ≤ length commits.old) }
    requires rounds_in_bounds { is_trace settings.model ≡ true → ask.rounds ≤ length bank_commits.now }
    ensures { record { answer = result; commits = commits.new } ≡ drawn_unless late (drawn settings ask (lent_to_draw positions.now bank_commits.now draws.now indices.now)) commits.old }
{
    let model = settings.model;
    let gamma = settings.gamma;
    let n = ask.sequences as usize;
    match model {
        AcceptanceModel::Constant(_) | AcceptanceModel::PerPosition => draw_model(
            late, model, positions, gamma, n, draws, commits,
        ),
        AcceptanceModel::Trace => replay(
            late,
            bank_commits,
            ask.rounds as usize,
            n,
            indices,
            commits,
        ),
    }
}
