// What the drafts of one plan come to, for a caller that has a round's commits for each of them.
ghost use Rattle.std.specs.Prelude.{◌≡◌, ◌≤◌, length};
ghost use Rattle.verifies.specs.Accepted.{counts_of, Shallow};

// All drafts together, and all of them that their rounds' commits accept.
#[derive(Clone, Copy)]
pub struct Counts {
    pub drafts: u64,
    pub committed: u64,
}

// Both sums in one walk. No draft being above 64, they stay in 32 bits, of which the machine adds four at a time.
pub fn count(drafts: &[u32], commits: &[u32]) -> Counts
    requires { (length drafts.now ≤ 1024) × (length drafts.now ≤ length commits.now) × Shallow drafts.now }
    ensures { result ≡ counts_of drafts.now commits.now }
{
    let mut drafted = 0u32;
    let mut committed = 0u32;
    for (k, draft) in drafts.iter().enumerate() {
        drafted += *draft;
        committed += crate::accepted(*draft, Some(commits[k]));
    }
    Counts {
        drafts: drafted as u64,
        committed: committed as u64,
    }
}
