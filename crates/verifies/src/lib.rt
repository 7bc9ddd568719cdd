// How many drafts a verify accepts, where a round was planned and where none was.
#![tactic(auto)]

pub mod inner;

ghost use Rattle.std.specs.Prelude.{◌≡◌};
ghost use Rattle.verifies.specs.Accepted.{accepted_of};

// How many of a sequence's drafts a verify accepts, where its round was planned and committed so many, and none where no round was.
#[tactic(auto, unfolding(crate::specs::Accepted::accepted_of))]
pub fn accepted(draft: u32, commits: Option<u32>) -> u32
    ensures { result ≡ accepted_of draft commits }
{
    match commits {
        Some(commits) => commits.min(draft),
        None => 0,
    }
}
