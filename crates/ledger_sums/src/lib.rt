// The whole_number sums of one of the seconds held: what its means are made of.
#![tactic(auto)]

pub mod answer;

ghost use Rattle.std.specs.Prelude.{◌≡◌};
ghost use Rattle.ledger_sums.specs.Sums.{sums_of};

use crate::answer::Sums;
use ledger_rows::layout::{COMMITTED, DRAFTS, ROOM, SECOND, SECONDS, SEQUENCES, STEPS};
use refusals::Refusal;

// The second in row `row`, counted from 0 in ascending order, with its sums; past the last one there is none.
#[tactic(auto, unfolding(crate::specs::Sums::sums_of))]
pub fn sums(storage: &[u64], row: u64) -> Result<Option<Sums>, Refusal>
    ensures { result ≡ sums_of storage.now row }
{
    if storage.len() < ROOM {
        return Err(Refusal::ShortBuffer);
    }
    let rows = ledger_seconds::inner::held(storage) as u64;
    if rows <= row {
        return Ok(None);
    }
    let at = SECONDS + SECOND * row as usize;
    Ok(Some(Sums {
        second: storage[at],
        drafts: storage[at + DRAFTS],
        sequences: storage[at + SEQUENCES],
        committed: storage[at + COMMITTED],
        steps: storage[at + STEPS],
    }))
}
