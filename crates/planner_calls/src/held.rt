// The calls besides plans, on the whole storage: `f` empties it, `w` withdraws, `c` collects from a worker, `a` answers the drafts that a
// verify accepts, and any other only reads. `f` and `w` put their refusal, `c` its refusal and then the stall, 0 where there is none.
ghost use Rattle.std.specs.Prelude.{◌≤◌, length};

use cases::{answers, words};
use ledger_words::outcome::{of_answer, of_value};
use ledger_words::{outcome, reads};

pub fn make(letter: u8, call: &[u64], storage: &mut [u64], ours: &mut [u64], at: usize) -> usize
    ensures { result ≤ length ours.new }
{
    if letter == b'f' {
        let done = of_answer(ledger::fresh(storage));
        return answers::put(ours, at, done.refusal);
    }
    if letter == b'w' {
        let done = of_answer(planner::withdraw(storage));
        return answers::put(ours, at, done.refusal);
    }
    if letter == b'c' {
        let stall = planner::collect(storage, words::at(call, 1), words::at(call, 2));
        return outcome::put(ours, at, of_value(stall));
    }
    if letter == b'a' {
        return answers::put(ours, at, accepted(call));
    }
    reads::make(letter, call, storage, ours, at)
}

// The words are the draft, whether a round was planned, and its commits.
fn accepted(call: &[u64]) -> u64 {
    let draft = words::whole_at(call, 1);
    if words::at(call, 2) == 0 {
        return planner::accepted(draft, None) as u64;
    }
    planner::accepted(draft, Some(words::whole_at(call, 3))) as u64
}
