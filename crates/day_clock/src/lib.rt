// The seconds of the plans that stand, as far back as changes can be withdrawn: the clock of a day that is told line by line.
// It is lent as words: how many earlier marks are kept, the newest mark, and the earlier marks, the newest first, one for each change that can
// be withdrawn. A mark is a second and one, or 0 where no plan stands. What a call answers and leaves is said for any content: a clock of too few
// words stays as it is.
#![tactic(auto)]

ghost use Rattle.std.specs.Prelude.{◌≡◌, ◌-◌, ◌≤◌, length};
ghost use Rattle.day_clock.specs.Clock.{words, mark_of, kept_by, back_by, pushed, passed_of, changed_of, taken_back_of};

use ledger_rows::inner;

// The words of a clock. All 0 is a clock on which nothing has passed.
pub const WORDS: usize = 66;

// How many earlier marks there are at most: as many as changes can be withdrawn.
const MOST: u64 = 64;

const LARGEST: u64 = 0xffff_ffff_ffff_ffff;

// A plan was accepted for this second. Answers by how many seconds that is before the newest plan that stands, 0 where it is not.
pub fn passed(clock: &mut [u64], second: u64) -> u64
    ensures { (result, clock.new) ≡ passed_of clock.old second }
{
    if clock.len() < WORDS {
        return 0;
    }
    let back = back_by(clock[1], second);
    push(clock, mark_of(second));
    back
}

// Another change was made: no plan is newer for it.
pub fn changed(clock: &mut [u64])
    ensures { clock.new ≡ changed_of clock.old }
{
    if WORDS <= clock.len() {
        let newest = clock[1];
        push(clock, newest);
    }
}

// The newest change was withdrawn.
#[tactic(auto, using(crate::proofs::Ways::back_done, crate::proofs::Ways::back_none))]
pub fn taken_back(clock: &mut [u64])
    ensures { clock.new ≡ taken_back_of clock.old }
{
    if clock.len() < WORDS {
        return;
    }
    let kept = kept_by(clock[0]);
    if 0 < kept {
        let none = [0u64];
        inner::take_out(clock, 1, WORDS - 1, &none);
        clock[0] = kept - 1;
    }
}

// A mark put before the others; the oldest is lost where there are as many as there may be.
fn push(clock: &mut [u64], mark: u64)
    requires { words ≤ length clock.old }
    ensures { clock.new ≡ pushed mark clock.old }
{
    let kept = kept_by(clock[0]);
    let one = [mark];
    inner::put_in(clock, 1, WORDS - 1, &one);
    clock[0] = kept_by(kept + 1);
}

// How many earlier marks a word says: MOST at most.
fn kept_by(word: u64) -> u64
    ensures { result ≡ kept_by word }
{
    if word < MOST { word } else { MOST }
}

// The mark of a second: the largest one is its own.
fn mark_of(second: u64) -> u64
    ensures { result ≡ mark_of second }
{
    if second < LARGEST {
        second + 1
    } else {
        LARGEST
    }
}

// By how many seconds one lies before that of a mark.
fn back_by(mark: u64, second: u64) -> u64
    ensures { result ≡ back_by mark second }
{
    if mark <= second {
        return 0;
    }
    mark - 1 - second
}
