// The seconds held, ascending, each with its sums.
ghost use Rattle.std.specs.Prelude.{◌≡◌, cond, false, ◌+◌, ◌≤◌, ◌<◌, ltb, length, get_or};
ghost use Rattle.ledger_rows.specs.Words.{searched};
ghost use Rattle.ledger_rows.specs.Layout.{room, second_wide, seconds_most, seconds_held, second_at, steps_in};
ghost use Rattle.ledger_seconds.specs.Seconds.{earlier_second, that_second, second_place, second_raised, second_inserted, step_added, second_lowered, step_removed};

use ledger_rows::layout::{
    COMMITTED, DRAFTS, Place, SECOND, SECONDS, SECONDS_MOST, SEQUENCES, STEPS, Step,
};
use ledger_rows::{inner, rows};

// The number of seconds held: at most SECONDS_MOST, whatever the word says.
pub fn held(words: &[u64]) -> usize
    requires { room ≤ length words.now }
    ensures { result ≡ seconds_held words.now }
{
    (words[0] as usize).min(SECONDS_MOST)
}

// How many of the first `rows` seconds are earlier than `second`: a search by halves. The step is added up once for both numbers, so that the test
// is compiled to a choice of numbers and not to a branch, which a processor would guess wrongly every other time.
fn count_earlier(words: &[u64], rows: usize, second: u64) -> usize
    requires { (rows ≤ seconds_most) × (room ≤ length words.now) }
    ensures { (result ≡ searched (earlier_second words.now second) rows) × (result ≤ rows) }
{
    let mut low = 0;
    let mut width = rows;
    // no index is counted: each turn leaves one half of the rows
    while 0 < width {
        let half = width / 2;
        let step = half + 1;
        let middle = SECONDS + SECOND * (low + half);
        if words[middle] < second {
            low += step;
            width -= step;
        } else {
            width = half;
        }
    }
    low
}

// Whether row `row` is one of the first `rows` and has that second.
fn is_that(words: &[u64], row: usize, rows: usize, second: u64) -> bool
    requires { (rows ≤ seconds_most) × (room ≤ length words.now) }
    ensures { result ≡ cond (ltb row rows) (that_second words.now second row) false }
{
    row < rows && words[SECONDS + SECOND * row] == second
}

// Where a second is held or belongs. The newest second is looked at first.
pub fn place(words: &[u64], second: u64) -> Place
    requires { room ≤ length words.now }
    ensures { result ≡ second_place words.now second }
{
    let rows = held(words);
    if rows == 0 {
        return Place {
            row: 0,
            rows,
            known: false,
        };
    }
    let last = rows - 1;
    let newest = words[SECONDS + SECOND * last];
    if newest < second {
        return Place {
            row: rows,
            rows,
            known: false,
        };
    }
    if newest == second {
        return Place {
            row: last,
            rows,
            known: true,
        };
    }
    let row = count_earlier(words, last, second);
    let known = is_that(words, row, rows, second);
    Place { row, rows, known }
}

// The steps of row `row`.
pub fn steps(words: &[u64], row: usize) -> u64
    requires { (row < seconds_most) × (room ≤ length words.now) }
    ensures { result ≡ get_or words.now (second_at row + steps_in) 0 }
{
    let at = SECONDS + SECOND * row;
    words[at + STEPS]
}

// Row `row`, of the step's second, with that step more.
#[tactic(auto, unfolding(crate::specs::Seconds::second_raised))]
fn raise(words: &mut [u64], row: usize, step: Step)
    requires { second_at row + second_wide ≤ length words.old }
    ensures { words.new ≡ second_raised words.old row step }
{
    let at = SECONDS + SECOND * row;
    let more = [
        step.second,
        words[at + DRAFTS].saturating_add(step.drafts),
        words[at + SEQUENCES].saturating_add(step.sequences),
        words[at + COMMITTED].saturating_add(step.committed),
        words[at + STEPS].saturating_add(1),
    ];
    inner::put(words, at, &more);
}

// A new row before row `row` of `rows`, unless as many are held as there may be.
#[tactic(auto, unfolding(crate::specs::Seconds::second_inserted))]
fn insert(words: &mut [u64], row: usize, rows: usize, step: Step)
    requires { (row ≤ rows) × (room ≤ length words.old) }
    ensures { words.new ≡ second_inserted words.old row rows step }
{
    let new = [step.second, step.drafts, step.sequences, step.committed, 1];
    rows::insert::<0, SECONDS, SECONDS_MOST>(words, row, rows, &new);
}

// The sums of the step's second, whose place was found, with that step more; a second that is not held is put in there.
#[tactic(auto, unfolding(crate::specs::Seconds::step_added), using(crate::proofs::Ways::second_within))]
pub fn add_step(words: &mut [u64], found: Place, step: Step)
    requires { (found ≡ second_place words.old step.second) × (room ≤ length words.old) }
    ensures { words.new ≡ step_added words.old step }
{
    if found.known {
        raise(words, found.row, step);
    } else {
        insert(words, found.row, found.rows, step);
    }
}

// Row `row` of `rows`, of the step's second, with that step less, and gone with its last.
#[tactic(auto, unfolding(crate::specs::Seconds::second_lowered))]
fn lower(words: &mut [u64], row: usize, rows: usize, step: Step)
    requires { (row < rows) × (rows ≤ seconds_most) × (room ≤ length words.old) }
    ensures { words.new ≡ second_lowered words.old row rows step }
{
    let at = SECONDS + SECOND * row;
    let steps = words[at + STEPS];
    if 1 < steps {
        let less = [
            step.second,
            words[at + DRAFTS].saturating_sub(step.drafts),
            words[at + SEQUENCES].saturating_sub(step.sequences),
            words[at + COMMITTED].saturating_sub(step.committed),
            steps - 1,
        ];
        inner::put(words, at, &less);
    } else {
        rows::take::<0, SECONDS, SECONDS_MOST>(words, row, rows);
    }
}

// What a step added is taken away again from its second, if that is held.
#[tactic(auto, unfolding(crate::specs::Seconds::step_removed))]
pub fn remove_step(words: &mut [u64], step: Step)
    requires { room ≤ length words.old }
    ensures { words.new ≡ step_removed words.old step }
{
    let found = place(words, step.second);
    if found.known {
        lower(words, found.row, found.rows, step);
    }
}
