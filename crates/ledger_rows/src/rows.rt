// Rows of five words that a word counts: what the seconds and the workers have in common. COUNT is that word, FROM is where the rows start, and
// MOST is how many there are at most.
ghost use Rattle.std.specs.Prelude.{◌≡◌, ◌+◌, ◌*◌, ◌≤◌, ◌<◌, length};
ghost use Rattle.ledger_rows.specs.Table.{inserted, removed};

use crate::inner;

// The words of a row.
const WIDE: usize = 5;

// A new row before row `row` of `rows`, unless as many are held as there may be.
pub fn insert<const COUNT: usize, const FROM: usize, const MOST: usize>(
    words: &mut [u64],
    row: usize,
    rows: usize,
    new: &[u64; 5],
)
    requires { (row ≤ rows) × (COUNT < FROM) × (FROM + 5 * MOST ≤ length words.old) }
    ensures { words.new ≡ inserted 5 COUNT FROM MOST row rows new.now words.old }
{
    if rows < MOST {
        inner::put_in(words, FROM + WIDE * row, FROM + WIDE * rows, new);
        words[COUNT] = (rows + 1) as u64;
    }
}

// Row `row` of `rows` taken out.
pub fn take<const COUNT: usize, const FROM: usize, const MOST: usize>(
    words: &mut [u64],
    row: usize,
    rows: usize,
)
    requires { (row < rows) × (rows ≤ MOST) × (COUNT < FROM) × (FROM + 5 * MOST ≤ length words.old) }
    ensures { words.new ≡ removed 5 COUNT FROM row rows words.old }
{
    inner::take_out(
        words,
        FROM + WIDE * row,
        FROM + WIDE * (rows - 1),
        &[0; WIDE],
    );
    words[COUNT] = (rows - 1) as u64;
}
