// How a worker's clock stands, and what a plan's second makes of it.
ghost use Rattle.std.specs.Prelude.{◌≡◌, max};
ghost use Rattle.clock_reads.specs.Reads.{back_by, forward_by, moved_by};

// A report that comes less than so many seconds late is no note.
const LATE: u64 = 10;

// A clock that goes forward by more than an hour is told.
const HOUR: u64 = 3600;

// The highest second that a worker's clock showed since it last went back; the number of the worker's last plan before that, and the highest second
// until then, both 0 where it never did; and how many of the worker's steps since then are counted again.
#[derive(Clone, Copy)]
pub struct Stand {
    pub high: u64,
    pub until: u64,
    pub earlier: u64,
    pub again: u64,
}

// By how many seconds a clock that stands at `high` goes back where it shows a second: 0 where it only shows it late.
pub fn back_by(high: u64, second: u64) -> u64
    ensures { result ≡ back_by high second }
{
    if high <= second {
        return 0;
    }
    let by = high - second;
    if by < LATE { 0 } else { by }
}

// By how many seconds it goes forward: 0 where that is an hour at most.
pub fn forward_by(high: u64, second: u64) -> u64
    ensures { result ≡ forward_by high second }
{
    if second <= high {
        return 0;
    }
    let by = second - high;
    if HOUR < by { by } else { 0 }
}

// How a worker's clock stands after it showed a second, where `last` is the number of the worker's plan before.
pub fn moved(old: Stand, last: u64, second: u64) -> Stand
    ensures { result ≡ moved_by old last second }
{
    if back_by(old.high, second) == 0 {
        return Stand {
            high: higher(old.high, second),
            until: old.until,
            earlier: old.earlier,
            again: old.again,
        };
    }
    Stand {
        high: second,
        until: last,
        earlier: higher(old.earlier, old.high),
        again: 0,
    }
}

fn higher(x: u64, y: u64) -> u64
    ensures { result ≡ max x y }
{
    if x < y { y } else { x }
}
