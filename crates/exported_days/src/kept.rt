// What a day keeps: the sums of a second held, and the clock.
ghost use Rattle.std.specs.Prelude.{◌≡◌};
ghost use Rattle.day_clock.specs.Clock.{passed_of, changed_of, taken_back_of};
ghost use Rattle.ledger_sums.specs.Sums.{sums_of};
ghost use Rattle.exported_days.specs.Days.{sum_asked, sums_told};

use exported::Told;
use ledger_sums::answer::Sums;

// `first` is 1 where there is such a row, else 0, and `second` the number that is asked for: 0 the second, 1 the drafts, 2 the sequences, 3 the
// committed, any other the steps.
#[unsafe(no_mangle)]
pub extern "C" fn ledger_sums_sums(storage: &[u64], row: u64, asked: u64) -> Told
    ensures { result ≡ sums_told asked (sums_of storage.now row) }
{
    match ledger_sums::sums(storage, row) {
        Ok(Some(sums)) => Told {
            refusal: 0,
            first: 1,
            second: sum_asked(asked, sums),
        },
        Ok(None) => Told {
            refusal: 0,
            first: 0,
            second: 0,
        },
        Err(refusal) => Told {
            refusal: refusal.number(),
            first: 0,
            second: 0,
        },
    }
}

#[unsafe(no_mangle)]
pub extern "C" fn day_clock_passed(clock: &mut [u64], second: u64) -> u64
    ensures { (result, clock.new) ≡ passed_of clock.old second }
{
    day_clock::passed(clock, second)
}

#[unsafe(no_mangle)]
pub extern "C" fn day_clock_changed(clock: &mut [u64])
    ensures { clock.new ≡ changed_of clock.old }
{
    day_clock::changed(clock)
}

#[unsafe(no_mangle)]
pub extern "C" fn day_clock_taken_back(clock: &mut [u64])
    ensures { clock.new ≡ taken_back_of clock.old }
{
    day_clock::taken_back(clock)
}

fn sum_asked(asked: u64, sums: Sums) -> u64
    ensures { result ≡ sum_asked asked sums }
{
    match asked {
        0 => sums.second,
        1 => sums.drafts,
        2 => sums.sequences,
        3 => sums.committed,
        _ => sums.steps,
    }
}
