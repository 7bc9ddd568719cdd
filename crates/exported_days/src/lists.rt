// Lists of numbers in a day file's line, and the path of a file that it names.
ghost use Rattle.std.specs.Prelude.{◌≡◌};
ghost use Rattle.day_lists.specs.Lists.{decimals_listed, wholes_listed};
ghost use Rattle.day_paths.specs.Paths.{placed_beside};
ghost use Rattle.exported.specs.Telling.{on_first};
ghost use Rattle.exported_days.specs.Days.{listed_told};

use day_lists::NoList;
use exported::Told;

// `first` is how many numbers there are, and `second` is 1 where they are too many for `out`; or `refusal` is what was expected, and `second` the
// field that is wrong.
#[unsafe(no_mangle)]
pub extern "C" fn day_lists_read_decimals(line: &[u8], from: usize, out: &mut [f64]) -> Told
    ensures { (result, out.new) ≡ on_first listed_told (decimals_listed line.now from out.old) }
{
    let listed = day_lists::read_decimals(line, from, out);
    listed_told(listed)
}

// The same of whole numbers.
#[unsafe(no_mangle)]
pub extern "C" fn day_lists_read_wholes(line: &[u8], from: usize, out: &mut [u32]) -> Told
    ensures { (result, out.new) ≡ on_first listed_told (wholes_listed line.now from out.old) }
{
    let listed = day_lists::read_wholes(line, from, out);
    listed_told(listed)
}

#[unsafe(no_mangle)]
pub extern "C" fn day_paths_beside(day: &[u8], name: &[u8], out: &mut [u8]) -> usize
    ensures { (result, out.new) ≡ placed_beside day.now name.now out.old }
{
    day_paths::beside(day, name, out)
}

fn listed_told(listed: Result<u64, NoList>) -> Told
    ensures { result ≡ listed_told listed }
{
    match listed {
        Ok(count) => Told {
            refusal: 0,
            first: count,
            second: 0,
        },
        Err(NoList::TooMany) => Told {
            refusal: 0,
            first: 0,
            second: 1,
        },
        Err(NoList::Wrong(wrong)) => Told {
            refusal: wrong.refusal.number(),
            first: 0,
            second: wrong.field,
        },
    }
}
