// Lists of numbers in a day file's line: all its fields from a place on. The list is judged first, and read only where all of it is right and fits.
#![tactic(auto)]

ghost use Rattle.std.specs.Prelude.{◌≡◌};
ghost use Rattle.day_lists.specs.Lists.{list_in, listed_by, decimals_listed, wholes_listed};

use day_walks::inner::ListNumber;
use day_walks::{WrongNumber, inner};

// Why no list is read: there is no room for its numbers, or a field is no such number, counted from the line's first as 0.
#[derive(Clone, Copy)]
pub enum NoList {
    TooMany,
    Wrong(WrongNumber),
}

// The decimals from the field at `from` on, at the front of `out`: how many there are.
#[tactic(auto, unfolding(crate::specs::Lists::decimals_listed))]
pub fn read_decimals(line: &[u8], from: usize, out: &mut [f64]) -> Result<u64, NoList>
    ensures { (result, out.new) ≡ decimals_listed line.now from out.old }
{
    read_list(line, from, out)
}

// The whole numbers from the field at `from` on, at the front of `out`: how many there are.
#[tactic(auto, unfolding(crate::specs::Lists::wholes_listed))]
pub fn read_wholes(line: &[u8], from: usize, out: &mut [u32]) -> Result<u64, NoList>
    ensures { (result, out.new) ≡ wholes_listed line.now from out.old }
{
    read_list(line, from, out)
}

// The numbers from the field at `from` on.
fn read_list<T: ListNumber>(line: &[u8], from: usize, out: &mut [T]) -> Result<u64, NoList>
    ensures { (result, out.new) ≡ listed_by T.judged T.read_of from (list_in line.now from) out.old }
{
    let told = day_line::uncommented(line);
    if text::field_count(told) <= from {
        return Ok(0);
    }
    let list = inner::rest_from(told, from);
    let place = from as u64;
    let end = match inner::judge_list::<T>(list, place) {
        Ok(end) => end,
        Err(wrong) => return Err(NoList::Wrong(wrong)),
    };
    let count = end - place;
    let room = out.len() as u64;
    if room < count {
        return Err(NoList::TooMany);
    }
    inner::fill_list(list, out);
    Ok(count)
}
