// Walks over the fields of a list. Callers have seen that it has fields.
ghost use Rattle.std.specs.Prelude.{◌≡◌, ℕ, List, ◌+◌, ◌≤◌, ◌<◌, ◌^◌, length, drop};
ghost use Rattle.std.proofs.lemmas.List.Edits.{sets};
ghost use Rattle.refusals.specs.Refusals.{Judgement};
ghost use Rattle.text.specs.Fields.{fields};
ghost use Rattle.day_walks.specs.Walks.{decimal_judged, whole_judged, at_field, fields_judged, decimal_read, whole_read, each};

use crate::WrongNumber;
use bank_curve::inner::put;
use blocks::near;
use refusals::Refusal;

// A number that a list may have, blanks around it apart.
pub trait ListNumber: Copy {
    ghost judged: { List ℕ → Judgement };

    ghost read_of: { List ℕ → Self };

    // Refuses a field that says none.
    fn judge(field: &[u8]) -> Result<(), Refusal>
        ensures { result ≡ judged field.now };

    // What a field says, 0 for none.
    fn read(field: &[u8]) -> Self
        ensures { result ≡ read_of field.now };
}

impl ListNumber for f64 {
    ghost judged = { decimal_judged };

    ghost read_of = { decimal_read };

    fn judge(field: &[u8]) -> Result<(), Refusal> {
        numeral::judge_decimal(trimming::trim(field))
    }

    fn read(field: &[u8]) -> f64 {
        match numeral::decimal(trimming::trim(field)) {
            Ok(value) => value,
            Err(_) => 0.0,
        }
    }
}

impl ListNumber for u32 {
    ghost judged = { whole_judged };

    ghost read_of = { whole_read };

    fn judge(field: &[u8]) -> Result<(), Refusal> {
        numeral::whole(trimming::trim(field))?;
        Ok(())
    }

    fn read(field: &[u8]) -> u32 {
        match numeral::whole(trimming::trim(field)) {
            Ok(value) => value,
            Err(_) => 0,
        }
    }
}

// The part of a line from the field at a place on.
pub fn rest_from(line: &[u8], from: usize) -> &[u8]
    requires { from < length (fields line.now) }
    ensures { (fields result.now ≡ drop from (fields line.now)) × (from + length result.now ≤ length line.now) }
{
    let mut rest = line;
    for passed in 0..from {
        let next = near::find(rest, b',') + 1;
        rest = &rest[next..];
    }
    rest
}

// A judgement of a field, with its place.
fn at_field(judgement: Result<(), Refusal>, field: u64) -> Result<(), WrongNumber>
    ensures { result ≡ at_field judgement field }
{
    match judgement {
        Ok(()) => Ok(()),
        Err(refusal) => Err(WrongNumber { field, refusal }),
    }
}

// Refuses the first field that is no such number, of a list whose first field has the place `from`; else the place behind the last one.
pub fn judge_list<T: ListNumber>(list: &[u8], from: u64) -> Result<u64, WrongNumber>
    requires { from + length list.now + 1 < 2 ^ 64 }
    ensures { result ≡ fields_judged T.judged from (fields list.now) }
{
    let mut rest = list;
    let mut place = from;
    // no index is counted: each turn takes the rest behind a comma
    loop {
        let comma = near::find(rest, b',');
        at_field(T::judge(&rest[..comma]), place)?;
        place += 1;
        if rest.len() <= comma {
            return Ok(place);
        }
        let next = comma + 1;
        rest = &rest[next..];
    }
}

// The numbers of a list put at the front of a buffer, as far as it goes.
pub fn fill_list<T: ListNumber>(list: &[u8], out: &mut [T])
    ensures { out.new ≡ sets out.old 0 (each T.read_of (fields list.now)) }
{
    let mut rest = list;
    let mut at = 0usize;
    // no index is counted: each turn takes the rest behind a comma
    loop {
        let comma = near::find(rest, b',');
        let value = T::read(&rest[..comma]);
        at = put(out, at, value);
        if rest.len() <= comma {
            return;
        }
        let next = comma + 1;
        rest = &rest[next..];
    }
}
