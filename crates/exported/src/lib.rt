// What is told across the C boundary of an answer that is no plain number, to runs that call every entry point from outside.
#![tactic(auto)]

ghost use Rattle.std.specs.Prelude.{◌≡◌};
ghost use Rattle.exported.specs.Telling.{part_told, refused_told};
ghost use Rattle.exported.specs.Spelled.{whole_told, decimal_told};

use refusals::Refusal;

// The number of the refusal, 0 for none, and two figures, each 0 where there is none.
#[repr(C)]
#[derive(Clone, Copy)]
pub struct Told {
    pub refusal: u64,
    pub first: u64,
    pub second: u64,
}

// A refusal has no figures.
pub fn refused_told(refusal: Refusal) -> Told
    ensures { result ≡ refused_told refusal }
{
    Told {
        refusal: refusal.number(),
        first: 0,
        second: 0,
    }
}

// A part of a lent text: its length, and its byte at a place, 0 past its end.
pub fn part_told(part: &[u8], at: usize) -> Told
    ensures { result ≡ part_told part.now at }
{
    let byte = if at < part.len() { part[at] } else { 0 };
    Told {
        refusal: 0,
        first: part.len() as u64,
        second: byte as u64,
    }
}

// A whole number, or its refusal.
pub fn whole_told(read: Result<u32, Refusal>) -> Told
    ensures { result ≡ whole_told read }
{
    match read {
        Ok(number) => Told {
            refusal: 0,
            first: number as u64,
            second: 0,
        },
        Err(refusal) => refused_told(refusal),
    }
}

// The bits of a decimal, or its refusal.
pub fn decimal_told(read: Result<f64, Refusal>) -> Told
    ensures { result ≡ decimal_told read }
{
    match read {
        Ok(x) => Told {
            refusal: 0,
            first: float::bits(x),
            second: 0,
        },
        Err(refusal) => refused_told(refusal),
    }
}
