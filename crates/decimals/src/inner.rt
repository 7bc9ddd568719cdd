// The decimal that stands behind a sign: its digits, its point, how long it is, and its value.
ghost use Rattle.std.specs.Prelude.{◌≡◌, true, false, ◌≤◌, ◌^◌};
ghost use Rattle.std.specs.Float.{binary64};
ghost use Rattle.std.specs.Float.Ieee.{round};
ghost use Rattle.decimals.specs.Decimals.{without_value, unsigned_of, Spelled, of_parts, is_too_long};
ghost use Rattle.digits.specs.Digits.{all_digits};

use digits::inner as front;
use refusals::Refusal;

// The most significant digits that a decimal may have, and the first number that has more.
const SIGNIFICANT: usize = 15;

pub const DIGITS_LIMIT: u64 = 1000000000000000;

// The most decimals.
const DECIMALS: usize = 22;

// What stands between the digits and the decimals.
const POINT: u8 = b'.';

// The decimal that stands behind the sign.
pub fn unsigned_decimal(negative: bool, text: &[u8]) -> Result<f64, Refusal>
    ensures { result ≡ unsigned_of negative text.now }
{
    let before = front::leading_digits(text, 0, DIGITS_LIMIT);
    let point = before.count;
    if text.len() <= point {
        return of_digits(negative, text, &text[point..], before.number);
    }
    if text[point] != POINT {
        return Err(Refusal::MalformedDecimal);
    }
    let from = point + 1;
    let fraction = &text[from..];
    let both = front::leading_digits(fraction, before.number, DIGITS_LIMIT);
    if both.count < fraction.len() {
        return Err(Refusal::MalformedDecimal);
    }
    of_digits(negative, &text[..point], fraction, both.number)
}

// The decimal of the digits before and after the point, of which `digits` is the number.
#[tactic(auto, using(crate::proofs::Outcomes::refused, crate::proofs::Outcomes::judged_few, crate::proofs::Outcomes::judged_value))]
pub fn of_digits(negative: bool, whole: &[u8], fraction: &[u8], digits: u64) -> Result<f64, Refusal>
    requires { Spelled whole.now fraction.now digits }
    ensures { result ≡ of_parts negative whole.now fraction.now }
{
    judge_digits(whole, fraction)?;
    Ok(quotient(negative, digits, fraction.len()))
}

// Refuses what is wrong with the decimal behind a sign: its value is not worked out.
pub fn judge_unsigned(text: &[u8]) -> Result<(), Refusal>
    ensures { result ≡ without_value (unsigned_of false text.now) }
{
    let before = front::digit_count(text);
    if text.len() <= before {
        return judge_digits(text, &text[before..]);
    }
    if text[before] != POINT {
        return Err(Refusal::MalformedDecimal);
    }
    let from = before + 1;
    let fraction = &text[from..];
    if front::digit_count(fraction) < fraction.len() {
        return Err(Refusal::MalformedDecimal);
    }
    judge_digits(&text[..before], fraction)
}

// Refuses what is wrong with the digits before and after the point: having none, then being too many.
pub fn judge_digits(whole: &[u8], fraction: &[u8]) -> Result<(), Refusal>
    requires { (all_digits whole.now ≡ true) × (all_digits fraction.now ≡ true) }
    ensures { result ≡ without_value (of_parts false whole.now fraction.now) }
{
    if whole.len() + fraction.len() == 0 {
        return Err(Refusal::MalformedDecimal);
    }
    if too_long(whole, fraction) {
        return Err(Refusal::LongDecimal);
    }
    Ok(())
}

// Whether the digits are more than a decimal may have. Only where there are many in all are the leading zeros counted.
fn too_long(whole: &[u8], fraction: &[u8]) -> bool
    ensures { result ≡ is_too_long whole.now fraction.now }
{
    if DECIMALS < fraction.len() {
        return true;
    }
    if whole.len() + fraction.len() <= SIGNIFICANT {
        return false;
    }
    let zeros = front::leading_zeros(whole);
    if zeros < whole.len() {
        SIGNIFICANT < whole.len() - zeros + fraction.len()
    } else {
        SIGNIFICANT < fraction.len() - front::leading_zeros(fraction)
    }
}

// The powers of ten that an f64 holds exactly.
const POWERS: [f64; 23] = [
    1.0,
    10.0,
    100.0,
    1000.0,
    10000.0,
    100000.0,
    1000000.0,
    10000000.0,
    100000000.0,
    1000000000.0,
    10000000000.0,
    100000000000.0,
    1000000000000.0,
    10000000000000.0,
    100000000000000.0,
    1000000000000000.0,
    10000000000000000.0,
    100000000000000000.0,
    1000000000000000000.0,
    10000000000000000000.0,
    100000000000000000000.0,
    1000000000000000000000.0,
    10000000000000000000000.0,
];

// The f64 nearest to digits / 10^decimals, with the sign: both are floats exactly, so only the quotient rounds.
fn quotient(negative: bool, digits: u64, decimals: usize) -> f64
    requires { (digits ≤ 10 ^ 15) × (decimals ≤ 22) }
    ensures { result ≡ round binary64 negative digits (10 ^ decimals) }
{
    let magnitude = (digits as f64) / POWERS[decimals];
    if negative { -magnitude } else { magnitude }
}
