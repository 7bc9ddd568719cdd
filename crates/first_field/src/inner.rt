// A decimal up to the comma: its digits are walked once, and where they end the field mostly ends too.
ghost use Rattle.std.specs.Prelude.{◌≡◌, false, eqb, take, drop};
ghost use Rattle.decimals.specs.Decimals.{decimal_of, unsigned_of, without_value};
ghost use Rattle.first_field.specs.Front.{field_length};

use crate::{Judged, Read};
use decimals::inner as behind_sign;
use digits::inner as front;

// What is wrong with the decimal in the first field.
pub fn judge(line: &[u8]) -> Judged
    ensures judged { result.judged ≡ without_value (decimal_of (take (field_length line.now) line.now)) }
    ensures length { result.length ≡ field_length line.now }
{
    let text = front::after_sign(line);
    let sign = line.len() - text.len();
    let behind = judge_unsigned(text);
    Judged {
        judged: behind.judged,
        length: sign + behind.length,
    }
}

// The decimal in the first field.
pub fn decimal(line: &[u8]) -> Read
    ensures decimal { result.decimal ≡ decimal_of (take (field_length line.now) line.now) }
    ensures length { result.length ≡ field_length line.now }
{
    let text = front::after_sign(line);
    let sign = line.len() - text.len();
    let read = unsigned_decimal(front::is_negative(line), text);
    let decimal = read.decimal;
    let length = sign + read.length;
    Read { decimal, length }
}

// The same behind a sign. What is not digits, a point and digits is judged when the comma is found.
fn judge_unsigned(text: &[u8]) -> Judged
    ensures judged { result.judged ≡ without_value (unsigned_of false (take (field_length text.now) text.now)) }
    ensures length { result.length ≡ field_length text.now }
{
    let point = front::digit_count(text);
    if point < text.len() && text[point] == b'.' {
        let from = point + 1;
        let fraction = &text[from..];
        let decimals = front::digit_count(fraction);
        if is_end(fraction, decimals) {
            return Judged {
                judged: behind_sign::judge_digits(&text[..point], &fraction[..decimals]),
                length: from + decimals,
            };
        }
    }
    let length = field_length(text);
    Judged {
        judged: behind_sign::judge_unsigned(&text[..length]),
        length,
    }
}

// The same behind a sign. What is not digits, a point and digits is read when the comma is found.
fn unsigned_decimal(negative: bool, text: &[u8]) -> Read
    ensures decimal { result.decimal ≡ unsigned_of negative (take (field_length text.now) text.now) }
    ensures length { result.length ≡ field_length text.now }
{
    let before = front::leading_digits(text, 0, behind_sign::DIGITS_LIMIT);
    let point = before.count;
    if point < text.len() && text[point] == b'.' {
        let from = point + 1;
        let fraction = &text[from..];
        let both = front::leading_digits(fraction, before.number, behind_sign::DIGITS_LIMIT);
        let decimals = both.count;
        if is_end(fraction, decimals) {
            return Read {
                decimal: behind_sign::of_digits(
                    negative,
                    &text[..point],
                    &fraction[..decimals],
                    both.number,
                ),
                length: from + decimals,
            };
        }
    }
    let length = field_length(text);
    Read {
        decimal: behind_sign::unsigned_decimal(negative, &text[..length]),
        length,
    }
}

// Whether the field ends at a place.
fn is_end(text: &[u8], at: usize) -> bool
    ensures { result ≡ eqb (field_length (drop at text.now)) 0 }
{
    text.len() <= at || text[at] == b','
}

// How long the first field is.
fn field_length(line: &[u8]) -> usize
    ensures { result ≡ field_length line.now }
{
    line.iter().position(|b| *b == b',').unwrap_or(line.len())
}
