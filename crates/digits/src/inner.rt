// What is read from the front of a text, a byte at a time.
ghost use Rattle.std.specs.Prelude.{◌≡◌, ◌≤◌, ◌^◌};
ghost use Rattle.digits.specs.Digits.{is_digit, count_while, leading_zeros, leading_digits};
ghost use Rattle.digits.specs.Signs.{after_plus, after_sign, is_negative};

use crate::Digits;

// The digits that the bytes start with: how many, and the number that they spell after `start`, no further than `limit`.
#[tactic(auto, using(crate::proofs::Leading::leading_start, crate::proofs::Leading::read_digit, crate::proofs::Leading::read_other, crate::proofs::Leading::read_all))]
pub fn leading_digits(bytes: &[u8], start: u64, limit: u64) -> Digits
    requires { (start ≤ limit) × (limit ≤ 10 ^ 15) }
    ensures { result ≡ leading_digits start limit bytes.now }
{
    let mut number = start;
    for (count, b) in bytes.iter().enumerate() {
        if !is_digit(*b) {
            return Digits { count, number };
        }
        number = (number * 10 + (*b - b'0') as u64).min(limit);
    }
    Digits {
        count: bytes.len(),
        number,
    }
}

// The text after a leading plus.
pub fn after_plus(text: &[u8]) -> &[u8]
    ensures { result.now ≡ after_plus text.now }
{
    if 0 < text.len() && text[0] == b'+' {
        &text[1..]
    } else {
        text
    }
}

// The text after a leading plus or minus.
pub fn after_sign(text: &[u8]) -> &[u8]
    ensures { result.now ≡ after_sign text.now }
{
    if 0 < text.len() && (text[0] == b'+' || text[0] == b'-') {
        &text[1..]
    } else {
        text
    }
}

// Whether the text starts with a minus.
pub fn is_negative(text: &[u8]) -> bool
    ensures { result ≡ is_negative text.now }
{
    0 < text.len() && text[0] == b'-'
}

// How many digits the bytes start with.
#[tactic(auto, using(crate::proofs::Bytes::count_placed))]
pub fn digit_count(bytes: &[u8]) -> usize
    ensures { result ≡ count_while is_digit bytes.now }
{
    bytes
        .iter()
        .position(|b| !is_digit(*b))
        .unwrap_or(bytes.len())
}

// How many zeros the digits start with.
#[tactic(auto, using(crate::proofs::Bytes::count_placed))]
pub fn leading_zeros(digits: &[u8]) -> usize
    ensures { result ≡ leading_zeros digits.now }
{
    digits
        .iter()
        .position(|b| *b != b'0')
        .unwrap_or(digits.len())
}

// Whether a byte is an ASCII digit.
fn is_digit(b: u8) -> bool
    ensures { result ≡ is_digit b }
{
    b'0' <= b && b <= b'9'
}
