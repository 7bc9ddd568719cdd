// An answer as a column of a case: sixteen hexadecimal digits, or fifteen dashes and the refusal's number.
ghost use Rattle.std.specs.Prelude.{◌<◌};

use refusals::Refusal;

#[derive(Clone, Copy)]
pub struct Column {
    pub bytes: [u8; 16],
    pub is_value: bool,
}

// What we answer to a case's text.
pub fn of_text(kind: u8, text: &[u8]) -> Column {
    match kind {
        b'd' => of_read(numeral::decimal(text).map(|x| float::bits(x))),
        b'w' => of_read(numeral::whole(text).map(|n| n as u64)),
        _ => of_value(numeral::second(float::of_bits(bits_in(text)))),
    }
}

fn of_read(read: Result<u64, Refusal>) -> Column {
    match read {
        Ok(n) => of_value(n),
        Err(refusal) => of_refusal(refusal.number()),
    }
}

fn of_value(n: u64) -> Column {
    let mut bytes = [0u8; 16];
    io::hex(n, 16, &mut bytes);
    Column {
        bytes,
        is_value: true,
    }
}

fn of_refusal(number: u64) -> Column {
    let mut bytes = [b'-'; 16];
    bytes[15] = 48 + (number % 10) as u8;
    Column {
        bytes,
        is_value: false,
    }
}

// The number that hexadecimal digits spell, of which the last sixteen count.
fn bits_in(text: &[u8]) -> u64 {
    let mut value = 0u64;
    for b in text {
        value = value % 0x1000_0000_0000_0000 * 16 + hex_digit(*b);
    }
    value
}

fn hex_digit(b: u8) -> u64
    ensures { result < 16 }
{
    if b < 97 {
        return (b % 16) as u64;
    }
    ((b - 87) % 16) as u64
}
