// Words of sixteen hexadecimal digits, one behind the other.
ghost use Rattle.std.specs.Prelude.{◌+◌, ◌<◌, ◌≤◌, length};

// The word at a place, counted in words; past the text's end 0.
pub fn at(text: &[u8], place: usize) -> u64 {
    if text.len() / 16 <= place {
        return 0;
    }
    let from = place * 16;
    let end = from + 16;
    cases::words::value(&text[from..end])
}

// Puts the floats whose bits the words from a place on are at the front.
pub fn floats(text: &[u8], from: usize, count: usize, out: &mut [f64])
    requires count_in_bounds { count ≤ length out.old }
    requires count_bound { from + count < 1000 }
{
    for k in 0..count {
        out[k] = float::of_bits(at(text, from + k));
    }
}
