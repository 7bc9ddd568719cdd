// Trimming a lent text.
#![tactic(auto)]

ghost use Rattle.std.specs.Prelude.{◌≡◌};
ghost use Rattle.trimming.specs.Trim.{is_blank, front_trimmed, end_trimmed, trimmed};

// A text without the blanks at its front and at its end.
pub fn trim(s: &[u8]) -> &[u8]
    ensures { result.now ≡ trimmed s.now }
{
    trim_end(trim_front(s))
}

// A text from its first byte on that is no blank.
fn trim_front(s: &[u8]) -> &[u8]
    ensures { result.now ≡ front_trimmed s.now }
{
    for (at, b) in s.iter().enumerate() {
        if !is_blank(*b) {
            return &s[at..];
        }
    }
    &s[s.len()..]
}

// A text up to its last byte that is no blank.
fn trim_end(s: &[u8]) -> &[u8]
    ensures { result.now ≡ end_trimmed s.now }
{
    for last in (0..s.len()).rev() {
        if !is_blank(s[last]) {
            return &s[..last + 1];
        }
    }
    &s[..0]
}

// A blank is a tab, LF, VT, FF, CR or a space.
fn is_blank(byte: u8) -> bool
    ensures { result ≡ is_blank byte }
{
    matches!(byte, b'\t'..=b'\r' | b' ')
}
