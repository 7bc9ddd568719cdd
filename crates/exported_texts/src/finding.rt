// Counting and finding bytes, and whether texts are the same.
ghost use Rattle.std.specs.Prelude.{◌≡◌};
ghost use Rattle.blocks.specs.Blocks.{find, tally, is_byte, all_ascii};
ghost use Rattle.text.specs.Fields.{same_text};
ghost use Rattle.text.specs.Lines.{starts_with};

#[unsafe(no_mangle)]
pub extern "C" fn blocks_near_find(s: &[u8], byte: u8) -> usize
    ensures { result ≡ find byte s.now }
{
    blocks::near::find(s, byte)
}

#[unsafe(no_mangle)]
pub extern "C" fn blocks_count(s: &[u8], byte: u8) -> usize
    ensures { result ≡ tally (is_byte byte) s.now }
{
    blocks::count(s, byte)
}

#[unsafe(no_mangle)]
pub extern "C" fn blocks_find(s: &[u8], byte: u8) -> usize
    ensures { result ≡ find byte s.now }
{
    blocks::find(s, byte)
}

#[unsafe(no_mangle)]
pub extern "C" fn blocks_is_ascii(s: &[u8]) -> bool
    ensures { result ≡ all_ascii s.now }
{
    blocks::is_ascii(s)
}

#[unsafe(no_mangle)]
pub extern "C" fn text_same(a: &[u8], b: &[u8]) -> bool
    ensures { result ≡ same_text a.now b.now }
{
    text::same(a, b)
}

#[unsafe(no_mangle)]
pub extern "C" fn text_starts_with(s: &[u8], byte: u8) -> bool
    ensures { result ≡ starts_with byte s.now }
{
    text::starts_with(s, byte)
}
