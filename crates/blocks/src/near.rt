// Finding a byte that is near: one byte at a time.
ghost use Rattle.std.specs.Prelude.{◌≡◌};
ghost use Rattle.blocks.specs.Blocks.{find};

// Where the byte first stands: the text's length where it stands nowhere.
pub fn find(s: &[u8], byte: u8) -> usize
    ensures { result ≡ find byte s.now }
{
    for (at, b) in s.iter().enumerate() {
        if *b == byte {
            return at;
        }
    }
    s.len()
}
