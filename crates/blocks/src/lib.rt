// Counting and finding bytes a block at a time, for what is long: in a block a u8 holds the count, and the machine then looks at
// many bytes in one step.
#![tactic(auto)]

pub mod near;

ghost use Rattle.std.specs.Prelude.{◌≡◌, ◌≤◌, length};
ghost use Rattle.blocks.specs.Blocks.{find, tally, is_byte, is_high, all_ascii};

const BLOCK: usize = 64;

// How often the byte stands in a text.
pub fn count(s: &[u8], byte: u8) -> usize
    ensures { result ≡ tally (is_byte byte) s.now }
{
    let mut sum = 0usize;
    let mut rest = s;
    // no index is counted: each turn takes the rest behind a block, and what is shorter than one is left
    while BLOCK <= rest.len() {
        sum += count_in(&rest[..BLOCK], byte) as usize;
        rest = &rest[BLOCK..];
    }
    sum + count_in(rest, byte) as usize
}

// Where the byte first stands: the text's length where it stands nowhere.
pub fn find(s: &[u8], byte: u8) -> usize
    ensures { result ≡ find byte s.now }
{
    let mut passed = 0usize;
    let mut rest = s;
    // no index is counted: each turn takes the rest behind a block, and what is shorter than one is left
    while BLOCK <= rest.len() {
        if count_in(&rest[..BLOCK], byte) != 0 {
            return passed + near::find(rest, byte);
        }
        passed += BLOCK;
        rest = &rest[BLOCK..];
    }
    passed + near::find(rest, byte)
}

// Whether no byte is above 127.
pub fn is_ascii(s: &[u8]) -> bool
    ensures { result ≡ all_ascii s.now }
{
    let mut rest = s;
    // no index is counted: each turn takes the rest behind a block, and what is shorter than one is left
    while BLOCK <= rest.len() {
        if high_in(&rest[..BLOCK]) != 0 {
            return false;
        }
        rest = &rest[BLOCK..];
    }
    high_in(rest) == 0
}

// How often the byte stands in a block.
fn count_in(block: &[u8], byte: u8) -> u8
    requires { length block.now ≤ 64 }
    ensures { result ≡ tally (is_byte byte) block.now }
{
    let mut sum = 0u8;
    for b in block {
        if *b == byte {
            sum += 1;
        }
    }
    sum
}

// How many bytes of a block are above 127.
fn high_in(block: &[u8]) -> u8
    requires { length block.now ≤ 64 }
    ensures { result ≡ tally is_high block.now }
{
    let mut sum = 0u8;
    for b in block {
        if 127 < *b {
            sum += 1;
        }
    }
    sum
}
