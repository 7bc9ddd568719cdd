// What other crates use and no entry point is.
ghost use Rattle.std.specs.Prelude.{◌≡◌, ◌-◌, length};
ghost use Rattle.text.specs.Lines.{first_line, after_line};

use crate::Line;
use blocks::near;

// The first line, as `first_line` has it, of a text whose lines are short: its end is looked for byte by byte.
pub fn short_line(s: &[u8]) -> Line
    ensures stop { result.stop ≡ length (first_line s.now) }
    ensures next { result.next ≡ length s.now - length (after_line s.now) }
{
    crate::line_to(s, near::find(s, b'\n'))
}
