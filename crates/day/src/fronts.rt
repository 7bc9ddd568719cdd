// The first line of what is left of a text.
ghost use Rattle.std.specs.Prelude.{◌<◌, ◌≤◌, length};

use text::Line;

// Where the first line stops and the next one starts, both within the text. The tests cost nothing beside the search for the line's end.
pub fn front(rest: &[u8]) -> Line
    requires { 0 < length rest.now }
    ensures { (result.stop ≤ length rest.now) × (0 < result.next) × (result.next ≤ length rest.now) }
{
    let line = text::first_line(rest);
    if rest.len() < line.stop {
        return all(rest.len());
    }
    if rest.len() < line.next {
        return all(rest.len());
    }
    if line.next == 0 {
        return all(rest.len());
    }
    line
}

fn all(length: usize) -> Line
    requires { 0 < length }
    ensures { (result.stop ≤ length) × (0 < result.next) × (result.next ≤ length) }
{
    Line {
        stop: length,
        next: length,
    }
}
