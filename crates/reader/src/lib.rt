// The text reader: it holds the lent text and its place. `line_at` and `field_at` do the work, on a plain slice and numbers;
// the functions over `Reader` are thin ones above them.
#![tactic(auto)]

ghost use Rattle.std.specs.Prelude.{◌≡◌};
ghost use Rattle.reader.specs.Reading.{line_at, field_at, second_line, moved_behind};

use blocks::near;
use text::first_line;

// The lent text, and the place that is read next.
#[derive(Clone, Copy)]
pub struct Reader<'a> {
    pub text: &'a [u8],
    pub at: usize,
}

// What stands at a place of a text: it is `&text[start..stop]`, and what follows it starts at `next`.
#[derive(Clone, Copy, Debug, PartialEq, Eq)]
pub struct Span {
    pub start: usize,
    pub stop: usize,
    pub next: usize,
}

// The line that starts at a place; none at the text's end.
pub fn line_at(text: &[u8], at: usize) -> Option<Span>
    ensures { result ≡ line_at text.now at }
{
    if text.len() <= at {
        return None;
    }
    let line = first_line(&text[at..]);
    Some(Span {
        start: at,
        stop: at + line.stop,
        next: at + line.next,
    })
}

// The field that starts at a place, in a line that stops at `stop`; none past the line's end.
#[tactic(auto, unfolding(crate::specs::Reading::field_at))]
pub fn field_at(text: &[u8], at: usize, stop: usize) -> Option<Span>
    ensures { result ≡ field_at text.now at stop }
{
    if at <= stop && stop <= text.len() {
        let comma = at + near::find(&text[at..stop], b',');
        Some(Span {
            start: at,
            stop: comma,
            next: comma + 1,
        })
    } else {
        None
    }
}

// A reader at the start of a text.
pub fn new<'a>(text: &'a [u8]) -> Reader<'a>
    ensures { (result.text ≡ text.entry) × (result.at ≡ 0) }
{
    Reader { text, at: 0 }
}

// A reader of the same text at another place.
pub fn moved<'a>(r: Reader<'a>, at: usize) -> Reader<'a>
    ensures { (result.text ≡ r.entry.text) × (result.at ≡ at) }
{
    Reader { text: r.text, at }
}

// The line at the reader's place.
pub fn next_line<'a>(r: Reader<'a>) -> Option<Span>
    ensures { result ≡ line_at r.entry.text.now r.entry.at }
{
    line_at(r.text, r.at)
}

// The field at the reader's place, in a line that stops at `stop`.
pub fn next_field<'a>(r: Reader<'a>, stop: usize) -> Option<Span>
    ensures { result ≡ field_at r.entry.text.now r.entry.at stop }
{
    field_at(r.text, r.at, stop)
}

// The line at the place of a reader that is lent; the place moves on to the next line, and stays where there is none.
pub fn read_line<'s, 'a>(r: &'s mut Reader<'a>) -> Option<Span>
    ensures { (result ≡ line_at r.old.text.now r.old.at)
        × (r.new ≡ moved_behind r.old result) }
{
    let line = line_at(r.text, r.at)?;
    r.at = line.next;
    Some(line)
}

// The same of a field, in a line that stops at `stop`: the place moves on to the next field.
pub fn read_field<'s, 'a>(r: &'s mut Reader<'a>, stop: usize) -> Option<Span>
    ensures { (result ≡ field_at r.old.text.now r.old.at stop)
        × (r.new ≡ moved_behind r.old result) }
{
    let field = field_at(r.text, r.at, stop)?;
    r.at = field.next;
    Some(field)
}

// The second line of a text, the one behind a header. Its parameters are plain: whoever calls it holds no reader.
pub fn second_line(text: &[u8]) -> Option<Span>
    ensures { result ≡ second_line text.now }
{
    let r = new(text);
    let line = next_line(r)?;
    next_line(moved(r, line.next))
}
