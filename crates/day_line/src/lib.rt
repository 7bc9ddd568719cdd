// A line of a day file: what stands before its comment, and the fields of that.
#![tactic(auto)]

ghost use Rattle.std.specs.Prelude.{◌≡◌, length};
ghost use Rattle.text.specs.Fields.{fields};
ghost use Rattle.day_line.specs.DayLine.{uncommented, field_of};

// A line without the comment that a `#` starts, and without blanks at its ends.
pub fn uncommented(line: &[u8]) -> &[u8]
    ensures { result.now ≡ uncommented line.now }
{
    let stop = blocks::near::find(line, b'#');
    trimming::trim(&line[..stop])
}

// The field at a place, counted from 0, without blanks at its ends; an empty one where the line has fewer.
pub fn field(line: &[u8], place: usize) -> &[u8]
    ensures { result.now ≡ field_of line.now place }
{
    trimming::trim(text::field(uncommented(line), place))
}

// How many fields a line has before its comment: one more than commas.
pub fn field_count(line: &[u8]) -> usize
    ensures { result ≡ length (fields (uncommented line.now)) }
{
    text::field_count(uncommented(line))
}
