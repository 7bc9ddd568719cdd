// A line of a day file: what stands before its comment, its fields, and what they have to be.
ghost use Rattle.std.specs.Prelude.{◌≡◌, length};
ghost use Rattle.decimals.specs.Decimals.{decimal_of};
ghost use Rattle.numeral.specs.Spelling.{whole_of};
ghost use Rattle.text.specs.Fields.{fields};
ghost use Rattle.day_line.specs.DayLine.{uncommented, field_of};
ghost use Rattle.day_shapes.specs.Shapes.{shape_judged};
ghost use Rattle.day_fields.specs.Commands.{line_judged};
ghost use Rattle.exported.specs.Telling.{part_told};
ghost use Rattle.exported.specs.Spelled.{whole_told, decimal_told};
ghost use Rattle.exported_days.specs.Days.{judged_told};

use day_shapes::WrongField;
use exported::Told;

// `first` is the length of what stands before the comment, `second` its byte at `at`.
#[unsafe(no_mangle)]
pub extern "C" fn day_line_uncommented(line: &[u8], at: usize) -> Told
    ensures { result ≡ part_told (uncommented line.now) at }
{
    exported::part_told(day_line::uncommented(line), at)
}

// `first` is the field's length, `second` its byte at `at`.
#[unsafe(no_mangle)]
pub extern "C" fn day_line_field(line: &[u8], place: usize, at: usize) -> Told
    ensures { result ≡ part_told (field_of line.now place) at }
{
    exported::part_told(day_line::field(line, place), at)
}

#[unsafe(no_mangle)]
pub extern "C" fn day_line_field_count(line: &[u8]) -> usize
    ensures { result ≡ length (fields (uncommented line.now)) }
{
    day_line::field_count(line)
}

// `refusal` is what was expected, 0 where all is right; `second` is the field that is wrong.
#[unsafe(no_mangle)]
pub extern "C" fn day_shapes_shape_judged(line: &[u8], shape: &[u8]) -> Told
    ensures { result ≡ judged_told (shape_judged 0 shape.now (fields (uncommented line.now))) }
{
    judged_told(day_shapes::shape_judged(line, shape))
}

// `refusal` and `second` as of a shape.
#[unsafe(no_mangle)]
pub extern "C" fn day_fields_line_judged(line: &[u8]) -> Told
    ensures { result ≡ judged_told (line_judged line.now) }
{
    judged_told(day_fields::line_judged(line))
}

// `first` is the value.
#[unsafe(no_mangle)]
pub extern "C" fn day_fields_whole_in(line: &[u8], place: usize) -> Told
    ensures { result ≡ whole_told (whole_of (field_of line.now place)) }
{
    exported::whole_told(day_fields::whole_in(line, place))
}

// `first` is the bits of the value.
#[unsafe(no_mangle)]
pub extern "C" fn day_fields_decimal_in(line: &[u8], place: usize) -> Told
    ensures { result ≡ decimal_told (decimal_of (field_of line.now place)) }
{
    exported::decimal_told(day_fields::decimal_in(line, place))
}

fn judged_told(judged: Result<(), WrongField>) -> Told
    ensures { result ≡ judged_told judged }
{
    match judged {
        Ok(()) => Told {
            refusal: 0,
            first: 0,
            second: 0,
        },
        Err(wrong) => Told {
            refusal: wrong.expected.number(),
            first: 0,
            second: wrong.field,
        },
    }
}
