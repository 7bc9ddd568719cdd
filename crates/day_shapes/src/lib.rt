// What the fields of a line have to be, and the first that is not. A shape has a letter for each field:
// `t` any text, `w` a whole number, `d` a decimal, `n` a whole number or `none`, `p` the name of a policy,
// `m` the name of a price mode, `*` whatever fields follow.
#![tactic(auto)]

ghost use Rattle.std.specs.Prelude.{◌≡◌, ◌≤◌, length, get_or, take};
ghost use Rattle.text.specs.Fields.{fields};
ghost use Rattle.trimming.specs.Trim.{trimmed};
ghost use Rattle.numeral.specs.Spelling.{whole_of};
ghost use Rattle.decimals.specs.Decimals.{decimal_of};
ghost use Rattle.day_line.specs.DayLine.{uncommented};
ghost use Rattle.day_shapes.specs.Shapes.{expected_number, step_of, number_judged, name_judged, option_judged, field_judged, end_judged, shape_judged};

use refusals::Refusal;

// What has to stand where something else does.
#[derive(Clone, Copy)]
pub enum Expected {
    MoreFields,
    NoMoreFields,
    OneOfTheNames,
    // A number: what stands there is refused so.
    Number(Refusal),
    KnownCommand,
}

impl Expected {
    // The number that tells it: 1 more fields, 2 no more fields, 3 one of the names, 5 a whole number, 6 a decimal, 7 a decimal of fewer digits,
    // 8 a known command.
    pub fn number(self) -> u64
        ensures { result ≡ expected_number self }
    {
        match self {
            Expected::MoreFields => 1,
            Expected::NoMoreFields => 2,
            Expected::OneOfTheNames => 3,
            Expected::Number(refusal) => refusal.number(),
            Expected::KnownCommand => 8,
        }
    }
}

// A field that is not what it has to be, counted from 0, and what was expected there.
#[derive(Clone, Copy)]
pub struct WrongField {
    pub field: u64,
    pub expected: Expected,
}

// Refuses the first field of a line that is not of its shape.
pub fn shape_judged(line: &[u8], shape: &[u8]) -> Result<(), WrongField>
    ensures { result ≡ shape_judged 0 shape.now (fields (uncommented line.now)) }
{
    fields_judged(day_line::uncommented(line), shape)
}

// The same of a line that has no comment.
fn fields_judged(line: &[u8], shape: &[u8]) -> Result<(), WrongField>
    ensures { result ≡ shape_judged 0 shape.now (fields line.now) }
{
    let mut rest = line;
    let mut left = shape;
    let mut place = 0u64;
    // No index is counted: each turn takes the rest behind a comma, and what is left of the shape.
    loop {
        let comma = blocks::near::find(rest, b',');
        if let Err(expected) = judge_to(rest, comma, left) {
            return Err(WrongField {
                field: place,
                expected,
            });
        }
        let step = step_of(left);
        left = &left[step..];
        place += 1;
        if rest.len() <= comma {
            return end_judged(left, place);
        }
        let next = comma + 1;
        rest = &rest[next..];
    }
}

// Judges the field up to a comma, which has to be of the shape's first letter.
fn judge_to(rest: &[u8], comma: usize, shape: &[u8]) -> Result<(), Expected>
    requires { comma ≤ length rest.now }
    ensures { result ≡ field_judged (get_or shape.now 0 0) (trimmed (take comma rest.now)) }
{
    judge_field(first_letter(shape), trimming::trim(&rest[..comma]))
}

// The first letter of a shape, 0 where none is left.
fn first_letter(shape: &[u8]) -> u8
    ensures { result ≡ get_or shape.now 0 0 }
{
    if 0 < shape.len() { shape[0] } else { 0 }
}

// How many letters a field uses up: none of an empty shape, and none of one that lets fields follow.
fn step_of(shape: &[u8]) -> usize
    ensures { result ≡ step_of shape.now }
{
    if 0 < shape.len() && shape[0] != b'*' {
        1
    } else {
        0
    }
}

// The answer at the line's end, after so many fields.
fn end_judged(shape: &[u8], place: u64) -> Result<(), WrongField>
    ensures { result ≡ end_judged shape.now place }
{
    if 0 < shape.len() && shape[0] != b'*' {
        Err(WrongField {
            field: place,
            expected: Expected::MoreFields,
        })
    } else {
        Ok(())
    }
}

// Judges a field that has to be of a letter.
#[tactic(auto, unfolding(crate::specs::Shapes::field_judged))]
fn judge_field(letter: u8, field: &[u8]) -> Result<(), Expected>
    ensures { result ≡ field_judged letter field.now }
{
    match letter {
        b't' => Ok(()),
        b'w' => judge_whole(field),
        b'd' => judge_decimal(field),
        b'n' => judge_option(field),
        b'p' => judge_name(day_names::policy_of(field)),
        b'm' => judge_name(day_names::prices_of(field)),
        b'*' => Ok(()),
        _ => Err(Expected::NoMoreFields),
    }
}

fn judge_whole(field: &[u8]) -> Result<(), Expected>
    ensures { result ≡ number_judged (whole_of field.now) }
{
    match numeral::whole(field) {
        Ok(_) => Ok(()),
        Err(refusal) => Err(Expected::Number(refusal)),
    }
}

fn judge_decimal(field: &[u8]) -> Result<(), Expected>
    ensures { result ≡ number_judged (decimal_of field.now) }
{
    match numeral::judge_decimal(field) {
        Ok(()) => Ok(()),
        Err(refusal) => Err(Expected::Number(refusal)),
    }
}

// Passes `none` and whole numbers.
fn judge_option(field: &[u8]) -> Result<(), Expected>
    ensures { result ≡ option_judged field.now }
{
    if day_names::is_none(field) {
        Ok(())
    } else {
        judge_whole(field)
    }
}

// Passes what has been named.
fn judge_name<N: Copy>(named: Option<N>) -> Result<(), Expected>
    ensures { result ≡ name_judged named }
{
    match named {
        Some(_) => Ok(()),
        None => Err(Expected::OneOfTheNames),
    }
}
