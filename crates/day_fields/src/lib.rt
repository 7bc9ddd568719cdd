// What a line of a day file asks for, judged and read: the shape of every command, and the values of fields.
#![tactic(auto)]

ghost use Rattle.std.specs.Prelude.{◌≡◌};
ghost use Rattle.numeral.specs.Spelling.{whole_of};
ghost use Rattle.decimals.specs.Decimals.{decimal_of};
ghost use Rattle.day_line.specs.DayLine.{field_of};
ghost use Rattle.day_fields.specs.Commands.{acceptance_judged, drafter_judged, line_judged};

use day_names::{AcceptanceName, Command, DrafterName};
use day_shapes::{Expected, WrongField, shape_judged};
use refusals::Refusal;

// Refuses the first field of a line that is not what its command asks for, and the first of all where the command is not known. A list at a line's
// end is not judged here.
#[tactic(auto, unfolding(crate::specs::Commands::line_judged))]
pub fn line_judged(line: &[u8]) -> Result<(), WrongField>
    ensures { result ≡ line_judged line.now }
{
    match day_names::command_of(line) {
        Some(Command::Nothing) => Ok(()),
        Some(Command::Gamma) => shape_judged(line, b"tw"),
        Some(Command::Policy) => shape_judged(line, b"tp"),
        Some(Command::Acceptance) => acceptance_judged(line),
        Some(Command::Drafter) => drafter_judged(line),
        Some(Command::Switch) => shape_judged(line, b"twnd"),
        Some(Command::Rates) => shape_judged(line, b"tddd"),
        Some(Command::Roofline) => shape_judged(line, b"t*"),
        Some(Command::Table) => shape_judged(line, b"tt"),
        Some(Command::Loaded) => shape_judged(line, b"t*"),
        Some(Command::Prices) => shape_judged(line, b"tm"),
        Some(Command::Plan) => shape_judged(line, b"twwdw*"),
        Some(Command::Collect) => shape_judged(line, b"tww"),
        Some(Command::Withdraw) => shape_judged(line, b"t"),
        Some(Command::Series) => shape_judged(line, b"t"),
        Some(Command::SeriesBits) => shape_judged(line, b"tt"),
        Some(Command::Day) => shape_judged(line, b"t"),
        Some(Command::Settles) => shape_judged(line, b"tww"),
        None => Err(WrongField {
            field: 0,
            expected: Expected::KnownCommand,
        }),
    }
}

// The same of a line that sets how drafts are accepted: by its second field.
fn acceptance_judged(line: &[u8]) -> Result<(), WrongField>
    ensures { result ≡ acceptance_judged line.now }
{
    match day_names::acceptance_of(day_line::field(line, 1)) {
        Some(AcceptanceName::Constant) => shape_judged(line, b"ttd"),
        Some(AcceptanceName::PerPosition) => shape_judged(line, b"tt*"),
        Some(AcceptanceName::Trace) => shape_judged(line, b"ttt"),
        None => Err(WrongField {
            field: 1,
            expected: Expected::OneOfTheNames,
        }),
    }
}

// The same of a line that sets the drafter: by its second field.
fn drafter_judged(line: &[u8]) -> Result<(), WrongField>
    ensures { result ≡ drafter_judged line.now }
{
    match day_names::drafter_of(day_line::field(line, 1)) {
        Some(DrafterName::Fraction) => shape_judged(line, b"ttd"),
        Some(DrafterName::Autoregressive) => shape_judged(line, b"ttddwww"),
        Some(DrafterName::BlockParallel) => shape_judged(line, b"ttdw"),
        Some(DrafterName::Absent) => shape_judged(line, b"tt"),
        None => Err(WrongField {
            field: 1,
            expected: Expected::OneOfTheNames,
        }),
    }
}

// The whole number in the field at a place.
pub fn whole_in(line: &[u8], place: usize) -> Result<u32, Refusal>
    ensures { result ≡ whole_of (field_of line.now place) }
{
    numeral::whole(day_line::field(line, place))
}

// The decimal in the field at a place.
pub fn decimal_in(line: &[u8], place: usize) -> Result<f64, Refusal>
    ensures { result ≡ decimal_of (field_of line.now place) }
{
    numeral::decimal(day_line::field(line, place))
}
