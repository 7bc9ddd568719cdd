// What a line of a cost table says.
ghost use Rattle.std.specs.Prelude.{◌≡◌};
ghost use Rattle.text.specs.Fields.{fields};
ghost use Rattle.trimming.specs.Trim.{trimmed};
ghost use Rattle.numeral.specs.Spelling.{whole_of};
ghost use Rattle.decimals.specs.Decimals.{decimal_of};
ghost use Rattle.table_line.specs.Line.{values_read, numbers_read, row_read, line_read};

use refusals::Refusal;

// A row: a step of so many drafts in a batch took so many seconds.
#[derive(Clone, Copy)]
pub struct Row {
    pub depth: u32,
    pub batch: u32,
    pub seconds: f64,
}

// The row of three numbers: the seconds are above zero, and a step has at least one token.
#[tactic(auto, unfolding(crate::specs::Line::values_read))]
fn row_of(batch: u32, tokens: u32, seconds: f64) -> Result<Row, Refusal>
    ensures { result ≡ values_read batch tokens seconds }
{
    if seconds > 0.0 {
        if tokens == 0 {
            return Err(Refusal::NoDrafts);
        }
        return Ok(Row {
            depth: tokens - 1,
            batch,
            seconds,
        });
    }
    Err(Refusal::StepSeconds)
}

// What a row of three fields says, each once trimmed.
#[tactic(auto, unfolding(crate::specs::Line::numbers_read))]
fn fields_read(batch: &[u8], tokens: &[u8], seconds: &[u8]) -> Result<Row, Refusal>
    ensures { result ≡ numbers_read (whole_of (trimmed batch.now)) (whole_of (trimmed tokens.now)) (decimal_of (trimmed seconds.now)) }
{
    let batch = numeral::whole(trimming::trim(batch))?;
    let tokens = numeral::whole(trimming::trim(tokens))?;
    let seconds = numeral::decimal(trimming::trim(seconds))?;
    row_of(batch, tokens, seconds)
}

// What a line that is not blank says: its fields stand before, between and behind two commas.
fn read_row(line: &[u8]) -> Result<Row, Refusal>
    ensures { result ≡ row_read (fields line.now) }
{
    let first = blocks::near::find(line, b',');
    if line.len() <= first {
        return Err(Refusal::FieldCount);
    }
    let from = first + 1;
    let rest = &line[from..];
    let second = blocks::near::find(rest, b',');
    if rest.len() <= second {
        return Err(Refusal::FieldCount);
    }
    let behind = second + 1;
    let last = &rest[behind..];
    if blocks::near::find(last, b',') < last.len() {
        return Err(Refusal::FieldCount);
    }
    fields_read(&line[..first], &rest[..second], last)
}

// What a line says: nothing where it is empty once trimmed.
#[tactic(auto, unfolding(crate::specs::Line::line_read))]
pub fn read_line(line: &[u8]) -> Result<Option<Row>, Refusal>
    ensures { result ≡ line_read line.now }
{
    if trimming::trim(line).len() == 0 {
        return Ok(None);
    }
    Ok(Some(read_row(line)?))
}
