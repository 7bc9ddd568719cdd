// The judge: it reads a text and gives the first refusal, in the order of the rules, or the size of the bank. It writes nothing.
ghost use Rattle.std.specs.Prelude.{◌≡◌, ◌∷◌, drop};
ghost use Rattle.text.specs.Lines.{lines};
ghost use Rattle.text.specs.Fields.{fields};
ghost use Rattle.bank_judge.specs.Judge.{depth_of, header_judged, signals_judged, row_judged, round_judged, at_row, judge_rows, judge_lines, judged};

use crate::{BankSize, MOST_COLUMNS, MOST_DEPTH, MOST_ROUNDS};
use refusals::{Refusal, RefusedRow};

// How many columns have a name that starts with `a`.
fn depth_of(header: &[u8]) -> usize
    ensures { result ≡ depth_of (fields header.now) }
{
    let mut rest = header;
    let mut depth = 0usize;
    // no index is counted: each turn takes the rest behind a comma
    loop {
        if text::starts_with(rest, b'a') {
            depth += 1;
        }
        let comma = blocks::near::find(rest, b',');
        if rest.len() <= comma {
            return depth;
        }
        let next = comma + 1;
        rest = &rest[next..];
    }
}

// Refuses a wrong header; the curve has room for `room` entries.
#[tactic(auto, unfolding(crate::specs::Judge::header_judged))]
fn judge_header(header: &[u8], room: usize) -> Result<(), Refusal>
    ensures { result ≡ header_judged (fields header.now) room }
{
    if !text::same(text::field(header, 0), b"commits") {
        return Err(Refusal::WrongHeader);
    }
    let depth = depth_of(header);
    if depth == 0 {
        Err(Refusal::WrongHeader)
    } else if text::field_count(header) <= MOST_COLUMNS && depth <= MOST_DEPTH {
        if depth < room {
            Ok(())
        } else {
            Err(Refusal::ShortBuffer)
        }
    } else {
        Err(Refusal::Size)
    }
}

// Refuses the first of the fields after the first `skip` that is no decimal.
fn judge_signals(line: &[u8], skip: usize) -> Result<(), Refusal>
    ensures { result ≡ signals_judged (drop skip (fields line.now)) }
{
    let mut rest = line;
    let mut left = skip;
    // no index is counted: each turn takes the rest behind a comma
    loop {
        let comma = if 0 < left {
            left -= 1;
            blocks::near::find(rest, b',')
        } else {
            let front = first_field::inner::judge(rest);
            front.judged?;
            front.length
        };
        if rest.len() <= comma {
            return Ok(());
        }
        let next = comma + 1;
        rest = &rest[next..];
    }
}

// Refuses a row that has not `width` fields, or a number in it that is none; its signal stands after the first `skip`.
#[tactic(auto, unfolding(crate::specs::Judge::row_judged))]
fn judge_row(line: &[u8], width: usize, skip: usize) -> Result<(), Refusal>
    ensures { result ≡ row_judged width skip (fields line.now) }
{
    if text::field_count(line) == width {
        numeral::whole(text::field(line, 0))?;
        judge_signals(line, skip)
    } else {
        Err(Refusal::FieldCount)
    }
}

// Refuses the row of a round, then more rounds than a bank has, then more than there is room for.
#[tactic(auto, unfolding(crate::specs::Judge::round_judged))]
fn judge_round(
    line: &[u8],
    width: usize,
    skip: usize,
    room: usize,
    round: usize,
) -> Result<(), Refusal>
    ensures { result ≡ round_judged width skip room (fields line.now) round }
{
    judge_row(line, width, skip)?;
    if MOST_ROUNDS <= round {
        return Err(Refusal::Size);
    }
    if round < room {
        Ok(())
    } else {
        Err(Refusal::ShortBuffer)
    }
}

// A judgement of a row, with the row.
fn at_row(judgement: Result<(), Refusal>, row: u64) -> Result<(), RefusedRow>
    ensures { result ≡ at_row judgement row }
{
    match judgement {
        Ok(()) => Ok(()),
        Err(refusal) => Err(RefusedRow { refusal, row }),
    }
}

// The first refusal of the rows, or the bank's size; there is room for `room` rounds.
fn judge_rows(
    rows: &[u8],
    width: usize,
    skip: usize,
    depth: u32,
    room: usize,
) -> Result<BankSize, RefusedRow>
    ensures { result ≡ judge_rows width skip depth room (lines rows.now) 0 }
{
    let mut rest = rows;
    let mut round = 0usize;
    // each turn takes the rest behind a line, and the rounds are as many as there are lines
    while 0 < rest.len() {
        let line = text::first_line(rest);
        let stop = line.stop;
        let next = line.next;
        let judgement = judge_round(&rest[..stop], width, skip, room, round);
        at_row(judgement, round as u64 + 2)?;
        round += 1;
        rest = &rest[next..];
    }
    if round == 0 {
        return Err(RefusedRow {
            refusal: Refusal::NoRows,
            row: 0,
        });
    }
    Ok(BankSize {
        depth,
        rounds: round as u32,
    })
}

// The first refusal of the header and the rows, or the bank's size; the three numbers are the room in the buffers.
fn judge_lines(
    header: &[u8],
    rows: &[u8],
    commits: usize,
    signals: usize,
    curve: usize,
) -> Result<BankSize, RefusedRow>
    ensures { result ≡ judge_lines (header.now ∷ lines rows.now) commits signals curve }
{
    at_row(judge_header(header, curve), 1)?;
    let width = text::field_count(header);
    let depth = depth_of(header);
    let room = commits.min(signals / depth);
    judge_rows(rows, width, width - depth, depth as u32, room)
}

// The first refusal of the text, or the bank's size; the three numbers are the room in the buffers.
pub fn judge(
    text: &[u8],
    commits: usize,
    signals: usize,
    curve: usize,
) -> Result<BankSize, RefusedRow>
    ensures { result ≡ judged text.now commits signals curve }
{
    if !blocks::is_ascii(text) {
        return Err(RefusedRow {
            refusal: Refusal::NotAscii,
            row: 0,
        });
    }
    if text.len() == 0 {
        return Err(RefusedRow {
            refusal: Refusal::EmptyText,
            row: 0,
        });
    }
    let line = text::first_line(text);
    let stop = line.stop;
    let next = line.next;
    judge_lines(&text[..stop], &text[next..], commits, signals, curve)
}
