// The judge: it reads a text and gives the first refusal, in the order of the rules, or how many rows there are. It writes the rows into columns of its caller's own, which no caller of `read` sees.
ghost use Rattle.std.specs.Prelude.{◌≡◌, [], ◌∷◌, ◌≤◌, length, get_or, drop};
ghost use Rattle.text.specs.Lines.{lines};
ghost use Rattle.text.specs.Fields.{fields, same_text};
ghost use Rattle.trimming.specs.Trim.{trimmed};
ghost use Rattle.measured.specs.Judge.{header_right, judge_rows, judge_lines, judged};
ghost use Rattle.measured.specs.Fill.{rows_of, PutAt};

use crate::MOST_ROWS;
use cost_rows::inner;
use refusals::{Refusal, RefusedRow};
use table_line::line;

// Whether the column at a place has this name, once trimmed.
fn is_named(header: &[u8], place: usize, name: &[u8]) -> bool
    ensures { result ≡ same_text (trimmed (get_or (fields header.now) place [])) name.now }
{
    text::same(trimming::trim(text::field(header, place)), name)
}

// Whether the header has the three columns of a cost table.
#[tactic(auto, unfolding(crate::specs::Judge::header_right))]
fn is_header(header: &[u8]) -> bool
    ensures { result ≡ header_right (fields header.now) }
{
    text::field_count(header) == 3
        && is_named(header, 0, b"batch_size")
        && is_named(header, 1, b"num_draft_tokens")
        && is_named(header, 2, b"step_seconds")
}

// The first refusal of the lines after the header, or how many rows they hold, which then stand at the front of the columns; there is room for `room` rows.
fn judge_rows(
    text: &[u8],
    room: usize,
    depths: &mut [u32],
    batches: &mut [u32],
    seconds: &mut [f64],
) -> Result<u32, RefusedRow>
    requires { (4096 ≤ length depths.old) × (4096 ≤ length batches.old) × (4096 ≤ length seconds.old) }
    ensures answer { result ≡ judge_rows room (lines text.now) 2 0 }
    ensures rows { PutAt result (rows_of (lines text.now)) depths.new batches.new seconds.new }
{
    let mut rest = text;
    let mut next_row = 2u64;
    let mut rows = 0usize;
    // No index is counted: each turn takes the rest behind a line.
    while 0 < rest.len() {
        let first = text::inner::short_line(rest);
        let stop = first.stop;
        let next = first.next;
        let said = line::read_line(&rest[..stop]);
        let row = next_row;
        next_row += 1;
        rest = &rest[next..];
        match said {
            Ok(None) => {}
            Err(refusal) => {
                return Err(RefusedRow { refusal, row });
            }
            Ok(Some(read)) => {
                if MOST_ROWS <= rows {
                    return Err(RefusedRow {
                        refusal: Refusal::Size,
                        row,
                    });
                }
                if room <= rows {
                    return Err(RefusedRow {
                        refusal: Refusal::ShortBuffer,
                        row,
                    });
                }
                inner::put_row(
                    depths,
                    batches,
                    seconds,
                    rows,
                    read.depth,
                    read.batch,
                    read.seconds,
                );
                rows += 1;
            }
        }
    }
    if rows == 0 {
        return Err(RefusedRow {
            refusal: Refusal::NoRows,
            row: 0,
        });
    }
    Ok(rows as u32)
}

// The first refusal of the header and the lines after it, or how many rows they hold, which then stand at the front of the columns.
fn judge_lines(
    header: &[u8],
    rows: &[u8],
    room: usize,
    depths: &mut [u32],
    batches: &mut [u32],
    seconds: &mut [f64],
) -> Result<u32, RefusedRow>
    requires { (4096 ≤ length depths.old) × (4096 ≤ length batches.old) × (4096 ≤ length seconds.old) }
    ensures answer { result ≡ judge_lines room (header.now ∷ lines rows.now) }
    ensures rows { PutAt result (rows_of (lines rows.now)) depths.new batches.new seconds.new }
{
    if !is_header(header) {
        return Err(RefusedRow {
            refusal: Refusal::WrongHeader,
            row: 1,
        });
    }
    judge_rows(rows, room, depths, batches, seconds)
}

// The first refusal of the text, or how many rows it has, which then stand at the front of the columns; there is room for `room` rows.
pub fn judge(
    text: &[u8],
    room: usize,
    depths: &mut [u32],
    batches: &mut [u32],
    seconds: &mut [f64],
) -> Result<u32, RefusedRow>
    requires { (4096 ≤ length depths.old) × (4096 ≤ length batches.old) × (4096 ≤ length seconds.old) }
    ensures answer { result ≡ judged room text.now }
    ensures rows { PutAt result (rows_of (drop 1 (lines text.now))) depths.new batches.new seconds.new }
{
    if !blocks::is_ascii(text) {
        return Err(RefusedRow {
            refusal: Refusal::NotAscii,
            row: 0,
        });
    }
    if text.len() == 0 {
        return Err(RefusedRow {
            refusal: Refusal::EmptyText,
            row: 0,
        });
    }
    let first = text::first_line(text);
    let stop = first.stop;
    let next = first.next;
    judge_lines(&text[..stop], &text[next..], room, depths, batches, seconds)
}
