// What an accepted text leaves in the buffers. Nothing here refuses.
ghost use Rattle.std.specs.Prelude.{◌≡◌, [], suc, ◌+◌, ◌-◌, ◌≤◌, min, length, get_or, drop};
ghost use Rattle.std.proofs.lemmas.List.Edits.{sets};
ghost use Rattle.text.specs.Lines.{lines};
ghost use Rattle.text.specs.Fields.{fields};
ghost use Rattle.numeral.specs.Spelling.{whole_of};
ghost use Rattle.bank_fill.specs.Fill.{whole_value, decimal_value, commits_of, decimals_of, signals_of, Accepted};
ghost use Rattle.bank_curve.specs.Curve.{curve_from};

use bank_curve::inner;
use refusals::Refusal;

// A whole number's value, 0 for none.
fn whole_value(field: &[u8]) -> u32
    ensures { result ≡ whole_value (whole_of field.now) }
{
    match numeral::whole(field) {
        Ok(value) => value,
        Err(_) => 0,
    }
}

// A decimal's value, 0.0 for none.
fn decimal_value(read: Result<f64, Refusal>) -> f64
    ensures { result ≡ decimal_value read }
{
    match read {
        Ok(value) => value,
        Err(_) => 0.0,
    }
}

// The decimals after the first `skip` fields put from a place on, and the next place.
fn fill_row(line: &[u8], skip: usize, signals: &mut [f64], from: usize) -> usize
    requires { from ≤ length signals.old }
    ensures next { result ≡ min (from + length (decimals_of (drop skip (fields line.now)))) (length signals.old) }
    ensures stored { signals.new ≡ sets signals.old from (decimals_of (drop skip (fields line.now))) }
{
    let mut rest = line;
    let mut left = skip;
    let mut at = from;
    // no index is counted: each turn takes the rest behind a comma
    loop {
        let comma = if 0 < left {
            left -= 1;
            blocks::near::find(rest, b',')
        } else {
            let front = first_field::inner::decimal(rest);
            let read = front.decimal;
            at = inner::put(signals, at, decimal_value(read));
            front.length
        };
        if rest.len() <= comma {
            return at;
        }
        let next = comma + 1;
        rest = &rest[next..];
    }
}

// The rounds of the rows put at the front of the buffers.
fn fill_rows(rows: &[u8], skip: usize, commits: &mut [u32], signals: &mut [f64])
    ensures commits { commits.new ≡ sets commits.old 0 (commits_of (lines rows.now)) }
    ensures signals { signals.new ≡ sets signals.old 0 (signals_of skip (lines rows.now)) }
{
    let mut rest = rows;
    let mut round = 0usize;
    let mut at = 0usize;
    // no index is counted: each turn takes the rest behind a line
    while 0 < rest.len() {
        let line = text::first_line(rest);
        let stop = line.stop;
        let next = line.next;
        let row = &rest[..stop];
        round = inner::put(commits, round, whole_value(text::field(row, 0)));
        at = fill_row(row, skip, signals, at);
        rest = &rest[next..];
    }
}

// The buffers of an accepted text.
pub fn fill(
    text: &[u8],
    depth: u32,
    rounds: u32,
    commits: &mut [u32],
    signals: &mut [f64],
    curve: &mut [f64],
)
    requires { Accepted (lines text.now) (length commits.old) (length signals.old) (length curve.old) depth rounds }
    ensures commits { commits.new ≡ sets commits.old 0 (commits_of (drop 1 (lines text.now))) }
    ensures signals { signals.new ≡ sets signals.old 0 (signals_of (length (fields (get_or (lines text.now) 0 [])) - depth) (drop 1 (lines text.now))) }
    ensures curve { curve.new ≡ sets curve.old 0 (curve_from 0 (suc depth) (commits_of (drop 1 (lines text.now)))) }
{
    let line = text::first_line(text);
    let stop = line.stop;
    let next = line.next;
    let width = text::field_count(&text[..stop]);
    fill_rows(&text[next..], width - depth as usize, commits, signals);
    let count = rounds as usize;
    inner::fill_curve(&commits[..count], depth, curve);
}
