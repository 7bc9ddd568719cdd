// What a reader finds at a place of a text. In each answer `first` is 1 where something is found, else 0, and `second` the place that is asked
// for: 0 where it starts, 1 where it stops, any other number where the next one starts; where nothing is found, the place that was looked at.
ghost use Rattle.std.specs.Prelude.{◌≡◌, length};
ghost use Rattle.reader.specs.Reading.{line_at, field_at, second_line};
ghost use Rattle.exported_texts.specs.Places.{place_of, span_told};

use exported::Told;
use reader::Span;

#[unsafe(no_mangle)]
pub extern "C" fn reader_line_at(text: &[u8], at: usize, asked: u64) -> Told
    ensures { result ≡ span_told asked at (line_at text.now at) }
{
    span_told(asked, at, reader::line_at(text, at))
}

#[unsafe(no_mangle)]
pub extern "C" fn reader_field_at(text: &[u8], at: usize, stop: usize, asked: u64) -> Told
    ensures { result ≡ span_told asked at (field_at text.now at stop) }
{
    span_told(asked, at, reader::field_at(text, at, stop))
}

// Where there is no second line, the text's end was looked at.
#[unsafe(no_mangle)]
pub extern "C" fn reader_second_line(text: &[u8], asked: u64) -> Told
    ensures { result ≡ span_told asked (length text.now) (second_line text.now) }
{
    span_told(asked, text.len(), reader::second_line(text))
}

fn span_told(asked: u64, at: usize, span: Option<Span>) -> Told
    ensures { result ≡ span_told asked at span }
{
    match span {
        Some(found) => Told {
            refusal: 0,
            first: 1,
            second: place_of(asked, found),
        },
        None => Told {
            refusal: 0,
            first: 0,
            second: at as u64,
        },
    }
}

fn place_of(asked: u64, span: Span) -> u64
    ensures { result ≡ place_of asked span }
{
    match asked {
        0 => span.start as u64,
        1 => span.stop as u64,
        _ => span.next as u64,
    }
}
