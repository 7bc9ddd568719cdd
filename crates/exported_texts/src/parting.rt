// The first line of a text, its fields, and a text without the blanks at its ends.
ghost use Rattle.std.specs.Prelude.{◌≡◌, [], length, get_or};
ghost use Rattle.exported.specs.Telling.{part_told};
ghost use Rattle.text.specs.Fields.{fields};
ghost use Rattle.trimming.specs.Trim.{trimmed};
ghost use Rattle.exported_texts.specs.Places.{line_told};

use exported::Told;

// `first` is where the line stops, `second` where the next one starts.
#[unsafe(no_mangle)]
pub extern "C" fn text_first_line(s: &[u8]) -> Told
    ensures { result ≡ line_told s.now }
{
    let line = text::first_line(s);
    Told {
        refusal: 0,
        first: line.stop as u64,
        second: line.next as u64,
    }
}

#[unsafe(no_mangle)]
pub extern "C" fn text_field_count(s: &[u8]) -> usize
    ensures { result ≡ length (fields s.now) }
{
    text::field_count(s)
}

// `first` is the field's length, `second` its byte at `at`.
#[unsafe(no_mangle)]
pub extern "C" fn text_field(s: &[u8], place: usize, at: usize) -> Told
    ensures { result ≡ part_told (get_or (fields s.now) place []) at }
{
    exported::part_told(text::field(s, place), at)
}

// `first` is the trimmed text's length, `second` its byte at `at`.
#[unsafe(no_mangle)]
pub extern "C" fn trimming_trim(s: &[u8], at: usize) -> Told
    ensures { result ≡ part_told (trimmed s.now) at }
{
    exported::part_told(trimming::trim(s), at)
}
