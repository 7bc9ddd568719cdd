// The rules' words for each refusal number.
#![tactic(auto)]

ghost use Rattle.std.specs.Prelude.{cond, ◌≡◌, ltb};
ghost use Rattle.text.specs.Fields.{fields};
ghost use Rattle.page.specs.Page.{Added};
ghost use Rattle.refusal_words.specs.Words.{entry, words_of};

// A number that is below the count, and 0 for any other.
fn place_below(count: usize, number: u64) -> usize
    ensures { result ≡ cond (ltb number count) number 0 }
{
    if number < count as u64 {
        number as usize
    } else {
        0
    }
}

// Adds the entry of a number, counted from 0, of those that stand between the table's commas; where there are fewer, the first.
pub fn append_entry(page: &mut [u8], used: usize, table: &[u8], number: u64) -> usize
    ensures { Added page.old used (entry (fields table.now) number) page.new result }
{
    let count = text::field_count(table);
    let words = text::field(table, place_below(count, number));
    page::append(page, used, words)
}

// Adds the words for a refusal's number to the page, and `unknown` for any other number.
pub fn append_words(page: &mut [u8], used: usize, number: u64) -> usize
    ensures { Added page.old used (words_of number) page.new result }
{
    let table = b"unknown,\
        a text byte is above 127,\
        the text has length 0,\
        the header is wrong,\
        a row's field count differs,\
        a whole number is malformed or above 4294967295,\
        a decimal is malformed,\
        a decimal has over 15 significant digits or over 22 decimals,\
        step_seconds is not above zero,\
        num_draft_tokens is 0,\
        no data rows,\
        a size is passed,\
        a setting is out of range,\
        a needed draw is absent,\
        a draw is not at least 0 and below 1 or a round index is not below the round count,\
        a cost input or signal value or chain or expected value or width or bank or table value or lent record is out of range,\
        a lent buffer is too short,\
        the worker is new and 256 are held,\
        the second is new and 4096 are held,\
        the second already has 1000000 steps,\
        no rows after sanitisation,\
        no withdrawal is available";
    append_entry(page, used, table, number)
}
