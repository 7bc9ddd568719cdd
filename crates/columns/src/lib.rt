// Numbers, means and shares in the columns of a page: blanks in front, up to a width.
#![tactic(auto)]

ghost use Rattle.std.specs.Prelude.{◌≡◌};
ghost use Rattle.page.specs.Page.{Added};
ghost use Rattle.page.specs.Numbers.{decimal};
ghost use Rattle.figures.specs.Figures.{mean_text, share_text};
ghost use Rattle.columns.specs.Columns.{blanks, padded};

// Adds so many blanks.
fn append_blanks(page: &mut [u8], used: usize, n: usize) -> usize
    ensures { Added page.old used (blanks n) page.new result }
{
    let mut at = page::append(page, used, b"");
    for _ in 0..n {
        at = page::append(page, at, b" ");
    }
    at
}

// Adds a text in a column of this width: no blank where it is as wide as the column, or wider.
pub fn append_padded(page: &mut [u8], used: usize, width: usize, text: &[u8]) -> usize
    ensures { Added page.old used (padded width text.now) page.new result }
{
    let front = width.saturating_sub(text.len());
    let at = append_blanks(page, used, front);
    page::append(page, at, text)
}

// Adds a whole number in a column of this width.
pub fn append_number(page: &mut [u8], used: usize, width: usize, n: u64) -> usize
    ensures { Added page.old used (padded width (decimal n)) page.new result }
{
    let mut text = [0u8; 32];
    let k = page::append_decimal(&mut text, 0, n);
    append_padded(page, used, width, &text[..k])
}

// Adds the mean of a sum over a count in a column of this width.
pub fn append_mean(page: &mut [u8], used: usize, width: usize, sum: u64, count: u64) -> usize
    ensures { Added page.old used (padded width (mean_text sum count)) page.new result }
{
    let mut text = [0u8; 32];
    let k = figures::append_mean(&mut text, 0, sum, count);
    append_padded(page, used, width, &text[..k])
}

// Adds what share of a whole a part is in a column of this width.
pub fn append_share(page: &mut [u8], used: usize, width: usize, part: u64, whole: u64) -> usize
    ensures { Added page.old used (padded width (share_text part whole)) page.new result }
{
    let mut text = [0u8; 32];
    let k = figures::append_share(&mut text, 0, part, whole);
    append_padded(page, used, width, &text[..k])
}
