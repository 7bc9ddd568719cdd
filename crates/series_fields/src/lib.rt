// The parts that the lines of the series, of the day figure and of a collect are made of.
#![tactic(auto)]

ghost use Rattle.page.specs.Page.{Added};
ghost use Rattle.series_fields.specs.Fields.{column, mean_column, share_column, bits_field, series_sums, float_line};

// Adds a name and its number in a column of this width.
pub fn column(page: &mut [u8], used: usize, name: &[u8], width: usize, n: u64) -> usize
    ensures { Added page.old used (column name.now width n) page.new result }
{
    let at = page::append(page, used, name);
    columns::append_number(page, at, width, n)
}

// Adds a name and a mean.
pub fn mean_column(page: &mut [u8], used: usize, name: &[u8], sum: u64, count: u64) -> usize
    ensures { Added page.old used (mean_column name.now sum count) page.new result }
{
    let at = page::append(page, used, name);
    columns::append_mean(page, at, 11, sum, count)
}

// Adds a name and a share.
pub fn share_column(page: &mut [u8], used: usize, name: &[u8], part: u64, whole: u64) -> usize
    ensures { Added page.old used (share_column name.now part whole) page.new result }
{
    let at = page::append(page, used, name);
    columns::append_share(page, at, 4, part, whole)
}

// Adds a name and a float's bits.
pub fn bits_field(page: &mut [u8], used: usize, name: &[u8], x: f64) -> usize
    ensures { Added page.old used (bits_field name.now x) page.new result }
{
    let at = page::append(page, used, name);
    let bits = float::bits(x);
    page::append_hex(page, at, bits)
}

// A second's sums.
pub fn series_sums(
    page: &mut [u8],
    used: usize,
    line: u64,
    second: u64,
    drafts: u64,
    sequences: u64,
    committed: u64,
    steps: u64,
) -> usize
    ensures { Added page.old used (series_sums line second drafts sequences committed steps) page.new result }
{
    let a = page::append_decimal(page, used, line);
    let b = column(page, a, b",series,second ", 10, second);
    let c = column(page, b, b",drafts ", 8, drafts);
    let d = column(page, c, b",sequences ", 7, sequences);
    let e = column(page, d, b",committed ", 8, committed);
    column(page, e, b",steps ", 6, steps)
}

// A float behind a name, by six decimals and by its bits.
pub fn float_line(page: &mut [u8], used: usize, line: u64, name: &[u8], x: f64) -> usize
    ensures { Added page.old used (float_line line name.now x) page.new result }
{
    let a = page::append_decimal(page, used, line);
    let b = page::append(page, a, name);
    let c = figures::append_figure(page, b, x);
    let d = bits_field(page, c, b",bits ", x);
    page::append(page, d, b"\n")
}
