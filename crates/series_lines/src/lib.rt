// The lines of the series, of the day figure and of what a collect answers.
#![tactic(auto)]

ghost use Rattle.page.specs.Page.{Added};
ghost use Rattle.series_lines.specs.Lines.{series_head, series_averages, series_means, series_row, series_bits, day_line, collect_line};

// How many seconds the series has.
pub fn series_head(page: &mut [u8], used: usize, line: u64, seconds: u64) -> usize
    ensures { Added page.old used (series_head line seconds) page.new result }
{
    let a = page::append_decimal(page, used, line);
    let b = page::append(page, a, b",series,seconds ");
    let c = page::append_decimal(page, b, seconds);
    page::append(page, c, b"\n")
}

// A second's means, and the share of its drafts that is committed.
fn series_averages(
    page: &mut [u8],
    used: usize,
    drafts: u64,
    sequences: u64,
    committed: u64,
    steps: u64,
) -> usize
    ensures { Added page.old used (series_averages drafts sequences committed steps) page.new result }
{
    let a = series_fields::mean_column(page, used, b",mean draft ", drafts, sequences);
    let b = series_fields::mean_column(page, a, b",mean batch ", sequences, steps);
    let c = series_fields::mean_column(page, b, b",mean committed ", committed, sequences);
    series_fields::share_column(page, c, b",survived ", committed, drafts)
}

// A second's means, and the bar.
fn series_means(
    page: &mut [u8],
    used: usize,
    drafts: u64,
    sequences: u64,
    committed: u64,
    steps: u64,
) -> usize
    ensures { Added page.old used (series_means drafts sequences committed steps) page.new result }
{
    let a = series_averages(page, used, drafts, sequences, committed, steps);
    let b = page::append(page, a, b",");
    let c = figures::append_mean_bar(page, b, drafts, sequences);
    page::append(page, c, b"\n")
}

// A second of the series: its sums, its means, the share of its drafts that is committed, and a bar as long as its mean draft.
pub fn series_row(
    page: &mut [u8],
    used: usize,
    line: u64,
    second: u64,
    drafts: u64,
    sequences: u64,
    committed: u64,
    steps: u64,
) -> usize
    ensures { Added page.old used (series_row line second drafts sequences committed steps) page.new result }
{
    let at = series_fields::series_sums(
        page, used, line, second, drafts, sequences, committed, steps,
    );
    series_means(page, at, drafts, sequences, committed, steps)
}

// A second of the series with its means by their bits.
pub fn series_bits(
    page: &mut [u8],
    used: usize,
    line: u64,
    second: u64,
    mean_draft: f64,
    mean_batch: f64,
    mean_committed: f64,
) -> usize
    ensures { Added page.old used (series_bits line second mean_draft mean_batch mean_committed) page.new result }
{
    let a = page::append_decimal(page, used, line);
    let b = series_fields::column(page, a, b",series,second ", 10, second);
    let c = series_fields::bits_field(page, b, b",mean draft ", mean_draft);
    let d = series_fields::bits_field(page, c, b",mean batch ", mean_batch);
    let e = series_fields::bits_field(page, d, b",mean committed ", mean_committed);
    page::append(page, e, b"\n")
}

// The day figure.
pub fn day(page: &mut [u8], used: usize, line: u64, figure: f64) -> usize
    ensures { Added page.old used (day_line line figure) page.new result }
{
    series_fields::float_line(page, used, line, b",day,figure ", figure)
}

// The seconds that a collect answers.
pub fn collect(page: &mut [u8], used: usize, line: u64, seconds: f64) -> usize
    ensures { Added page.old used (collect_line line seconds) page.new result }
{
    series_fields::float_line(page, used, line, b",collect,seconds ", seconds)
}
