// Means of whole_number sums and floats on a page, to six decimals, and shares in whole percents.
#![tactic(auto)]

ghost use Rattle.std.specs.Prelude.{◌≡◌, ◌+◌, ◌*◌, ◌/◌, ◌^◌, ◌≤◌, max};
ghost use Rattle.page.specs.Page.{Added};
ghost use Rattle.figures.specs.Figures.{limit, millionths, mean_text, mean_bar, share_text, figure_millionths, figure_text};

// Sums and counts up to here have their mean and their share written.
const LIMIT: u64 = 4000000000000;

fn at_least_one(n: u64) -> u64
    ensures { result ≡ max n 1 }
{
    if n < 1 { 1 } else { n }
}

// Half of `twice` over the count, rounded to the nearest, a half up.
fn nearest(twice: u64, count: u64) -> u64
    requires { (twice ≤ 2 * 10 ^ 6 * limit) × (count ≤ limit) }
    ensures { result ≡ (twice + max count 1) / (2 * max count 1) }
{
    let by = at_least_one(count);
    (twice + by) / (2 * by)
}

// The mean in millionths.
fn mean(sum: u64, count: u64) -> u64
    requires { (sum ≤ limit) × (count ≤ limit) }
    ensures { result ≡ millionths sum count }
{
    nearest(2000000 * sum, count)
}

// Adds the mean of a sum over a count, where no count is one: six decimals, or `too large`.
pub fn append_mean(page: &mut [u8], used: usize, sum: u64, count: u64) -> usize
    ensures { Added page.old used (mean_text sum count) page.new result }
{
    if LIMIT < sum {
        return page::append(page, used, b"too large");
    }
    if LIMIT < count {
        return page::append(page, used, b"too large");
    }
    let millionths = mean(sum, count);
    page::append_millionths(page, used, millionths)
}

// Adds a bar for the eye: a mark for each whole one of the mean, 60 at most.
pub fn append_mean_bar(page: &mut [u8], used: usize, sum: u64, count: u64) -> usize
    ensures { Added page.old used (mean_bar sum count) page.new result }
{
    if LIMIT < sum {
        return page::append_bar(page, used, 0);
    }
    if LIMIT < count {
        return page::append_bar(page, used, 0);
    }
    let millionths = mean(sum, count);
    page::append_bar(page, used, millionths / 1000000)
}

// Adds what share of a whole a part is: in whole percents, or `too large`. Of nothing there is no share, but a `-`.
pub fn append_share(page: &mut [u8], used: usize, part: u64, whole: u64) -> usize
    ensures { Added page.old used (share_text part whole) page.new result }
{
    if whole < 1 {
        return page::append(page, used, b"-");
    }
    if LIMIT < part {
        return page::append(page, used, b"too large");
    }
    if LIMIT < whole {
        return page::append(page, used, b"too large");
    }
    let percent = nearest(200 * part, whole);
    let at = page::append_decimal(page, used, percent);
    page::append(page, at, b"%")
}

// A float in millionths: its whole part, once a half is added.
fn figure(x: f64) -> u64
    ensures { result ≡ figure_millionths x }
{
    numeral::whole_part(x * 1000000.0 + 0.5)
}

// Adds a float from 0.0 to below 10^12 by six decimals; any other is `out of range`.
pub fn append_figure(page: &mut [u8], used: usize, x: f64) -> usize
    ensures { Added page.old used (figure_text x) page.new result }
{
    if x < 0.0 {
        return page::append(page, used, b"out of range");
    }
    if x < 1000000000000.0 {
        let millionths = figure(x);
        return page::append_millionths(page, used, millionths);
    }
    page::append(page, used, b"out of range")
}
