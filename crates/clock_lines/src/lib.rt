// The lines of the workers' clocks: the note on a plan at which one moved, and what a day ends with.
#![tactic(auto)]

ghost use Rattle.page.specs.Page.{Added};
ghost use Rattle.clock_lines.specs.Lines.{note_head, moved, counted_again, clock_told, note_line, clocks_line};

// A note's head: the plan's worker, and the hour.
fn note_head(page: &mut [u8], used: usize, line: u64, a: u64, b: u64, second: u64) -> usize
    ensures { Added page.old used (note_head line a b second) page.new result }
{
    let named = line_parts::headed(page, used, line, b",note,worker ", a);
    let whose = line_parts::labelled(page, named, b" ", b);
    line_parts::labelled(page, whose, b",hour ", second / 3600)
}

// How far a clock went, where it did.
fn moved(page: &mut [u8], used: usize, name: &[u8], seconds: u64) -> usize
    ensures { Added page.old used (moved name.now seconds) page.new result }
{
    if seconds == 0 {
        return page::append(page, used, b"");
    }
    let at = line_parts::labelled(page, used, name, seconds);
    page::append(page, at, b" s")
}

// From which second on steps are counted again, and how many are doubled, where any is.
fn counted_again(page: &mut [u8], used: usize, second: u64, doubled: u64) -> usize
    ensures { Added page.old used (counted_again second doubled) page.new result }
{
    if doubled == 0 {
        return page::append(page, used, b"");
    }
    let at = line_parts::labelled(page, used, b",counted again from second ", second);
    line_parts::labelled(page, at, b",steps doubled ", doubled)
}

// What a clock did.
fn clock_told(
    page: &mut [u8],
    used: usize,
    second: u64,
    back: u64,
    forward: u64,
    doubled: u64,
) -> usize
    ensures { Added page.old used (clock_told second back forward doubled) page.new result }
{
    let backward = moved(page, used, b",clock went back ", back);
    let onward = moved(page, backward, b",clock went forward ", forward);
    counted_again(page, onward, second, doubled)
}

// Adds the note on a plan: its worker, the hour, and what its clock did.
pub fn note(
    page: &mut [u8],
    used: usize,
    line: u64,
    a: u64,
    b: u64,
    second: u64,
    back: u64,
    forward: u64,
    doubled: u64,
) -> usize
    ensures { Added page.old used (note_line line a b second back forward doubled) page.new result }
{
    let head = note_head(page, used, line, a, b, second);
    let told = clock_told(page, head, second, back, forward, doubled);
    page::append(page, told, b"\n")
}

// Adds the line that a day ends with: how many workers made plans, and what their clocks did.
pub fn clocks(
    page: &mut [u8],
    used: usize,
    workers: u64,
    back: u64,
    forward: u64,
    doubled: u64,
) -> usize
    ensures { Added page.old used (clocks_line workers back forward doubled) page.new result }
{
    let made = line_parts::labelled(page, used, b"0,clocks,workers ", workers);
    let backward = line_parts::labelled(page, made, b",went back ", back);
    let onward = line_parts::labelled(page, backward, b",went forward ", forward);
    let told = line_parts::labelled(page, onward, b",steps counted again ", doubled);
    page::append(page, told, b"\n")
}
