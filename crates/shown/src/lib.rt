// Whole lines of what the program prints, all but those of a series.
#![tactic(auto)]

ghost use Rattle.page.specs.Page.{Added};
ghost use Rattle.refusal_words.specs.Words.{entry};
ghost use Rattle.shown.specs.Lines.{plan_head, plan_lists, plan_empty, refusal_line, clock_back, withdrawn_line, setting_line, bank_line, table_line, expectations, wrong_line, unreadable_line};

// A plan's line up to its lists.
pub fn plan_head(
    page: &mut [u8],
    used: usize,
    line: u64,
    second: u64,
    sequences: u64,
    draws: u64,
    slots: u64,
) -> usize
    ensures { Added page.old used (plan_head line second sequences draws slots) page.new result }
{
    let a = line_parts::headed(page, used, line, b",plan,second ", second);
    let b = line_parts::labelled(page, a, b",sequences ", sequences);
    let c = line_parts::labelled(page, b, b",draws ", draws);
    line_parts::labelled(page, c, b",slots ", slots)
}

// The rest of a plan's line: what each sequence drafts and commits.
pub fn plan_lists(page: &mut [u8], used: usize, drafts: &[u32], commits: &[u32]) -> usize
    ensures { Added page.old used (plan_lists drafts.now commits.now) page.new result }
{
    let a = line_parts::listed(page, used, b",drafts", drafts);
    let b = line_parts::listed(page, a, b",commits", commits);
    page::append(page, b, b"\n")
}

// The line of a plan of no sequences.
pub fn plan_empty(page: &mut [u8], used: usize, line: u64) -> usize
    ensures { Added page.old used (plan_empty line) page.new result }
{
    line_parts::opened(page, used, line, b",plan,empty\n")
}

// A refusal: its number, the rules' words for it, and its row.
pub fn refusal(page: &mut [u8], used: usize, line: u64, number: u64, row: u64) -> usize
    ensures { Added page.old used (refusal_line line number row) page.new result }
{
    let a = line_parts::headed(page, used, line, b",refused ", number);
    let b = page::append(page, a, b",");
    let c = refusal_words::append_words(page, b, number);
    let d = line_parts::labelled(page, c, b",row ", row);
    page::append(page, d, b"\n")
}

// A note on a plan whose second lies so many seconds before that of the plan before it.
pub fn clock_back(page: &mut [u8], used: usize, line: u64, by: u64, second: u64) -> usize
    ensures { Added page.old used (clock_back line by second) page.new result }
{
    let a = line_parts::headed(page, used, line, b",note,clock went back ", by);
    let b = line_parts::labelled(page, a, b" s: seconds ", second);
    page::append(page, b, b".. are counted again\n")
}

// A withdrawal that was made.
pub fn withdrawn(page: &mut [u8], used: usize, line: u64) -> usize
    ensures { Added page.old used (withdrawn_line line) page.new result }
{
    line_parts::opened(page, used, line, b",withdraw,done\n")
}

// A setting that was read, by its command's name.
pub fn setting(page: &mut [u8], used: usize, line: u64, name: &[u8]) -> usize
    ensures { Added page.old used (setting_line line name.now) page.new result }
{
    let a = line_parts::opened(page, used, line, b",");
    let b = page::append(page, a, name);
    page::append(page, b, b",set\n")
}

// A trace bank that was read.
pub fn bank(page: &mut [u8], used: usize, line: u64, rounds: u64, depth: u64) -> usize
    ensures { Added page.old used (bank_line line rounds depth) page.new result }
{
    let a = line_parts::headed(page, used, line, b",acceptance,rounds ", rounds);
    let b = line_parts::labelled(page, a, b",depth ", depth);
    page::append(page, b, b"\n")
}

// A cost table that was read.
pub fn table(page: &mut [u8], used: usize, line: u64, rows: u64) -> usize
    ensures { Added page.old used (table_line line rows) page.new result }
{
    let a = line_parts::headed(page, used, line, b",table,rows ", rows);
    page::append(page, a, b"\n")
}

// Adds what was expected of a field, by its number.
fn expectation(page: &mut [u8], used: usize, expected: u64) -> usize
    ensures { Added page.old used (entry expectations expected) page.new result }
{
    let table = b"something else,\
        more fields,\
        no more fields,\
        one of the names,\
        something else,\
        a whole number,\
        a decimal,\
        a decimal of fewer digits,\
        a known command";
    refusal_words::append_entry(page, used, table, expected)
}

// A line that cannot be read: which of its fields is wrong, counted from 0, and what was expected there.
pub fn wrong(page: &mut [u8], used: usize, line: u64, field: u64, expected: u64) -> usize
    ensures { Added page.old used (wrong_line line field expected) page.new result }
{
    let a = line_parts::headed(page, used, line, b",wrong,field ", field);
    let b = page::append(page, a, b",expected ");
    let c = expectation(page, b, expected);
    page::append(page, c, b"\n")
}

// A file that cannot be read.
pub fn unreadable(page: &mut [u8], used: usize, line: u64, name: &[u8]) -> usize
    ensures { Added page.old used (unreadable_line line name.now) page.new result }
{
    let a = line_parts::opened(page, used, line, b",unreadable,");
    let b = page::append(page, a, name);
    page::append(page, b, b"\n")
}
