// Parts of a line: a number behind the words that name it.
#![tactic(auto)]

ghost use Rattle.std.specs.Prelude.{◌∷◌, ◌++◌};
ghost use Rattle.page.specs.Page.{Added};
ghost use Rattle.page.specs.Numbers.{decimal};
ghost use Rattle.line_parts.specs.Parts.{spaced};

// Adds a name and its number.
pub fn labelled(page: &mut [u8], used: usize, name: &[u8], n: u64) -> usize
    ensures { Added page.old used (name.now ++ decimal n) page.new result }
{
    let at = page::append(page, used, name);
    page::append_decimal(page, at, n)
}

// Adds a line's number and what follows it.
pub fn opened(page: &mut [u8], used: usize, line: u64, words: &[u8]) -> usize
    ensures { Added page.old used (decimal line ++ words.now) page.new result }
{
    let at = page::append_decimal(page, used, line);
    page::append(page, at, words)
}

// Adds a line's number, a name and its number.
pub fn headed(page: &mut [u8], used: usize, line: u64, name: &[u8], n: u64) -> usize
    ensures { Added page.old used (decimal line ++ (name.now ++ decimal n)) page.new result }
{
    let at = page::append_decimal(page, used, line);
    labelled(page, at, name, n)
}

// Adds a number behind a blank.
pub fn behind_a_blank(page: &mut [u8], used: usize, n: u32) -> usize
    ensures { Added page.old used (32 ∷ decimal n) page.new result }
{
    labelled(page, used, b" ", n as u64)
}

// Adds a name and its numbers, each behind a blank.
pub fn listed(page: &mut [u8], used: usize, name: &[u8], list: &[u32]) -> usize
    ensures { Added page.old used (name.now ++ spaced list.now) page.new result }
{
    let mut at = page::append(page, used, name);
    for n in list {
        at = behind_a_blank(page, at, *n);
    }
    at
}
