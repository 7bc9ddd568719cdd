// The lines of how long a width takes to settle: the answer, and the table of the steps.
#![tactic(auto)]

ghost use Rattle.std.specs.Prelude.{◌≡◌, take};
ghost use Rattle.page.specs.Page.{Added};
ghost use Rattle.settling_lines.specs.Lines.{way_fields, within_line, stays_line, answer_line, step_line};

use width_way::Settling;

// The widths after so many walks, or as many as there are.
fn walked(widths: &[u32], walks: u32) -> &[u32]
    ensures { result.now ≡ take walks widths.now }
{
    let count = walks as usize;
    if count < widths.len() {
        &widths[..count]
    } else {
        widths
    }
}

// The rounds, the walks, and the width after each walk.
fn way(page: &mut [u8], used: usize, rounds: u64, walks: u32, widths: &[u32]) -> usize
    ensures { Added page.old used (way_fields rounds walks widths.now) page.new result }
{
    let a = line_parts::labelled(page, used, b",rounds ", rounds);
    let b = line_parts::labelled(page, a, b",walks ", walks as u64);
    let c = line_parts::listed(page, b, b",widths", walked(widths, walks));
    page::append(page, c, b"\n")
}

// A width that comes to the target.
fn within(page: &mut [u8], used: usize, line: u64, rounds: u64, walks: u32, widths: &[u32]) -> usize
    ensures { Added page.old used (within_line line rounds walks widths.now) page.new result }
{
    let at = line_parts::opened(page, used, line, b",settles");
    way(page, at, rounds, walks, widths)
}

// A width that does not, and where it stays.
fn stays(page: &mut [u8], used: usize, line: u64, name: &[u8], width: u32) -> usize
    ensures { Added page.old used (stays_line line name.now width) page.new result }
{
    let at = line_parts::headed(page, used, line, name, width as u64);
    page::append(page, at, b"\n")
}

// The line of an answer. A refusal is told as every refusal is: here nothing is added for it.
pub fn answer(page: &mut [u8], used: usize, line: u64, settling: Settling, widths: &[u32]) -> usize
    ensures { Added page.old used (answer_line line settling widths.now) page.new result }
{
    match settling {
        Settling::Within { rounds, walks } => within(page, used, line, rounds, walks, widths),
        Settling::NoStep(width) => stays(page, used, line, b",settles,never,stays ", width),
        Settling::NoCandidate(width) => {
            stays(page, used, line, b",settles,no candidate,stays ", width)
        }
        Settling::AtOnce => line_parts::opened(page, used, line, b",settles,at once\n"),
        Settling::Refused(_) => page::append(page, used, b""),
    }
}

// A line of the table of the steps: a width that comes to the target with this largest step.
pub fn step(
    page: &mut [u8],
    used: usize,
    line: u64,
    step: u32,
    rounds: u64,
    walks: u32,
    widths: &[u32],
) -> usize
    ensures { Added page.old used (step_line line step rounds walks widths.now) page.new result }
{
    let at = line_parts::headed(page, used, line, b",step ", step as u64);
    way(page, at, rounds, walks, widths)
}
