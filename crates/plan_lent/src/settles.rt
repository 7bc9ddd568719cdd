// How long until a width settles, asked over what plans are lent.
use crate::{lists, registers};
use settings::Settings;
use settling::Settling;

// The question over all that the registers and lists lend. Who asks, for how many sequences and when plays no part in it.
pub fn settles(
    settings: Settings,
    set: &[u64],
    floats: &[f64],
    wholes: &[u32],
    width: u32,
    target: u32,
    widths: &mut [u32],
) -> Settling {
    let ask = registers::ask(set, 0, 0, 1, 0.0);
    settling::settles(
        settings,
        ask,
        lists::floats(set, floats, 1),
        lists::wholes(set, wholes, 2),
        lists::wholes(set, wholes, 3),
        lists::floats(set, floats, 4),
        width,
        target,
        widths,
    )
}
