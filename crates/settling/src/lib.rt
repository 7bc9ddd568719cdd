// How long until a worker's width settles, by the settings and the prices of its plans.
#![tactic(auto)]

mod judging;
mod measuring;

ghost use Rattle.std.specs.Prelude.{◌≡◌};
ghost use Rattle.settling.specs.Settling.{settles};

use asked_rooms::Ask;
use settings::Settings;
pub use width_way::Settling;

// What becomes of a width while the best depth of its plans is `target`. The widths after each walk stand at the front of `widths`. Of the settings
// it uses gamma, the acceptance and the switching; of what is asked the bank's depth, where the prices come from, and the rows. Refused
// with the first of 12, 11, 16 and 15, and then nothing is written.
pub fn settles(
    settings: Settings,
    ask: Ask,
    roofline: &[f64],
    depths: &[u32],
    batches: &[u32],
    seconds: &[f64],
    width: u32,
    target: u32,
    widths: &mut [u32],
) -> Settling
    ensures { (result, widths.new) ≡ settles settings ask (record { roofline = roofline.now; depths = depths.now; batches = batches.now; seconds = seconds.now }) width target widths.old }
{
    let room = widths.len();
    match judging::judge(
        settings, ask, roofline, depths, batches, seconds, width, room,
    ) {
        Ok(()) => {
            let found = measuring::candidates(settings, ask, roofline, depths, batches, seconds);
            let list = found.list;
            let len = found.len;
            width_way::settled(&list[..len], width, target, settings.switch, widths)
        }
        Err(refusal) => Settling::Refused(refusal.number()),
    }
}
