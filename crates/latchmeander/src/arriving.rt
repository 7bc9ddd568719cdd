// What becomes of a worker's width while its plans go on as they are. A number that stands for no case is refused 12 before all else.
ghost use Rattle.std.specs.Prelude.{◌≡◌};
ghost use Rattle.latchmeander.specs.Calls.{settles_called};

use host::answers::HostSettling;
use host::asked::{HostAsk, HostSettings};
use host::{answers, asked};
use width_way::Settling;

// How long until the width is the target; the widths after each walk stand at the front of `widths`.
#[tactic(auto, unfolding(crate::specs::Calls::settles_called))]
pub fn latchmeander_settles(
    settings: HostSettings,
    ask: HostAsk,
    roofline: &[f64],
    depths: &[u32],
    batches: &[u32],
    seconds: &[f64],
    width: u32,
    target: u32,
    widths: &mut [u32],
) -> HostSettling
    ensures { (result, widths.new) ≡ settles_called settings ask (record { roofline = roofline.now; depths = depths.now; batches = batches.now; seconds = seconds.now }) width target widths.old }
{
    if !asked::settings_fit(settings) || !asked::ask_fits(ask) {
        return answers::of_settling(Settling::Refused(12));
    }
    let set = asked::settings_of(settings);
    let asks = asked::ask_of(ask);
    let answer = settling::settles(
        set, asks, roofline, depths, batches, seconds, width, target, widths,
    );
    answers::of_settling(answer)
}
