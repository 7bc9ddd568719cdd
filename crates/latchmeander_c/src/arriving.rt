// What becomes of a worker's width while its plans go on as they are. A number that stands for no case is refused 12 before all else.
ghost use Rattle.std.specs.Prelude.{◌≡◌};
ghost use Rattle.latchmeander.specs.Calls.{settles_called};

use host::answers::HostSettling;
use host::asked::{HostAsk, HostSettings};

// How long until the width is the target; the widths after each walk stand at the front of `widths`.
#[unsafe(no_mangle)]
pub extern "C" fn latchmeander_settles(
    settings: HostSettings,
    ask: HostAsk,
    roofline: &[f64],
    depths: &[u32],
    batches: &[u32],
    seconds: &[f64],
    width: u32,
    target: u32,
    widths: &mut [u32],
) -> HostSettling
    ensures { (result, widths.new) ≡ settles_called settings ask (record { roofline = roofline.now; depths = depths.now; batches = batches.now; seconds = seconds.now }) width target widths.old }
{
    latchmeander::arriving::latchmeander_settles(
        settings, ask, roofline, depths, batches, seconds, width, target, widths,
    )
}
