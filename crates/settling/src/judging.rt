// What is refused of the question how long a width takes to settle.
ghost use Rattle.std.specs.Prelude.{◌≡◌, true};
ghost use Rattle.asked_values.specs.Columns.{columns_fit};
ghost use Rattle.settling.specs.Settling.{depth_in, rooms_in, valued_in, settles_judged};

use asked_rooms::{Ask, Lengths, rooms, sizes};
use asked_values::inner;
use refusals::Refusal;
use settings::Settings;

// The largest width, and the most walks.
const MOST_WIDTH: u32 = 64;

const MOST_WALKS: usize = 64;

// The depth that a GatedAggregate plan may draft to.
pub fn depth_in(settings: Settings, ask: Ask) -> u32
    ensures { result ≡ depth_in settings ask }
{
    let model = settings.model;
    settings::inner::capped(model, settings.gamma, ask.depth)
}

// Whether the prices are all there, and the widths have room for every way.
fn are_roomy(
    settings: Settings,
    ask: Ask,
    roofline: &[f64],
    depths: &[u32],
    batches: &[u32],
    seconds: &[f64],
    room: usize,
) -> bool
    ensures { result ≡ rooms_in settings ask (record { roofline = roofline.now; depths = depths.now; batches = batches.now; seconds = seconds.now }) room }
{
    let lengths = Lengths {
        storage: 0,
        drafts: 0,
        commits: 0,
        roofline: roofline.len(),
        depths: depths.len(),
        batches: batches.len(),
        seconds: seconds.len(),
        loaded: 0,
        bank_commits: 0,
        signals: 0,
        bank_curve: 0,
    };
    let source = ask.source;
    let depth = depth_in(settings, ask) as usize;
    rooms::price_rooms(source, depth, ask.rows, lengths) && MOST_WALKS <= room
}

// Whether the width and the prices are in range.
fn are_valued(
    settings: Settings,
    ask: Ask,
    roofline: &[f64],
    depths: &[u32],
    batches: &[u32],
    seconds: &[f64],
    width: u32,
) -> bool
    requires { columns_fit ask.source ask.rows depths.now batches.now seconds.now ≡ true }
    ensures { result ≡ valued_in settings ask (record { roofline = roofline.now; depths = depths.now; batches = batches.now; seconds = seconds.now }) width }
{
    let source = ask.source;
    let depth = depth_in(settings, ask) as usize;
    width <= MOST_WIDTH
        && inner::are_priced(source, depth, roofline, depths, batches, seconds, ask.rows)
}

// The switch settings, the sizes, the rooms, then the values. `room` is how many widths there is room for.
#[tactic(auto, unfolding(crate::specs::Settling::settles_judged))]
pub fn judge(
    settings: Settings,
    ask: Ask,
    roofline: &[f64],
    depths: &[u32],
    batches: &[u32],
    seconds: &[f64],
    width: u32,
    room: usize,
) -> Result<(), Refusal>
    ensures { result ≡ settles_judged settings ask (record { roofline = roofline.now; depths = depths.now; batches = batches.now; seconds = seconds.now }) width room }
{
    switch_settings::judge_switch(settings.switch)?;
    sizes::judge_sizes(
        settings.model,
        settings.gamma,
        0,
        ask.depth,
        0,
        ask.source,
        ask.rows,
    )?;
    if !are_roomy(settings, ask, roofline, depths, batches, seconds, room) {
        return Err(Refusal::ShortBuffer);
    }
    if are_valued(settings, ask, roofline, depths, batches, seconds, width) {
        Ok(())
    } else {
        Err(Refusal::Input)
    }
}
