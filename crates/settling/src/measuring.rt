// The candidates: the depths that have a price.
ghost use Rattle.std.specs.Prelude.{◌≡◌, ◌≤◌};
ghost use Rattle.cost_rows.specs.Table.{zip};
ghost use Rattle.switching.specs.Deciding.{candidate_slots};
ghost use Rattle.settling.specs.Settling.{depth_in, curve_in};
ghost use Rattle.settling.specs.Measured.{Tabled, measured_by};

use crate::judging;
use asked_rooms::Ask;
use goodput::curve::Source;
use settings::Settings;
use switching::inner::Candidates;

// The measured prices of the depths 0 to 64, where there is a table; else zeros, which are not read.
fn measured(ask: Ask, depths: &[u32], batches: &[u32], seconds: &[f64]) -> [f64; 65]
    requires { Tabled ask.source ask.rows depths.now batches.now seconds.now }
    ensures { result ≡ measured_by ask.source (zip ask.rows depths.now batches.now seconds.now) }
{
    let source = ask.source;
    match source {
        Source::Roofline => [0.0; 65],
        Source::Table => step_times::inner::prices(depths, batches, seconds, ask.rows, 1, 0.0),
    }
}

// The depths of finite price, up to the depth that plans may draft to.
pub fn candidates(
    settings: Settings,
    ask: Ask,
    roofline: &[f64],
    depths: &[u32],
    batches: &[u32],
    seconds: &[f64],
) -> Candidates
    requires tabled { Tabled ask.source ask.rows depths.now batches.now seconds.now }
    requires ask_bound { depth_in settings ask ≤ 64 }
    ensures { result ≡ candidate_slots (curve_in settings ask (record { roofline = roofline.now; depths = depths.now; batches = batches.now; seconds = seconds.now })) }
{
    let source = ask.source;
    let depth = judging::depth_in(settings, ask) as usize;
    let measured = measured(ask, depths, batches, seconds);
    let curve = goodput::curve::curve(roofline, &measured, source, depth);
    switching::inner::candidates_of(curve)
}
