// How long a width takes to settle, where a walk goes at most one candidate far and all drafts are accepted by one chance.
ghost use Rattle.std.specs.Prelude.{◌≡◌};
ghost use Rattle.settling.specs.Settling.{PricesLent, settles};
ghost use Rattle.bench_plans.specs.Ways.{way_ask, way_settings, rounds_of};

use crate::batches::drafter_of;
use crate::whole::{ask_of, settings_of};
use settling::Settling;

// The rounds; 2^64 - 1 where it is refused or the width never is the target.
#[tactic(auto, unfolding(crate::specs::Ways::rounds_of))]
fn rounds_of(answer: Settling) -> u64
    ensures { result ≡ rounds_of answer }
{
    match answer {
        Settling::Within { rounds, .. } => rounds,
        Settling::AtOnce => 0,
        Settling::NoStep(_) | Settling::NoCandidate(_) | Settling::Refused(_) =>
            18446744073709551615,
    }
}

// The rounds until the width is the target; the widths on the way stand at the front of `widths`.
#[unsafe(no_mangle)]
pub extern "C" fn bench_settles(
    gamma: u32,
    cooldown: u32,
    cost_ms: f64,
    rows: usize,
    roofline: &[f64],
    depths: &[u32],
    batches: &[u32],
    seconds: &[f64],
    width: u32,
    target: u32,
    widths: &mut [u32],
) -> u64
    ensures value { result ≡ rounds_of (settles (way_settings gamma cooldown cost_ms) (way_ask rows) (record { roofline = roofline.now; depths = depths.now; batches = batches.now; seconds = seconds.now }) width target widths.old).0 }
    ensures widths_after { widths.new ≡ (settles (way_settings gamma cooldown cost_ms) (way_ask rows) (record { roofline = roofline.now; depths = depths.now; batches = batches.now; seconds = seconds.now }) width target widths.old).1 }
{
    let drafter = drafter_of(0, 0.0, 0.0, 0, 0, 0);
    let settings = settings_of(gamma, 0, 0.0, 3, cooldown, cost_ms, drafter);
    let ask = ask_of(0, 1, 0.0, 0.0, 0.0, rows, 0, 0);
    let answer = settling::settles(
        settings, ask, roofline, depths, batches, seconds, width, target, widths,
    );
    rounds_of(answer)
}
