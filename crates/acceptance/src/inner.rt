// What a caller that has judged the model calls.
ghost use Rattle.std.specs.Prelude.{◌≡◌};
ghost use Rattle.acceptance.specs.Acceptance.{is_draw, sample_from};

use crate::{AcceptanceModel, Sample};
use refusals::Refusal;

// How many drafts of one sequence the draws accept, from the draw `from` on: they are consumed in order until one is not
// below its position's value, or until gamma are used. 13 where a needed draw is absent, 14 where a consumed one is out of range.
pub fn sample_from(
    model: AcceptanceModel,
    positions: &[f64],
    gamma: u32,
    draws: &[f64],
    from: usize,
) -> Result<Sample, Refusal>
    ensures { result ≡ sample_from model positions.now gamma draws.now from }
{
    let mut at = from;
    for n in 0..gamma {
        if draws.len() <= at {
            return Err(Refusal::AbsentDraw);
        }
        let draw = draws[at];
        if !is_draw(draw) {
            return Err(Refusal::Draw);
        }
        at += 1;
        let is_below = draw < crate::a_d(model, positions, n as usize);
        if !is_below {
            return Ok(Sample {
                commits: n,
                used: n as usize + 1,
            });
        }
    }
    Ok(Sample {
        commits: gamma,
        used: gamma as usize,
    })
}

// A draw is at least 0.0 and below 1.0; minus zero is none.
#[tactic(auto, unfolding(crate::specs::Acceptance::is_draw))]
fn is_draw(x: f64) -> bool
    ensures { result ≡ is_draw x }
{
    float::is_clear(x) && x < 1.0
}
