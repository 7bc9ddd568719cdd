// The walk through the candidate widths, ascending, toward a target.
#![tactic(auto)]

pub mod inner;

ghost use Rattle.std.specs.Prelude.{◌≡◌};
ghost use Rattle.width_walk.specs.Walk.{walk_candidates};

use switch_settings::MaxStep;

// The width after one walk from `width` toward `target`; with no candidate at all it stays.
pub fn walk_candidates(candidates: &[u32], width: u32, target: u32, max_step: MaxStep) -> u32
    ensures { result ≡ walk_candidates candidates.now width target max_step }
{
    if candidates.len() == 0 {
        return width;
    }
    let at = inner::snap_index(candidates, width);
    let to = inner::target_index(candidates, target, at);
    let next = inner::walk_index(at, to, max_step);
    candidates[next]
}
