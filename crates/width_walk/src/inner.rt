// Where a width and a target stand among the candidates, and where a walk leads: indices, for a caller that has candidates.
ghost use Rattle.std.specs.Prelude.{◌≡◌, ◌<◌, ◌≤◌, length};
ghost use Rattle.width_walk.specs.Walk.{first_at_least, snap_index, target_index, walk_index};

use switch_settings::MaxStep;

// The index of the first candidate that is x or larger, and the number of candidates where there is none.
#[tactic(auto, using(crate::proofs::Walking::found, crate::proofs::Walking::onward, crate::proofs::Walking::nothing))]
pub fn first_at_least(candidates: &[u32], x: u32) -> usize
    ensures value { result ≡ first_at_least candidates.now x }
    ensures upper_bound { result ≤ length candidates.now }
{
    for (i, c) in candidates.iter().enumerate() {
        if x <= *c {
            return i;
        }
    }
    candidates.len()
}

// The held width's index, or the next larger candidate's, or the last.
pub fn snap_index(candidates: &[u32], width: u32) -> usize
    requires { 0 < length candidates.now }
    ensures value { result ≡ snap_index candidates.now width }
    ensures upper_bound { result < length candidates.now }
{
    first_at_least(candidates, width).min(candidates.len() - 1)
}

// The target's index; where it is no candidate, `snap`.
pub fn target_index(candidates: &[u32], target: u32, snap: usize) -> usize
    requires { snap < length candidates.now }
    ensures value { result ≡ target_index candidates.now target snap }
    ensures upper_bound { result < length candidates.now }
{
    let i = first_at_least(candidates, target);
    if i < candidates.len() && candidates[i] == target {
        i
    } else {
        snap
    }
}

// From index `at` toward `to`, at most as many indices as the step allows.
pub fn walk_index(at: usize, to: usize, step: MaxStep) -> usize
    ensures { result ≡ walk_index at to step }
{
    match step {
        MaxStep::Unlimited => to,
        MaxStep::AtMost(d) => {
            let far = d as usize;
            if at < to {
                at + far.min(to - at)
            } else {
                at - far.min(at - to)
            }
        }
    }
}
