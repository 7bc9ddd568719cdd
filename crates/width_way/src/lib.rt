// The way of a width to its target through the candidates: how many walks it is at most, the width after each, and the rounds that
// they take. For a caller that has judged the settings and the candidates.
#![tactic(auto)]

ghost use Rattle.std.specs.Prelude.{◌≡◌, true, false, ◌++◌, ◌<◌, ◌≤◌, length, drop};
ghost use Rattle.width_way.specs.Way.{distance, is_candidate, stands_still, walks_of, walks_for, pause, arrival, settled};
ghost use Rattle.width_way.specs.Indices.{Ready, way_from};

use switch_settings::{MaxStep, SwitchConstraints};

// What becomes of a width while its target, the candidates and the settings stay the same.
#[derive(Clone, Copy)]
pub enum Settling {
    // It is the target after at most so many rounds, by so many walks.
    Within { rounds: u64, walks: u32 },
    // max_step is 0: it comes to this width and never leaves it.
    NoStep(u32),
    // The target is no candidate: it comes to this width and stays.
    NoCandidate(u32),
    // The switching is unconstrained: every target is taken at once.
    AtOnce,
    // The number of the refusal.
    Refused(u64),
}

// Whether the target is one of the candidates, which ascend.
fn is_candidate(candidates: &[u32], target: u32) -> bool
    ensures { result ≡ is_candidate candidates.now target }
{
    let i = width_walk::inner::first_at_least(candidates, target);
    i < candidates.len() && candidates[i] == target
}

// Whether a walk goes no candidate far.
fn stands_still(step: MaxStep) -> bool
    ensures { result ≡ stands_still step }
{
    matches!(step, MaxStep::AtMost(0))
}

// The walks over so many candidates, d at a time.
fn walks_of(away: u32, d: u32) -> u32
    requires { (away < 65) × (0 < d) }
    ensures value { result ≡ walks_of away d }
    ensures upper_bound { result ≤ 64 }
{
    let far = d as u64;
    let walks = (away as u64 + (far - 1)) / far;
    walks.max(1) as u32
}

// The walks from one index to another, at most.
fn walks(at: usize, to: usize, step: MaxStep) -> u32
    requires at_bound { (at < 65) × (to < 65) }
    requires step_value { stands_still step ≡ false }
    ensures value { result ≡ walks_for step (distance at to) }
    ensures upper_bound { result ≤ 64 }
{
    match step {
        MaxStep::Unlimited => 1,
        MaxStep::AtMost(d) => walks_of(at.abs_diff(to) as u32, d),
    }
}

// The widths after each of so many walks from one index to another, at the front of `widths`.
fn follow(candidates: &[u32], at: usize, to: usize, step: MaxStep, walks: usize, widths: &mut [u32])
    requires at_in_bounds { (at < length candidates.now) × (to < length candidates.now) }
    requires walks_in_bounds { walks ≤ length widths.old }
    ensures { widths.new ≡ way_from step candidates.now to at walks ++ drop walks widths.old }
{
    let mut i = at;
    for k in 0..walks {
        i = width_walk::inner::walk_index(i, to, step);
        widths[k] = candidates[i];
    }
}

// The rounds between two walks.
fn pause(constraints: SwitchConstraints) -> u64
    ensures value { result ≡ pause constraints }
    ensures upper_bound { result ≤ 4294967295 }
{
    constraints.cooldown_rounds.max(1) as u64
}

// The way of a width to a target that it comes to.
fn within(
    candidates: &[u32],
    width: u32,
    target: u32,
    constraints: SwitchConstraints,
    widths: &mut [u32],
) -> Settling
    requires ready { Ready candidates.now widths.old }
    requires target_value { (is_candidate candidates.now target ≡ true) × (stands_still constraints.max_step ≡ false) }
    ensures { (result, widths.new) ≡ arrival candidates.now width target constraints widths.old }
{
    let step = constraints.max_step;
    let at = width_walk::inner::snap_index(candidates, width);
    let to = width_walk::inner::first_at_least(candidates, target);
    let walks = walks(at, to, step);
    follow(candidates, at, to, step, walks as usize, widths);
    let rounds = walks as u64 * pause(constraints);
    Settling::Within { rounds, walks }
}

// What becomes of a width among these candidates; the widths on its way stand at the front of `widths`.
#[tactic(auto, unfolding(crate::specs::Way::settled))]
pub fn settled(
    candidates: &[u32],
    width: u32,
    target: u32,
    constraints: SwitchConstraints,
    widths: &mut [u32],
) -> Settling
    requires { Ready candidates.now widths.old }
    ensures { (result, widths.new) ≡ settled candidates.now width target constraints widths.old }
{
    if constraints.is_unconstrained() {
        return Settling::AtOnce;
    }
    let step = constraints.max_step;
    if !is_candidate(candidates, target) {
        let next = width_walk::walk_candidates(candidates, width, target, step);
        return Settling::NoCandidate(next);
    }
    if stands_still(step) {
        let next = width_walk::walk_candidates(candidates, width, target, step);
        return Settling::NoStep(next);
    }
    within(candidates, width, target, constraints, widths)
}
