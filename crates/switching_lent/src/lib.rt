// One worker's switching, of a record that is updated where it stands.
#![tactic(auto)]

ghost use Rattle.std.specs.Prelude.{◌≡◌};
ghost use Rattle.switching.specs.Deciding.{decision, collection};

use refusals::Refusal;
use switch_settings::SwitchConstraints;
use switching::{Collected, Decided, Switching};

// A decision on the record where it stands; a refusal leaves it as it was.
pub fn decide_lent(
    r: &mut Switching,
    curve: &[f64],
    target: u32,
    constraints: SwitchConstraints,
) -> Result<u32, Refusal>
    ensures { record { answer = result; kept = r.new } ≡ decision r.old curve.now target constraints }
{
    let held = *r;
    let d = switching::decide(held, curve, target, constraints);
    *r = d.kept;
    d.answer
}

// Collects from the record where it stands; a refusal leaves it as it was.
pub fn collect_lent(r: &mut Switching) -> Result<f64, Refusal>
    ensures { record { answer = result; kept = r.new } ≡ collection r.old }
{
    let held = *r;
    let d = switching::collect(held);
    *r = d.kept;
    d.answer
}

// Lends the record to `decide_lent` and hands it back: for a caller with plain parameters.
pub fn lend_and_decide(
    given: Switching,
    curve: &[f64],
    target: u32,
    constraints: SwitchConstraints,
) -> Decided
    ensures { result ≡ decision given curve.now target constraints }
{
    let mut kept = given;
    let answer = decide_lent(&mut kept, curve, target, constraints);
    Decided { answer, kept }
}

// Lends the record to `collect_lent` and hands it back: for a caller with plain parameters.
pub fn lend_and_collect(given: Switching) -> Collected
    ensures { result ≡ collection given }
{
    let mut kept = given;
    let answer = collect_lent(&mut kept);
    Collected { answer, kept }
}
