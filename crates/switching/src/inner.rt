// What a caller that has judged the record, the curve and the settings calls.
ghost use Rattle.std.specs.Prelude.{◌≡◌, ◌<◌, ◌≤◌, length};
ghost use Rattle.switching.specs.Deciding.{is_due, counted, decided, collected, with_depth, candidate_slots};

use crate::Switching;
use switch_settings::SwitchConstraints;

// The depths of finite price, ascending: the first `len` of the list.
#[derive(Clone, Copy)]
pub struct Candidates {
    pub list: [u32; 65],
    pub len: usize,
}

impl Candidates {
    // With depth g, where its price is finite.
    fn with_depth(mut self, g: u32, price: f64) -> Candidates
        requires { self.len < 65 }
        ensures { result ≡ with_depth self g price }
    {
        if float::is_finite(price) {
            let at = self.len;
            self.list[at] = g;
            self.len = at + 1;
        }
        self
    }
}

// The candidates of a price curve, and 0 in the slots past them.
pub fn candidates_of(curve: &[f64]) -> Candidates
    requires { length curve.now ≤ 65 }
    ensures { result ≡ candidate_slots curve.now }
{
    let mut found = Candidates {
        list: [0; 65],
        len: 0,
    };
    for (g, price) in curve.iter().enumerate() {
        found = found.with_depth(g as u32, *price);
    }
    found
}

impl Switching {
    // One round more.
    pub fn count(mut self) -> Switching
        requires { self.rounds < 4294967295 }
        ensures { result ≡ counted self }
    {
        self.rounds += 1;
        self
    }
}

// One decision after the first: a round is counted, and the width walks where that is due.
pub fn decided(
    held: Switching,
    curve: &[f64],
    target: u32,
    constraints: SwitchConstraints,
) -> Switching
    requires rounds_bound { held.rounds < 4294967295 }
    requires curve_len_bound { length curve.now ≤ 65 }
    ensures { result ≡ decided held curve.now target constraints }
{
    let next = held.count();
    if is_due(constraints, next.rounds) {
        let found = candidates_of(curve);
        let list = found.list;
        let len = found.len;
        next.walk(&list[..len], target, constraints)
    } else {
        next
    }
}

// The stall is collected.
pub fn collected(held: Switching) -> Switching
    ensures { result ≡ collected held }
{
    held.collect()
}

// Whether the width walks after so many rounds.
fn is_due(constraints: SwitchConstraints, rounds: u32) -> bool
    ensures { result ≡ is_due constraints rounds }
{
    constraints.cooldown_rounds.max(1) <= rounds
}
