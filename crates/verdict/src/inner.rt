// The verdict of either gate on one slot. A curve has a price for each depth from 0 to gamma.
ghost use Rattle.std.specs.Prelude.{◌≡◌};
ghost use Rattle.verify_prices.specs.Rule.{price_by, rule_of, Priced};
ghost use Rattle.verdict.specs.Decision.{rate_of, removal_under};
ghost use Rattle.verdict.specs.Tallies.{tallied, sums_of, decision_of, Rated, StillRated, removed_at, added_at};

use verify_prices::PriceMode;
use verify_prices::bridging::bridged_cost;
use verify_prices::inner::{is_shut, verify_cost};

// The expected tokens, the verify tokens and the drafter's seconds so far, and the tokens a second that they make.
#[derive(Clone, Copy)]
pub struct Tally {
    pub expected: f64,
    pub tokens: f64,
    pub drafter: f64,
    pub rate: f64,
}

// A slot is passed over, or the gate stops, or the slot is taken.
#[derive(Clone, Copy)]
pub enum Verdict {
    Pass,
    Stop,
    Take(Tally),
}

// Tokens a second.
fn rate(expected: f64, seconds: f64) -> f64
    ensures { result ≡ rate_of expected seconds }
{
    expected / float::max(seconds, 1e-12)
}

// A tally, where `price` is the verify price of the tokens.
fn tallied(expected: f64, tokens: f64, drafter: f64, price: f64) -> Tally
    ensures { result ≡ tallied expected tokens drafter price }
{
    Tally {
        expected,
        tokens,
        drafter,
        rate: rate(expected, price + drafter),
    }
}

// What a gate starts from. Here and below the mode is asked for before the price, so that the default price is worked out in line.
pub fn starting(
    expected: f64,
    tokens: f64,
    drafter: f64,
    mode: PriceMode,
    curve: &[f64],
    spans: &[u8],
    n: u32,
) -> Tally
    requires { Priced mode curve.now spans.now }
    ensures sums { sums_of result ≡ record { expected = expected; tokens = tokens; drafter = drafter } }
    ensures rated { Rated (price_by mode curve.now n) result }
{
    match mode {
        PriceMode::Default => {
            let price = verify_cost(curve, n, tokens);
            tallied(expected, tokens, drafter, price)
        }
        PriceMode::Bridged => {
            let price = bridged_cost(curve, spans, n, tokens);
            tallied(expected, tokens, drafter, price)
        }
    }
}

impl Tally {
    // The ragged gate, where `vp` is the price of one token less.
    fn removal(self, s: f64, margin: f64, vp: f64) -> Verdict
        ensures { result ≡ removed_at self s margin vp }
    {
        let expected = self.expected - s;
        let rem = rate(expected, vp + self.drafter - margin);
        if rem > self.rate {
            Verdict::Take(tallied(expected, self.tokens - 1.0, self.drafter - margin, vp))
        } else {
            Verdict::Pass
        }
    }

    // Is the tally better without a slot of survival s whose drafting costs `margin`?
    pub fn without(
        self,
        s: f64,
        margin: f64,
        mode: PriceMode,
        curve: &[f64],
        spans: &[u8],
        n: u32,
    ) -> Verdict
        requires priced { Priced mode curve.now spans.now }
        requires rated_2 { Rated (price_by mode curve.now n) self }
        ensures decided { decision_of result ≡ removal_under (rule_of mode curve.now n) (sums_of self) s margin }
        ensures rated { StillRated (price_by mode curve.now n) result }
    {
        match mode {
            PriceMode::Default => {
                let vp = verify_cost(curve, n, self.tokens - 1.0);
                self.removal(s, margin, vp)
            }
            PriceMode::Bridged => {
                let vp = bridged_cost(curve, spans, n, self.tokens - 1.0);
                if is_shut(mode, vp) {
                    return Verdict::Pass;
                }
                self.removal(s, margin, vp)
            }
        }
    }

    // Is the tally better with a slot of survival s, where `vn` is the price of one token more?
    pub fn slot(self, s: f64, vn: f64) -> Verdict
        ensures { result ≡ added_at self s vn }
    {
        let seconds = vn + self.drafter;
        if !float::is_finite(seconds) {
            return Verdict::Pass;
        }
        let expected = self.expected + s;
        let nxt = rate(expected, seconds);
        if nxt > self.rate {
            Verdict::Take(Tally {
                expected,
                tokens: self.tokens + 1.0,
                drafter: self.drafter,
                rate: nxt,
            })
        } else {
            Verdict::Stop
        }
    }
}
