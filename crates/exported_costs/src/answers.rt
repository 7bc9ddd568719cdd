// What is told of each answer. `specs/Answers.antt` says what `first` and `second` are.
ghost use Rattle.std.specs.Prelude.{◌≡◌};
ghost use Rattle.std.specs.Float.{binary64};
ghost use Rattle.std.specs.Float.Ieee.{to_bits};
ghost use Rattle.exported.specs.Telling.{told};
ghost use Rattle.exported_costs.specs.Answers.{float_told, sample_told, time_told, measured_told, range_told, batch_told, price_told, drafter_told};

use acceptance::Sample;
use batch_ranges::BatchRange;
use exported::Told;
use refusals::Refusal;
use speculative::drafter::DrafterCost;

pub fn refused(number: u64) -> Told
    ensures { result ≡ told number 0 0 }
{
    Told {
        refusal: number,
        first: 0,
        second: 0,
    }
}

// What is told where nothing is refused.
pub fn tell(first: u64, second: u64) -> Told
    ensures { result ≡ told 0 first second }
{
    Told {
        refusal: 0,
        first,
        second,
    }
}

// A float for `first`.
pub fn tell_float(x: f64) -> Told
    ensures { result ≡ told 0 (to_bits binary64 x) 0 }
{
    let first = float::bits(x);
    tell(first, 0)
}

// A number for `first`, a float for `second`.
fn tell_beside(first: u64, x: f64) -> Told
    ensures { result ≡ told 0 first (to_bits binary64 x) }
{
    let second = float::bits(x);
    tell(first, second)
}

// A value or seconds.
#[tactic(auto, unfolding(crate::specs::Answers::float_told))]
pub fn of_float(answer: Result<f64, Refusal>) -> Told
    ensures { result ≡ float_told answer }
{
    match answer {
        Ok(x) => tell_float(x),
        Err(refusal) => refused(refusal.number()),
    }
}

#[tactic(auto, unfolding(crate::specs::Answers::sample_told))]
pub fn of_sample(answer: Result<Sample, Refusal>) -> Told
    ensures { result ≡ sample_told answer }
{
    match answer {
        Ok(sample) => tell(sample.commits as u64, sample.used as u64),
        Err(refusal) => refused(refusal.number()),
    }
}

#[tactic(auto, unfolding(crate::specs::Answers::time_told))]
pub fn of_time(answer: Result<Option<f64>, Refusal>) -> Told
    ensures { result ≡ time_told answer }
{
    match answer {
        Ok(Some(x)) => tell_beside(1, x),
        Ok(None) => tell(0, 0),
        Err(refusal) => refused(refusal.number()),
    }
}

#[tactic(auto, unfolding(crate::specs::Answers::measured_told))]
pub fn of_measured(answer: Result<bool, Refusal>) -> Told
    ensures { result ≡ measured_told answer }
{
    match answer {
        Ok(true) => tell(1, 0),
        Ok(false) => tell(0, 0),
        Err(refusal) => refused(refusal.number()),
    }
}

#[tactic(auto, unfolding(crate::specs::Answers::range_told))]
pub fn of_range(answer: Result<Option<BatchRange>, Refusal>) -> Told
    ensures { result ≡ range_told answer }
{
    match answer {
        Ok(Some(range)) => tell(range.low as u64 + 1, range.high as u64),
        Ok(None) => tell(0, 0),
        Err(refusal) => refused(refusal.number()),
    }
}

#[tactic(auto, unfolding(crate::specs::Answers::batch_told))]
pub fn of_batch(answer: Result<Option<u32>, Refusal>) -> Told
    ensures { result ≡ batch_told answer }
{
    match answer {
        Ok(Some(batch)) => tell(1, batch as u64),
        Ok(None) => tell(0, 0),
        Err(refusal) => refused(refusal.number()),
    }
}

// The price of depth `at`, 0 where there is no such depth.
#[tactic(auto, unfolding(crate::specs::Answers::price_told))]
pub fn of_price(at: usize, answer: Result<[f64; 65], Refusal>) -> Told
    ensures { result ≡ price_told at answer }
{
    match answer {
        Ok(prices) if at < 65 => tell_float(prices[at]),
        Ok(_) => tell(0, 0),
        Err(refusal) => refused(refusal.number()),
    }
}

#[tactic(auto, unfolding(crate::specs::Answers::drafter_told))]
pub fn of_drafter(drafter: DrafterCost) -> Told
    ensures { result ≡ drafter_told drafter }
{
    match drafter {
        DrafterCost::Fraction { frac } => tell_beside(0, frac),
        DrafterCost::Autoregressive { dense_params, .. } => tell_beside(1, dense_params),
        DrafterCost::BlockParallel { params, .. } => tell_beside(2, params),
    }
}
