// What is told of each answer. `specs/Answers.antt` says what `first` and `second` are.
ghost use Rattle.std.specs.Prelude.{◌≡◌};
ghost use Rattle.goodput.specs.Expected.{answer_number};
ghost use Rattle.exported_batches.specs.Answers.{source_of, prices_told, cost_told, depth_told, gated_told};

use exported::{Told, refused_told};
use exported_costs::answers;
use goodput::curve::Source;
use refusals::Refusal;

// 0 the roofline, any other number the table.
#[tactic(auto, unfolding(crate::specs::Answers::source_of))]
pub fn source_of(source: u32) -> Source
    ensures { result ≡ source_of source }
{
    if source == 0 {
        Source::Roofline
    } else {
        Source::Table
    }
}

pub fn of_prices(prices: &[f64], at: usize) -> Told
    ensures { result ≡ prices_told at prices.now }
{
    let first = prices.len() as u64;
    if at < prices.len() {
        let second = float::bits(prices[at]);
        return answers::tell(first, second);
    }
    answers::tell(first, 0)
}

// The number of the refusal, 0 for none.
pub fn of_answer(answer: Result<(), Refusal>) -> u64
    ensures { result ≡ answer_number answer }
{
    refusals::number_in(answer)
}

#[tactic(auto, unfolding(crate::specs::Answers::cost_told))]
pub fn of_cost(answer: Result<f64, Refusal>) -> Told
    ensures { result ≡ cost_told answer }
{
    match answer {
        Ok(seconds) => answers::tell_float(seconds),
        Err(refusal) => refused_told(refusal),
    }
}

#[tactic(auto, unfolding(crate::specs::Answers::depth_told))]
pub fn of_depth(answer: Result<u32, Refusal>) -> Told
    ensures { result ≡ depth_told answer }
{
    match answer {
        Ok(depth) => answers::tell(depth as u64, 0),
        Err(refusal) => refused_told(refusal),
    }
}

#[tactic(auto, unfolding(crate::specs::Answers::gated_told))]
pub fn of_gated(answer: Result<usize, Refusal>) -> Told
    ensures { result ≡ gated_told answer }
{
    match answer {
        Ok(slots) => answers::tell(slots as u64, 0),
        Err(refusal) => refused_told(refusal),
    }
}
