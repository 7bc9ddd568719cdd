// Survival chains.
ghost use Rattle.std.specs.Prelude.{◌≡◌};
ghost use Rattle.goodput.specs.Survival.{survival_of};

// The number of the refusal, 0 for none, and the chain: 0.0 in the slots past it, and in all of them where it is refused.
#[derive(Clone, Copy)]
pub struct Survival {
    pub refusal: u64,
    pub chain: [f64; 64],
}

// The survival chain of the first `length` confidences of a signal: slot d is the chance that the drafts 0 to d are all accepted.
// 11 where the length is above 64, then 15 where one of these confidences is not finite.
#[tactic(auto, using(goodput_judges::proofs::Passed::survival_passed), unfolding(crate::specs::Survival::survival_of))]
pub fn survival_chain(signal: [f64; 64], length: usize) -> Survival
    ensures { result ≡ survival_of signal length }
{
    match goodput_judges::judge_survival(signal, length) {
        Ok(()) => Survival {
            refusal: 0,
            chain: chains::inner::chain(signal, length),
        },
        Err(refusal) => Survival {
            refusal: refusal.number(),
            chain: [0.0; 64],
        },
    }
}
