// What is told of a decision and of a collection.
ghost use Rattle.std.specs.Prelude.{◌≡◌};
ghost use Rattle.exported_switching.specs.Answers.{switched, decided_told, collected_told};

use switching::{Collected, Decided, Switching};

// The number of the refusal, 0 for none; the width decided or the bits of the stall collected, 0 where there is a refusal; and the record that is kept,
// also by a refusal.
#[repr(C)]
#[derive(Clone, Copy)]
pub struct Switched {
    pub refusal: u64,
    pub answer: u64,
    pub width: u32,
    pub rounds: u32,
    pub stall: f64,
}

fn tell(refusal: u64, answer: u64, kept: Switching) -> Switched
    ensures { result ≡ switched refusal answer kept }
{
    Switched {
        refusal,
        answer,
        width: kept.width,
        rounds: kept.rounds,
        stall: kept.stall,
    }
}

#[tactic(auto, unfolding(crate::specs::Answers::width_told))]
pub fn of_decided(decided: Decided) -> Switched
    ensures { result ≡ decided_told decided }
{
    match decided.answer {
        Ok(width) => tell(0, width as u64, decided.kept),
        Err(refusal) => tell(refusal.number(), 0, decided.kept),
    }
}

#[tactic(auto, unfolding(crate::specs::Answers::stall_told))]
pub fn of_collected(collected: Collected) -> Switched
    ensures { result ≡ collected_told collected }
{
    match collected.answer {
        Ok(stall) => tell(0, float::bits(stall), collected.kept),
        Err(refusal) => tell(refusal.number(), 0, collected.kept),
    }
}
