// The planner's storage: what a plan is refused for, and a plan counted.
ghost use Rattle.std.specs.Prelude.{◌≡◌};
ghost use Rattle.ledger.specs.Calls.{step_judged, worker_judged, recorded};
ghost use Rattle.host.specs.Answers.{answer_of};
ghost use Rattle.exported.specs.Telling.{on_first};
ghost use Rattle.exported_plans.specs.Changes.{change_of};

use host::answers;
use ledger::answer::Decision;
use ledger_rows::layout::Step;

// The number of the refusal, 0 for none.
#[unsafe(no_mangle)]
pub extern "C" fn ledger_judge_step(storage: &[u64], second: u64) -> u64
    ensures { result ≡ step_judged storage.now second }
{
    refusals::number_in(ledger::judge_step(storage, second))
}

// The number of the refusal, 0 for none.
#[unsafe(no_mangle)]
pub extern "C" fn ledger_judge_worker(storage: &[u64], a: u64, b: u64) -> u64
    ensures { result ≡ worker_judged storage.now a b }
{
    refusals::number_in(ledger::judge_worker(storage, a, b))
}

// 0 nothing, any other number the record that is put, its stall by its bits.
#[tactic(auto, unfolding(crate::specs::Changes::change_of))]
fn change_of(puts: u64, a: u64, b: u64, width: u64, rounds: u64, stall: u64) -> Decision
    ensures { result ≡ change_of puts a b width rounds stall }
{
    if puts == 0 {
        return Decision::Nothing;
    }
    Decision::Put {
        a,
        b,
        width,
        rounds,
        stall,
    }
}

// The number of the refusal, 0 for none.
#[unsafe(no_mangle)]
pub extern "C" fn ledger_record(
    storage: &mut [u64],
    second: u64,
    drafts: u64,
    sequences: u64,
    committed: u64,
    puts: u64,
    a: u64,
    b: u64,
    width: u64,
    rounds: u64,
    stall: u64,
) -> u64
    ensures { (result, storage.new) ≡ on_first answer_of (recorded storage.old (record { second = second; drafts = drafts; sequences = sequences; committed = committed }) (change_of puts a b width rounds stall)) }
{
    let change = change_of(puts, a, b, width, rounds, stall);
    let step = Step {
        second,
        drafts,
        sequences,
        committed,
    };
    let answer = ledger::record(storage, step, change);
    answers::of_answer(answer)
}
