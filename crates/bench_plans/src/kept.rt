// The planner's storage: an empty one, a plan counted, and the series.
ghost use Rattle.std.specs.Prelude.{◌≡◌};
ghost use Rattle.refusals.specs.Refusals.{number_in};
ghost use Rattle.ledger.specs.Calls.{emptied, recorded, series_read};
ghost use Rattle.ledger.specs.declared.answer.Decision.TheVariants.{Nothing};
ghost use Rattle.bench_plans.specs.Figures.{count_figure};

use ledger::answer::Decision;
use ledger_rows::layout::Step;

// An empty planner; the number of the refusal, 0 for none.
#[unsafe(no_mangle)]
pub extern "C" fn bench_fresh(storage: &mut [u64]) -> u64
    ensures value { result ≡ number_in (emptied storage.old).0 }
    ensures storage_after { storage.new ≡ (emptied storage.old).1 }
{
    refusals::number_in(ledger::fresh(storage))
}

// A plan of no worker is counted; the number of the refusal, 0 for none.
#[unsafe(no_mangle)]
pub extern "C" fn bench_record(
    storage: &mut [u64],
    second: u64,
    drafts: u64,
    sequences: u64,
    committed: u64,
) -> u64
    ensures value { result ≡ number_in (recorded storage.old (record { second = second; drafts = drafts; sequences = sequences; committed = committed }) Nothing).0 }
    ensures storage_after { storage.new ≡ (recorded storage.old (record { second = second; drafts = drafts; sequences = sequences; committed = committed }) Nothing).1 }
{
    let step = Step {
        second,
        drafts,
        sequences,
        committed,
    };
    refusals::number_in(ledger::record(storage, step, Decision::Nothing))
}

// How many seconds the series has; 2^64 - 1 where it is refused.
#[unsafe(no_mangle)]
#[tactic(auto, unfolding(crate::specs::Figures::count_figure))]
pub extern "C" fn bench_series(
    storage: &[u64],
    seconds: &mut [u64],
    drafts: &mut [f64],
    batches: &mut [f64],
    committed: &mut [f64],
) -> u64
    ensures value { result ≡ count_figure (series_read storage.now seconds.old drafts.old batches.old committed.old).0 }
    ensures seconds_after { seconds.new ≡ (series_read storage.now seconds.old drafts.old batches.old committed.old).1 }
    ensures drafts_after { drafts.new ≡ (series_read storage.now seconds.old drafts.old batches.old committed.old).2 }
    ensures batches_after { batches.new ≡ (series_read storage.now seconds.old drafts.old batches.old committed.old).3 }
    ensures committed_after { committed.new ≡ (series_read storage.now seconds.old drafts.old batches.old committed.old).4 }
{
    match ledger::series(storage, seconds, drafts, batches, committed) {
        Ok(count) => count,
        Err(_) => 18446744073709551615,
    }
}
