// The two sums of what can be read: how many seconds and workers are held and how many withdrawals are available, the series with the slot
// behind it in each buffer, the day figure, and the record of each worker of the case. A reading is its refusal and its values, 0 where there
// is none.
use cases::sums::Sums;
use cases::words;
use ledger::answer::Held;
use ledger_words::outcome::{Outcome, of_value};
use ledger_words::reads::front;
use refusals::Refusal;

pub fn of(
    storage: &[u64],
    names: &[u64],
    seconds: &mut [u64],
    drafts: &mut [f64],
    batches: &mut [f64],
    committed: &mut [f64],
) -> Sums {
    let held = held(storage);
    let all = and_series(held, storage, seconds, drafts, batches, committed);
    let figure = of_value(ledger::day_figure(storage));
    and_workers(and(all, figure), storage, names)
}

fn and(sums: Sums, read: Outcome) -> Sums {
    sums.and(read.refusal).and(read.value)
}

fn held(storage: &[u64]) -> Sums {
    let seconds = of_value(ledger::seconds_held(storage));
    let workers = of_value(ledger::workers_held(storage));
    let available = of_value(ledger::available(storage));
    and(and(and(Sums::new(), seconds), workers), available)
}

fn and_series(
    sums: Sums,
    storage: &[u64],
    seconds: &mut [u64],
    drafts: &mut [f64],
    batches: &mut [f64],
    committed: &mut [f64],
) -> Sums {
    let read = of_value(ledger::series(storage, seconds, drafts, batches, committed));
    let count = read.value;
    and_fronts(and(sums, read), count, seconds, drafts, batches, committed)
}

// The fronts of the buffers, of so many slots and one more.
fn and_fronts(
    sums: Sums,
    count: u64,
    seconds: &[u64],
    drafts: &[f64],
    batches: &[f64],
    committed: &[f64],
) -> Sums {
    let s = front(count, seconds.len());
    let d = front(count, drafts.len());
    let b = front(count, batches.len());
    let c = front(count, committed.len());
    sums.and_list(&seconds[0..s])
        .and_list(&drafts[0..d])
        .and_list(&batches[0..b])
        .and_list(&committed[0..c])
}

fn and_workers(sums: Sums, storage: &[u64], names: &[u64]) -> Sums {
    let mut all = sums;
    for name in names.chunks_exact(2) {
        let found = ledger::worker(storage, words::at(name, 0), words::at(name, 1));
        all = and_worker(all, found);
    }
    all
}

// The refusal, whether the worker is held, and its record.
fn and_worker(sums: Sums, found: Result<Option<Held>, Refusal>) -> Sums {
    match found {
        Ok(Some(held)) => sums.and_list(&[0, 1, held.width, held.rounds, held.stall]),
        Ok(None) => sums.and_list(&[0u64; 5]),
        Err(refusal) => sums.and_list(&[refusal.number(), 0, 0, 0, 0]),
    }
}
