// The commands that tell what the planner holds: the series and the day figure.
use crate::turns;
use crate::turns::Turn;

// Each second with its sums and means.
pub fn series(turn: Turn, storage: &[u64], page: &mut [u8]) -> Turn {
    match ledger::seconds_held(storage) {
        Ok(seconds) => {
            let headed = headed(turn, seconds, page);
            rows(headed, seconds, storage, page)
        }
        Err(refusal) => turns::refused(turn, refusal, page),
    }
}

fn headed(turn: Turn, seconds: u64, page: &mut [u8]) -> Turn {
    let at = page::make_room(turn.rt, page, turn.used);
    let used = series_lines::series_head(page, at, turn.number, seconds);
    turns::done(turn, used)
}

fn rows(start: Turn, seconds: u64, storage: &[u64], page: &mut [u8]) -> Turn {
    let mut turn = start;
    for k in 0..seconds {
        turn = row(turn, k, storage, page);
    }
    turn
}

fn row(turn: Turn, k: u64, storage: &[u64], page: &mut [u8]) -> Turn {
    match ledger_sums::sums(storage, k) {
        Ok(Some(sums)) => {
            let at = page::make_room(turn.rt, page, turn.used);
            let used = series_lines::series_row(
                page,
                at,
                turn.number,
                sums.second,
                sums.drafts,
                sums.sequences,
                sums.committed,
                sums.steps,
            );
            turns::done(turn, used)
        }
        Ok(None) => turn,
        Err(refusal) => turns::refused(turn, refusal, page),
    }
}

// Each second with its means by their bits.
pub fn series_bits(turn: Turn, storage: &[u64], page: &mut [u8]) -> Turn {
    let mut seconds = [0u64; 4096];
    let mut drafts = [0.0f64; 4096];
    let mut batches = [0.0f64; 4096];
    let mut committed = [0.0f64; 4096];
    match ledger::series(
        storage,
        &mut seconds,
        &mut drafts,
        &mut batches,
        &mut committed,
    ) {
        Ok(count) => {
            let headed = headed(turn, count, page);
            bit_rows(headed, count, &seconds, &drafts, &batches, &committed, page)
        }
        Err(refusal) => turns::refused(turn, refusal, page),
    }
}

fn bit_rows(
    start: Turn,
    count: u64,
    seconds: &[u64],
    drafts: &[f64],
    batches: &[f64],
    committed: &[f64],
    page: &mut [u8],
) -> Turn {
    let mut turn = start;
    for (k, second) in seconds.iter().enumerate() {
        if count <= k as u64 {
            return turn;
        }
        turn = bit_row(
            turn,
            *second,
            float_at(drafts, k),
            float_at(batches, k),
            float_at(committed, k),
            page,
        );
    }
    turn
}

fn float_at(list: &[f64], k: usize) -> f64 {
    if k < list.len() { list[k] } else { 0.0 }
}

fn bit_row(
    turn: Turn,
    second: u64,
    mean_draft: f64,
    mean_batch: f64,
    mean_committed: f64,
    page: &mut [u8],
) -> Turn {
    let at = page::make_room(turn.rt, page, turn.used);
    let used = series_lines::series_bits(
        page,
        at,
        turn.number,
        second,
        mean_draft,
        mean_batch,
        mean_committed,
    );
    turns::done(turn, used)
}

pub fn day(turn: Turn, storage: &[u64], page: &mut [u8]) -> Turn {
    match ledger::day_figure(storage) {
        Ok(figure) => figure_told(turn, figure, page),
        Err(refusal) => turns::refused(turn, refusal, page),
    }
}

fn figure_told(turn: Turn, figure: f64, page: &mut [u8]) -> Turn {
    let at = page::make_room(turn.rt, page, turn.used);
    let used = series_lines::day(page, at, turn.number, figure);
    turns::done(turn, used)
}
