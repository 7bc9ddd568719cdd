// What bench/ calls across the C boundary: the entry points that it measures, each answer as one plain number, which crosses alike on every machine.
#![tactic(auto)]

ghost use Rattle.std.specs.Prelude.{◌≡◌};
ghost use Rattle.decimals.specs.Decimals.{decimal_of};
ghost use Rattle.bank.specs.Read.{bank_read};
ghost use Rattle.cost_lookup.specs.Entry.{price_curve_at};
ghost use Rattle.measured.specs.Fill.{table_read};
ghost use Rattle.bench_exports.specs.Figures.{value_of, rounds_of, rows_of, price_at};

// The value; 0.0 where the decimal is refused.
#[unsafe(no_mangle)]
#[tactic(auto, unfolding(crate::specs::Figures::value_of))]
pub extern "C" fn bench_decimal(text: &[u8]) -> f64
    ensures { result ≡ value_of (decimal_of text.now) }
{
    numeral::decimal(text).unwrap_or(0.0)
}

// How many rounds were read; 0 where the text is refused.
#[unsafe(no_mangle)]
#[tactic(auto, unfolding(crate::specs::Figures::rounds_of))]
pub extern "C" fn bench_bank(
    text: &[u8],
    commits: &mut [u32],
    signals: &mut [f64],
    curve: &mut [f64],
) -> u64
    ensures value { result ≡ rounds_of (bank_read text.now commits.old signals.old curve.old).answer }
    ensures commits_after { commits.new ≡ (bank_read text.now commits.old signals.old curve.old).commits }
    ensures signals_after { signals.new ≡ (bank_read text.now commits.old signals.old curve.old).signals }
    ensures curve_after { curve.new ≡ (bank_read text.now commits.old signals.old curve.old).curve }
{
    match bank::read(text, commits, signals, curve) {
        Ok(size) => size.rounds as u64,
        Err(_) => 0,
    }
}

// How many rows were kept; 0 where the text is refused.
#[unsafe(no_mangle)]
#[tactic(auto, unfolding(crate::specs::Figures::rows_of))]
pub extern "C" fn bench_table(
    text: &[u8],
    depths: &mut [u32],
    batches: &mut [u32],
    seconds: &mut [f64],
) -> u64
    ensures value { result ≡ rows_of (table_read text.now depths.old batches.old seconds.old).answer }
    ensures depths_after { depths.new ≡ (table_read text.now depths.old batches.old seconds.old).depths }
    ensures batches_after { batches.new ≡ (table_read text.now depths.old batches.old seconds.old).batches }
    ensures seconds_after { seconds.new ≡ (table_read text.now depths.old batches.old seconds.old).seconds }
{
    match measured::read(text, depths, batches, seconds) {
        Ok(rows) => rows as u64,
        Err(_) => 0,
    }
}

// The price of a depth, on the whole curve of a batch; 0.0 where the table is refused or there is no such depth.
#[unsafe(no_mangle)]
#[tactic(auto, unfolding(crate::specs::Figures::price_at))]
pub extern "C" fn bench_price(
    depths: &[u32],
    batches: &[u32],
    seconds: &[f64],
    rows: usize,
    batch: u32,
    kv_delta: f64,
    depth: usize,
) -> f64
    ensures { result ≡ price_at depth (price_curve_at rows depths.now batches.now seconds.now batch kv_delta) }
{
    match cost_lookup::price_curve(depths, batches, seconds, rows, batch, kv_delta) {
        Ok(prices) => { if depth < 65 { prices[depth] } else { 0.0 } }
        Err(_) => 0.0,
    }
}
