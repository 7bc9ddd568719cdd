// A bank's curve and a cost table looked up.
ghost use Rattle.std.specs.Prelude.{◌≡◌};
ghost use Rattle.bank.specs.Acceptance.{expected_accepted};
ghost use Rattle.cost_lookup.specs.Entry.{table_refusal, step_time_at, step_time_frac_at, has_draft_at, batch_range_at, max_batch_at, price_curve_at};
ghost use Rattle.exported_costs.specs.Answers.{float_told, time_told, measured_told, range_told, batch_told, price_told};

use exported::Told;

// `first` is the value.
#[unsafe(no_mangle)]
pub extern "C" fn bank_expected_accepted(curve: &[f64], depth: u32, gamma: u32) -> Told
    ensures { result ≡ float_told (expected_accepted curve.now depth gamma) }
{
    exported_costs::lookups::bank_expected_accepted(curve, depth, gamma)
}

// The number of the refusal, 0 for none.
#[unsafe(no_mangle)]
pub extern "C" fn cost_lookup_table_refusal(
    depths: &[u32],
    batches: &[u32],
    seconds: &[f64],
    rows: usize,
) -> u64
    ensures { result ≡ table_refusal rows depths.now batches.now seconds.now }
{
    exported_costs::lookups::cost_lookup_table_refusal(depths, batches, seconds, rows)
}

// `first` is 1 where it is measured, and `second` the seconds.
#[unsafe(no_mangle)]
pub extern "C" fn cost_lookup_step_time(
    depths: &[u32],
    batches: &[u32],
    seconds: &[f64],
    rows: usize,
    batch: u32,
    depth: u32,
) -> Told
    ensures { result ≡ time_told (step_time_at rows depths.now batches.now seconds.now batch depth) }
{
    exported_costs::lookups::cost_lookup_step_time(depths, batches, seconds, rows, batch, depth)
}

// `first` is 1 for yes.
#[unsafe(no_mangle)]
pub extern "C" fn cost_lookup_has_draft(
    depths: &[u32],
    batches: &[u32],
    seconds: &[f64],
    rows: usize,
    depth: u32,
) -> Told
    ensures { result ≡ measured_told (has_draft_at rows depths.now batches.now seconds.now depth) }
{
    exported_costs::lookups::cost_lookup_has_draft(depths, batches, seconds, rows, depth)
}

// `first` is 1 where it is measured, and `second` the seconds.
#[unsafe(no_mangle)]
pub extern "C" fn cost_lookup_step_time_frac(
    depths: &[u32],
    batches: &[u32],
    seconds: &[f64],
    rows: usize,
    batch: u32,
    g: f64,
) -> Told
    ensures { result ≡ time_told (step_time_frac_at rows depths.now batches.now seconds.now batch g) }
{
    exported_costs::lookups::cost_lookup_step_time_frac(depths, batches, seconds, rows, batch, g)
}

// `first` is one more than the first batch, 0 where it is unmeasured, and `second` the last batch.
#[unsafe(no_mangle)]
pub extern "C" fn cost_lookup_batch_range(
    depths: &[u32],
    batches: &[u32],
    seconds: &[f64],
    rows: usize,
    depth: u32,
) -> Told
    ensures { result ≡ range_told (batch_range_at rows depths.now batches.now seconds.now depth) }
{
    exported_costs::lookups::cost_lookup_batch_range(depths, batches, seconds, rows, depth)
}

// `first` is 1 where it is measured, and `second` the batch.
#[unsafe(no_mangle)]
pub extern "C" fn cost_lookup_max_batch(
    depths: &[u32],
    batches: &[u32],
    seconds: &[f64],
    rows: usize,
    depth: u32,
) -> Told
    ensures { result ≡ batch_told (max_batch_at rows depths.now batches.now seconds.now depth) }
{
    exported_costs::lookups::cost_lookup_max_batch(depths, batches, seconds, rows, depth)
}

// `first` is the price of depth `at`, 0 where there is no such depth.
#[unsafe(no_mangle)]
pub extern "C" fn cost_lookup_price_curve(
    depths: &[u32],
    batches: &[u32],
    seconds: &[f64],
    rows: usize,
    batch: u32,
    kv_delta: f64,
    at: usize,
) -> Told
    ensures { result ≡ price_told at (price_curve_at rows depths.now batches.now seconds.now batch kv_delta) }
{
    exported_costs::lookups::cost_lookup_price_curve(
        depths, batches, seconds, rows, batch, kv_delta, at,
    )
}
