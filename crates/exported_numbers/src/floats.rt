// Rust's f64, total.
ghost use Rattle.std.specs.Prelude.{◌≡◌};
ghost use Rattle.std.specs.Float.{binary64};
ghost use Rattle.std.specs.Float.Ieee.{to_bits, of_bits};
ghost use Rattle.float.specs.Floats.{max_of, clamp_to, clamp_unit, is_finite, is_clear};
ghost use Rattle.float.specs.Range.{in_range, in_range_or_infinite, in_signed_range};

#[unsafe(no_mangle)]
pub extern "C" fn float_max(a: f64, b: f64) -> f64
    ensures { result ≡ max_of a b }
{
    float::max(a, b)
}

#[unsafe(no_mangle)]
pub extern "C" fn float_clamp(x: f64, low: f64, high: f64) -> f64
    ensures { result ≡ clamp_to x low high }
{
    float::clamp(x, low, high)
}

#[unsafe(no_mangle)]
pub extern "C" fn float_clamp_unit(x: f64) -> f64
    ensures { result ≡ clamp_unit x }
{
    float::clamp_unit(x)
}

#[unsafe(no_mangle)]
pub extern "C" fn float_is_finite(x: f64) -> bool
    ensures { result ≡ is_finite x }
{
    float::is_finite(x)
}

#[unsafe(no_mangle)]
pub extern "C" fn float_is_clear(x: f64) -> bool
    ensures { result ≡ is_clear x }
{
    float::is_clear(x)
}

#[unsafe(no_mangle)]
pub extern "C" fn float_in_range(x: f64, low: f64, high: f64) -> bool
    ensures { result ≡ in_range low high x }
{
    float::in_range(x, low, high)
}

#[unsafe(no_mangle)]
pub extern "C" fn float_in_range_or_infinite(x: f64, low: f64, high: f64) -> bool
    ensures { result ≡ in_range_or_infinite low high x }
{
    float::in_range_or_infinite(x, low, high)
}

#[unsafe(no_mangle)]
pub extern "C" fn float_in_signed_range(x: f64, low: f64, high: f64) -> bool
    ensures { result ≡ in_signed_range low high x }
{
    float::in_signed_range(x, low, high)
}

#[unsafe(no_mangle)]
pub extern "C" fn float_bits(x: f64) -> u64
    ensures { result ≡ to_bits binary64 x }
{
    float::bits(x)
}

#[unsafe(no_mangle)]
pub extern "C" fn float_of_bits(b: u64) -> f64
    ensures { result ≡ of_bits binary64 b }
{
    float::of_bits(b)
}
