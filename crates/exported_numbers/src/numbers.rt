// Numbers as text spells them, and the whole second that a moment falls in.
ghost use Rattle.std.specs.Prelude.{◌≡◌};
ghost use Rattle.std.specs.Float.Ieee.{to_unsigned};
ghost use Rattle.decimals.specs.Decimals.{decimal_refusal, decimal_of};
ghost use Rattle.numeral.specs.Moment.{second_of};
ghost use Rattle.numeral.specs.Spelling.{whole_of};
ghost use Rattle.exported.specs.Spelled.{whole_told, decimal_told};

use exported::Told;

// `first` is the value.
#[unsafe(no_mangle)]
pub extern "C" fn numeral_whole(text: &[u8]) -> Told
    ensures { result ≡ whole_told (whole_of text.now) }
{
    exported::whole_told(numeral::whole(text))
}

// `first` is the bits of the value.
#[unsafe(no_mangle)]
pub extern "C" fn numeral_decimal(text: &[u8]) -> Told
    ensures { result ≡ decimal_told (decimal_of text.now) }
{
    exported::decimal_told(numeral::decimal(text))
}

#[unsafe(no_mangle)]
#[tactic(auto, using(decimals::proofs::Outcomes::number_without))]
pub extern "C" fn numeral_decimal_refusal(text: &[u8]) -> u64
    ensures { result ≡ decimal_refusal (decimal_of text.now) }
{
    refusals::number_in(numeral::judge_decimal(text))
}

#[unsafe(no_mangle)]
pub extern "C" fn numeral_second(end: f64) -> u64
    ensures { result ≡ second_of end }
{
    numeral::second(end)
}

#[unsafe(no_mangle)]
pub extern "C" fn numeral_whole_part(x: f64) -> u64
    ensures { result ≡ to_unsigned 64 x }
{
    numeral::whole_part(x)
}
