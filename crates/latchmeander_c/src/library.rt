// Which library this is.
ghost use Rattle.std.specs.Prelude.{◌≡◌};
ghost use Rattle.host.specs.Library.{version};

// The version, which a host compares with its header's before its first call.
#[unsafe(no_mangle)]
pub extern "C" fn latchmeander_version() -> u64
    ensures { result ≡ version }
{
    latchmeander::library::latchmeander_version()
}
