// Which library this is.
ghost use Rattle.std.specs.Prelude.{◌≡◌};
ghost use Rattle.host.specs.Library.{version};

use host::library;

// The version, which a host compares with its header's before its first call.
pub fn latchmeander_version() -> u64
    ensures { result ≡ version }
{
    library::version()
}
