// Which library this is: a host compares it with the header that it was built with, and with the words that it kept.
ghost use Rattle.std.specs.Prelude.{◌≡◌};
ghost use Rattle.host.specs.Library.{version};

// The library's version.
pub fn version() -> u64
    ensures { result ≡ version }
{
    2
}
