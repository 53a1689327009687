ghost use Rattle.std.specs.Prelude.{◌≡◌};

/// The library's version: the first number in the upper half, the second in the lower one.
const VERSION: u32 = 65_536;

/// The version of the library, that of the header.
#[unsafe(no_mangle)]
pub extern "C" fn cmsproof_version() -> u32
    ensures { result ≡ 65536 }
{
    VERSION
}
