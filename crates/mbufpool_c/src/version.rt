//! The version of the library.

ghost use Rattle.std.specs.Prelude.{◌≡◌, ◌*◌, ◌+◌};

/// The version's first number, which changes where a caller has to.
const MAJOR: u32 = 0;

/// Its second, which changes where calls come.
const MINOR: u32 = 1;

/// The version of this library, as one number: 65,536 times its first, and its second.
#[unsafe(no_mangle)]
pub extern "C" fn mbufpool_version() -> u32
    ensures { result ≡ 65536 * 0 + 1 }
{
    65536 * MAJOR + MINOR
}
