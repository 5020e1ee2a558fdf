//! Which version of the interface this is.
ghost use Rattle.std.specs.Prelude.{◌≡◌};

/// The version of this interface: 10,000 times the first number, 100 times the second, and the third.
pub const VERSION: u32 = 200;

// C has this number in its header.
const _: () = prove!(VERSION == 200);

/// The version of the library, for comparison with the header's `KS_VERSION`.
#[unsafe(no_mangle)]
pub extern "C" fn ks_version() -> u32
    // The version is that of the library.
    ensures { result ≡ VERSION }
{
    VERSION
}
