// The interface's version, so that a header and a library of two releases are noticed.
ghost use Rattle.std.specs.Prelude.{◌≡◌};
ghost use Rattle.capi.specs.Version.{version};

// CANCEL_VERSION_MAJOR and CANCEL_VERSION_MINOR of include/cancel.h.
const MAJOR: u64 = 1;

const MINOR: u64 = 2;

#[unsafe(no_mangle)]
pub extern "C" fn cancel_version() -> u64
    ensures { result ≡ version }
{
    MAJOR * 1000 + MINOR
}
