//! The version of the interface.
ghost use Rattle.std.specs.Prelude.{◌≡◌};

/// The version of this interface.
#[unsafe(no_mangle)]
pub extern "C" fn inputplay_abi() -> u32
    ensures version { result ≡ 2 }
{
    2
}
