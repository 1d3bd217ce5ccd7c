//! How a client stands, as C has it.
ghost use Rattle.std.specs.Prelude.{◌≡◌, if◌then◌else◌};
ghost use Rattle.inp_c.specs.ToldStep.{clock_number};

use crate::step_told::clock_number;
use inp_uinput::ClientState;
use std::mem::size_of;

/// How a client stands.
#[repr(C)]
#[derive(Drop)]
pub struct CClient {
    /// The clock that it reads its events by, by the kernel's number.
    pub clock: u32,
    /// 1 where it was revoked, else 0.
    pub revoked: u32,
    /// 1 where it holds the grab, else 0.
    pub grabs: u32,
}

const _: () = prove!(size_of::<CClient>() == 12);

/// How a client stands, as C has it.
pub(crate) fn c_client(state: ClientState) -> CClient
    ensures { result ≡ record {
      clock = clock_number state.clock;
      revoked = if state.revoked then 1 else 0;
      grabs = if state.grabs then 1 else 0;
    } }
{
    CClient {
        clock: clock_number(state.clock),
        revoked: u32::from(state.revoked),
        grabs: u32::from(state.grabs),
    }
}
