//! What one line means.

use inp_actors::{Command, Name, Role};
use inp_model::{AxisInfo, Filter};

/// What one line means.
#[derive(Drop)]
pub(crate) enum Item {
    Header { version: u32 },
    Device { requested: bool, name: Name },
    Hint { count: u32 },
    Log { count: u32 },
    Realtime { offset: u64 },
    Boottime { offset: u64 },
    Slots { count: u32 },
    Kind { kind: u16 },
    Code { kind: u16, code: u16 },
    Axis { code: u16, info: AxisInfo },
    Filter { filter: Filter },
    Actor { role: Role, name: Name },
    Action { actor: u32, command: Command },
}
