//! What a turn of a read comes to.

use crate::{JoyRead, JoyRecord};

/// What a turn of a read comes to.
#[derive(Clone, Copy)]
pub(crate) enum TurnEnd {
    /// This record is handed out.
    Hands { joy_record: JoyRecord },
    /// The read answers so.
    Stops { read: JoyRead },
    /// The read goes on.
    GoesOn,
}
