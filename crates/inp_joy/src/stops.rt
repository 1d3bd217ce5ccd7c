//! What an answer of a reader is to a joystick client.
ghost use Rattle.std.specs.Prelude.{◌≡◌};
ghost use Rattle.inp_joy.specs.Joy.{joy_read_of};

use crate::JoyRead;
use inp_reader::Next;

// The answer of a read that it is, if it is one.
pub(crate) fn joy_read_of(next: Next) -> Option<JoyRead>
    ensures { result ≡ joy_read_of next }
{
    match next {
        Next::Again { at, ends } => Some(JoyRead::Again { at, ends }),
        Next::NoDevice => Some(JoyRead::NoDevice),
        Next::Closed => Some(JoyRead::Closed),
        Next::Full { at } => Some(JoyRead::Full { at }),
        _ => None,
    }
}
