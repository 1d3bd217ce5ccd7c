//! A picture of buttons and axes, as C has it.
ghost use Rattle.std.specs.Prelude.{◌≡◌};
ghost use Rattle.inp_c.specs.Joystick.{told_picture};

use inp_joy::Picture;
use std::mem::size_of;

/// How the buttons and axes of a joystick client stand.
#[repr(C)]
#[derive(Drop)]
pub struct CPicture {
    /// Bit k says whether button k is down.
    pub buttons: u64,
    /// The value of each axis, by its number.
    pub axes: [i16; 64],
}

const _: () = prove!(size_of::<CPicture>() == 136);

/// A picture, as C has it.
pub(crate) fn c_picture(picture: Picture) -> CPicture
    ensures { result ≡ told_picture picture }
{
    let axes = picture.axes;
    CPicture {
        buttons: picture.buttons,
        axes,
    }
}
