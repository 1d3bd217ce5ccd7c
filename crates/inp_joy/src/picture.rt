//! What the records that were handed out tell of buttons and axes.
ghost use Rattle.std.specs.Prelude.{◌≡◌, ◌<◌, not, pos, length, slice_set};
ghost use Rattle.std.specs.Ordering.{int_eq};
ghost use Rattle.inp_bits.specs.Bits.{word_bits};
ghost use Rattle.inp_joy.specs.Picture.{seen_as, picture_after, blank_picture};

use crate::JoyRecord;
use inp_bits::Bits;

/// How the buttons and axes of a joystick client stand, as its records tell.
#[derive(Clone, Copy, Debug, PartialEq, Eq)]
pub struct Picture {
    /// Bit k says whether button k is down.
    pub buttons: u64,
    /// The value of each axis, by its number.
    pub axes: [i16; 64],
}

impl Picture {
    // No button is down, and each axis is at 0.
    pub(crate) fn blank() -> Picture
        ensures { seen_as result ≡ blank_picture }
    {
        Picture {
            buttons: 0,
            axes: [0; 64],
        }
    }

    // Takes over a record.
    #[tactic(auto, unfolding(crate::specs::Picture::picture_after))]
    pub(crate) fn take(&mut self, joy_record: JoyRecord)
        requires { joy_record.number < 64 }
        ensures { seen_as self.new ≡ picture_after (seen_as self.old) joy_record }
    {
        if joy_record.is_of_button() {
            self.buttons = with_button(self.buttons, joy_record.number, is_on(joy_record));
        }
        if joy_record.is_of_axis() {
            self.axes[usize::from(joy_record.number)] = joy_record.value;
        }
    }
}

// Of a button's record: whether it is down.
fn is_on(joy_record: JoyRecord) -> bool
    ensures { result ≡ not (int_eq joy_record.value (pos 0)) }
{
    joy_record.value != 0
}

// A word of truth values with another value at an index.
fn with_button(buttons: u64, number: u8, down: bool) -> u64
    requires { number < 64 }
    ensures { word_bits result ≡ slice_set (word_bits buttons) number down }
{
    let mut bits = Bits::<1>::new();
    bits.set_word(0, buttons);
    bits.set(u32::from(number), down);
    bits.word(0)
}
