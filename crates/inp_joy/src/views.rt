//! What a view tells of a key and of an axis.
ghost use Rattle.std.specs.Prelude.{◌≡◌, length};
ghost use Rattle.inp_joy.specs.JoyRecord.{within_16_bits};
ghost use Rattle.inp_joy.specs.Picture.{is_down_in, value_in};

use crate::joy_record::within_16_bits;
use inp_recon::View;

// Whether a key is down; none is past the last one.
pub(crate) fn is_down(view: &View, code: u16) -> bool
    requires { length view.now.keys ≡ 768 }
    ensures { result ≡ is_down_in view.now code }
{
    code < 768 && view.keys.get(u32::from(code))
}

// The value of an axis, and 0 past the last one.
fn axis_of(view: &View, code: u16) -> i32
    requires { length view.now.axes ≡ 64 }
    ensures { result ≡ value_in view.now code }
{
    if code < 64 {
        view.axes[usize::from(code)]
    } else {
        0
    }
}

// The same, cut to 16 bits.
pub(crate) fn cut_axis_of(view: &View, code: u16) -> i16
    requires { length view.now.axes ≡ 64 }
    ensures { result ≡ within_16_bits (value_in view.now code) }
{
    within_16_bits(axis_of(view, code))
}
