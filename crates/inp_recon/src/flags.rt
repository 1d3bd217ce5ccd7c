//! Setting keys, switches and LEDs by events and by answers.
ghost use Rattle.std.specs.Prelude.{◌≡◌, ◌*◌, ◌≤◌, length};
ghost use Rattle.inp_recon.specs.View.{flags_after_reply, with_flag};

use inp_bits::Bits;
use inp_model::{Event, Reply};

// Sets the flag of an event's code to whether the event sets it; past the end there is no flag.
pub(crate) fn set_flag<const W: usize>(flags: &mut Bits<W>, event: Event)
    requires { W ≤ 1024 }
    ensures { flags.new ≡ with_flag (64 * W) flags.old event }
{
    let index = u32::from(event.code);
    if index < 64 * W as u32 {
        flags.set(index, event.is_set());
    }
}

// Sets all flags to what a reply of bits tells; any other reply sets none.
pub(crate) fn set_flags<const W: usize>(flags: &mut Bits<W>, reply: Reply)
    requires some { 1 ≤ W }
    requires few { W ≤ 12 }
    ensures { flags.new ≡ flags_after_reply (64 * W) reply flags.old }
{
    if let Reply::Bits { words, .. } = reply {
        for at in 0..W {
            flags.set_word(at as u32, words[at]);
        }
    }
}
