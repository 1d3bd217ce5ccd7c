//! What is done with an event.
ghost use Rattle.std.specs.Prelude.{⊤, [], ◌∷◌, codes};

use bitflags::{Flag, Flags, bitflag_items};

/// What is done with an event, as flags (the kernel's `input_get_disposition`). With no flag set it is ignored.
#[derive(Clone, Copy, PartialEq, Eq, Debug)]
pub struct Disposition(u8);

bitflag_items! {
    impl Disposition: u8 {
        /// It is passed on to the clients.
        const TO_HANDLERS = 1;
        /// It is passed on to the device, which sets an LED, a sound and the like.
        const TO_DEVICE = 2;
        /// The staged slot is passed on before it.
        const SLOT = 4;
        /// It ends the frame.
        const FLUSH = 8;
    }
}

impl Flags for Disposition {
    ghost use Rattle.inp_caps.specs.Disposition.{flags_of};

    type Bits = u8;

    ghost exact = { ⊤ };

    ghost table = { (codes "TO_HANDLERS", 1) ∷ (codes "TO_DEVICE", 2) ∷ (codes "SLOT", 4)
        ∷ (codes "FLUSH", 8) ∷ [] };

    ghost set_of = { flags_of };

    fn flags<'a>() -> &'a [Flag<Disposition>] {
        Disposition::FLAGS
    }

    fn bits(&self) -> u8 {
        self.0
    }

    fn from_bits_retain(bits: u8) -> Disposition {
        Disposition(bits)
    }
}
