//! What a filter does.

/// A filter of a device: which events it keeps from the device's clients (the kernel's input handlers with a `filter`
/// function). The four kinds are this project's choice.
///
/// A hold of a key goes from a press (a value other than 0 and 2) over its autorepeats (2) to its release (0).
#[derive(Clone, Copy, Debug, PartialEq, Eq)]
pub enum Filter {
    /// Eats every event of this type and code.
    Eat {
        /// The type, as `EV_KEY`. Events of `EV_SYN` are never eaten.
        kind: u16,
        /// The code within its type.
        code: u16,
    },
    /// Eats every autorepeat: each `EV_KEY` event with the value 2.
    Norepeat,
    /// Eats the holds of one key that start while another one is down.
    Chord {
        /// The key that is down. Nothing of it is eaten.
        first: u16,
        /// The key whose holds are eaten.
        second: u16,
    },
    /// Eats the holds of a key that start too soon after a release that was not eaten.
    Bounce {
        /// The key.
        code: u16,
        /// How long after the release, in microseconds. A hold that starts so much later or more is left.
        micros: u32,
    },
}
