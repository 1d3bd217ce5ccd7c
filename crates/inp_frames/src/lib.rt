//! The core of a device: steps come in, frames go out.
//!
//! This crate is for whoever delivers frames to clients. [`Core`] keeps the present state, the slots, the batch of
//! events passed since the last frame, the timer of the autorepeat, and whether the device is inhibited. It handles the
//! raw events of each step, and passes each frame that they end on to a [`Frames`], whoever that is. The crate depends
//! on `inp_state` for keys, switches and the like, and on `inp_slots` for the multi-touch values. It also depends on
//! `inp_caps` for the description, and on `inp_bits` for lists of keys and slots.
//!
//! How raw events become frames, one row after another on a device with two slots whose hint is 8 (the kernel's input
//! documentation):
//!
//! | Raw events | Frame |
//! |---|---|
//! | `KEY_A` 1, `KEY_A` 1, `SYN_REPORT` | `KEY_A` 1, `SYN_REPORT`: what changes nothing is not passed |
//! | `SYN_REPORT` | none: a report alone is no frame |
//! | `ABS_MT_SLOT` 1, `ABS_MT_POSITION_X` 5, `SYN_REPORT` | the same: the slot is passed before its first value |
//! | `ABS_MT_SLOT` 7, `ABS_MT_POSITION_X` 6, `SYN_REPORT` | `ABS_MT_POSITION_X` 6, `SYN_REPORT`: there is no slot 7 |
//! | eight events with no report | the eight, and `SYN_REPORT` with the value 1, as the frame was cut short |
//!
//! The core makes raw events itself on two occasions. Both end their frame by `SYN_REPORT` with the value 1.
//!
//! *A tick* ([`Core::tick`]) lets the timer of the autorepeat fire, on a device with `EV_REP` and `EV_KEY`. A key that
//! is pressed in a frame arms the timer, one delay after the frame. Any key that is released in a frame disarms it. A
//! tick at the moment for which the timer is armed, or later, repeats the key once and arms the timer again, one period
//! after the tick:
//!
//! | Steps, moments in milliseconds, delay 250 and period 33 | Frame |
//! |---|---|
//! | `KEY_A` 1, `SYN_REPORT` at 1,000 | the same |
//! | a tick at 1,249 | none: it is too early |
//! | a tick at 1,250 | `KEY_A` 2, `SYN_REPORT` 1; the next is due at 1,283 |
//! | `KEY_A` 0, `SYN_REPORT` at 1,260 | the same |
//! | a tick at 1,283 | none: the release disarmed the timer |
//!
//! *An inhibition* ([`Core::inhibit`]) lifts each contact and releases each key that is down, by ascending numbers,
//! after what the batch holds. From then on raw events are ignored, until [`Core::uninhibit`].
//!
//! *An axis described anew* ([`Core::describe`]) passes no event and ends no frame. On a device with the axis `ABS_X`,
//! at 0 with fuzz 0:
//!
//! | Steps | Frame |
//! |---|---|
//! | `ABS_X` 50, `SYN_REPORT` | the same |
//! | `ABS_X` is described with the value 10 and the fuzz 8 | none |
//! | `ABS_X` 13, `SYN_REPORT` | none: the move is within half the fuzz |
//! | `ABS_X` 14, `SYN_REPORT` | `ABS_X` 11, `SYN_REPORT`: within the fuzz, the value moves a quarter of the way |
//!
//! Its contract: `inp_model` says which raw events and descriptions a step stands for after a history, which frames
//! they are cut into, and how they arm the timer. A [`Core`] keeps no history; `CoreStandsFor` (`specs/Core.antt`) says
//! for which histories it stands. A new one stands for the empty history, and after each call it stands for the history
//! with one step more, for each history that it stood for. The frames that the step ends are the model's, and each is
//! passed on once, in order. A step that ends no frame leaves the taker as it was (`IsEntered`). Right after
//! [`Core::inject`], [`Core::sends`] says whether the event goes to the device itself too, as to its lights.
//!
//! `proofs/KeptCore.antt` is for whoever keeps a core beside the clients of a device. A step that is not the core's
//! ends no frame, and the core as it is stands for the history with that step. A raw event takes the same time whatever
//! came before, and an inhibition takes time for each slot and each key that is down. Memory is taken when the core is
//! made and never again.
//!
//! Inside: `disposition` says what is done with a raw event, `batch` keeps what is passed for it until its frame ends,
//! and `autorepeat` says what a frame makes of the timer. `contacts` finds the contacts to lift, `raw_events` has the
//! events that the core makes, and `input_core` joins them.
#![tactic(auto)]

mod autorepeat;
mod batch;
mod contacts;
mod disposition;
mod frames;
mod input_core;
mod raw_events;

pub use frames::{FRAME_MAX, Frames};
pub use input_core::Core;
