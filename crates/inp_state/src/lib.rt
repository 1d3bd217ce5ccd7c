//! The present state of an input device: its keys, switches, LEDs, sounds, axes and autorepeat.
//!
//! This crate is for whoever turns raw events into frames. [`State`] takes raw events one by one, says what is done
//! with each, and answers what is down and on, how the axes are described and where they stand. Multi-touch values,
//! which belong to slots, are kept elsewhere. The crate depends on `inp_caps` for the description, [`Disposition`] and
//! [`defuzz`], and on `inp_bits` for the lists of codes.
//!
//! Its contract: `inp_model` says what the state is after a list of raw events and descriptions of axes. That is by the
//! last write on each key and the like, and by the events on an axis since its last description. A [`State`] keeps no
//! list; `StateStandsFor` (`specs/State.antt`) says for which lists it stands. A new one stands for the empty list.
//! After [`State::apply`] it stands for the list with one event more, and after [`State::describe`] for the list with
//! one description more, for each list that it stood for. What is done with an event, and what the calls answer, are
//! the model's for each such list. An event takes the same time whatever came before, and nothing here takes memory.
#![tactic(auto)]

mod changes;
mod state;

pub use inp_caps::{Disposition, defuzz};
pub use state::State;
