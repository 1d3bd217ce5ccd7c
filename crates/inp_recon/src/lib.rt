//! What a client of an input device has seen: the view that a reader keeps of keys, switches, LEDs, axes and contacts.
//!
//! This crate is for whoever reads a device's events and wants to know its state by them. A [`View`] follows the events
//! that the client takes and the answers to its queries. The crate depends on `inp_model` for events, steps and
//! replies, on `inp_bits` for the lists of codes, and on `inp_caps` for the description.
//!
//! Its contract: `specs/View.antt` says, part by part, what an event and an answer make of a view. [`View::take_event`]
//! and [`View::answer`] are one step of that fold each, and [`View::take_events`] is one for each event, as an equation
//! on the whole view. A copied view is given exactly, and a new one too, unless memory ran out; each call of [`Cells`]
//! is an equation.
//!
//! [`laws::faithful`] says when a view is the device's state. It is so at each report of a frame that the client could
//! follow, having asked for everything and lost nothing, while nothing was kept from it. It is a law over the
//! definitions alone, for every description, every history of accepted steps and every client (`specs/Faithful.antt`).
//! It speaks of the fold of the definitions. These calls keep that fold for a client that hands them each of its
//! answers and of the events that it took. Nothing is said of a view in the middle of a frame, at a frame before the
//! last query, or between a loss and the next synchronisation.
//!
//! [`examples`] shows what the fold makes of short lists of events and answers, a synchronisation of slots in the midst
//! of a batch among them. [`faithful_examples`] shows what the law asks for, and for each condition a short history in
//! which it alone fails and the view is wrong.
//!
//! A view takes memory when it is made, and never again. Lemmas for callers: no event and no answer changes how long
//! the lists of a view are (`proofs/Sizes.antt`), and events may be taken in two parts (`proofs/Folds.antt`). Between
//! two steps a client's queue is empty, ends in a report, or is one SYN_DROPPED alone (`proofs/Shape.antt`).
#![tactic(auto)]

mod cells;
pub mod examples;
mod flags;
pub mod laws;
mod view;

pub use cells::Cells;
pub use view::View;
