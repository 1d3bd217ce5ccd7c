//! The slots of a multi-touch device: what each contact's values are, and which slot was announced.
//!
//! This crate is for whoever turns raw events into frames. [`Slots`] takes the raw multi-touch events one by one, says
//! what is done with each, and answers each slot's values. It depends on `inp_caps` for the description, for
//! [`Disposition`](inp_caps::Disposition) and for `defuzz`.
//!
//! Its contract: `inp_model` says what the staged slot, the announced slot and each slot's values are after a list of
//! raw events and descriptions of axes. A slot's values are those of the last writes while it was staged. A [`Slots`]
//! keeps no list; `SlotsStandFor` (`specs/Slots.antt`) says for which lists it stands. A new one stands for the empty
//! list, and after [`Slots::apply`] it stands for the list with one event more, for each list that it stood for. What
//! is done with an event, and what the calls answer, are the model's for each such list. An event takes the same time
//! whatever came before, and memory is taken when the slots are made and never again.
//!
//! A slot keeps its fourteen values in fields with the axes' names, and a contract sees the list of them by ascending
//! codes. `proofs/Others.antt` is for whoever keeps slots beside a state: neither an event that is not multi-touch nor
//! a description of an axis changes a slot, and neither does a frame. The axes whose values belong to slots are never
//! described anew, so their fuzz is the one that `Caps` has.
#![tactic(auto)]

mod slot;
mod slots;

pub use slots::Slots;
