//! Filters: which events of a device's frames are kept from its clients.
//!
//! This crate is for whoever passes the frames of a device on to clients. [`Filters`] is made from a description, takes
//! the frames one by one, and writes what is left of each. A filter eats every event of a type and code, or every
//! autorepeat. Or it eats the holds of a key that start while another key is down, or those that start too soon after a
//! release. The crate depends on `inp_model` and `inp_caps`.
//!
//! Its contract: `Filter` of `inp_model` says what one filter eats of the events that it was given so far.
//! `specs/Row.antt` says what filters in a row leave of a frame, each of which is given what the one before it did not
//! eat. Events of `EV_SYN` are given to no filter and always left. A [`Filters`] keeps no list of events:
//! `FiltersStandFor` (`specs/FilterState.antt`) says for which filters and which events given so far it stands. A new
//! one stands for its filters before any event, unless memory ran out, and [`Filters::is_empty`] says whether there is
//! no filter. After [`Filters::pass`] it stands for the events given so far with those of the frame. What is left of a
//! frame is the definition's for each such list (`Row.let_through`). It stands at the front of the buffer, in order,
//! and the rest of the buffer stays. An event takes the same time at each filter whatever came before, and no memory is
//! taken once the filters are made.
//!
//! Which frames the filters are given is the caller's to choose. Those of a device while a client holds its grab are
//! not meant for them (`Left` of `inp_model`). `proofs/LeftOfFrames.antt` shows that what is left of the frames of a
//! past is what the filters let through. [`laws`] has what holds of all filters. [`laws::rows`] says that each event of
//! `EV_SYN` is left, and where there is no filter all is. It says that filters in a row leave what the others leave of
//! what the first one leaves. [`laws::holds`]: a chord and a bounce eat an autorepeat or a release exactly where the
//! press before it was eaten. [`examples`] shows what the definitions leave of short frames. It has the ends of the
//! time, moments that fall, presses of a key that is down, and two filters in both orders.
#![tactic(auto)]

mod bounce;
mod chord;
mod eat;
pub mod examples;
mod filter_state;
mod filters;
mod hold;
mod keys;
pub mod laws;
mod norepeat;

pub use filters::Filters;
