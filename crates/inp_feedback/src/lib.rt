//! What goes to a device, and what its owner takes of it: definitions and plain values.
//!
//! This crate is for whoever makes devices by requests and for whoever reads what goes to them. It depends on
//! `inp_model` for steps and events, and on no device.
//!
//! Its definitions: what is sent to a device (`specs/Sent.antt`) are the passed events of EV_LED, EV_SND, EV_MSC and
//! EV_REP, and SYN_CONFIG. Such a device keeps a list of its accepted steps ([`UEntry::Made`]) and between them of its
//! owner's feedback calls ([`UEntry::Feedback`], `specs/UEntry.antt`). What waits for the owner is what
//! `specs/Feedback.antt` says of the kept list: the last 15 at most ([`FEEDBACK_MAX`]) of the events that were sent and
//! not taken yet. A feedback call takes the first of these, as many as it has room for, and answers [`Fed::Took`].
//! [`Fed::Full`] comes exactly where as many calls are kept as the log limit says (`fed`). `specs/KeptList.antt` makes a
//! kept list of the steps and of the calls apart, and has the calls of a kept list, and their numbers.
//!
//! For the crates above it is proved that a kept list is that of its own steps and calls (`proofs/Woven.antt`). No more
//! than 15 events wait, so that more room takes no more (`proofs/Few.antt`), and the numbers of the calls tell the
//! calls (`proofs/Woven.antt`).
//!
//! [`laws`] has what waits where no feedback call was made yet: the last 15 of all that was sent. [`examples`] shows
//! what is sent and taken on short lists, among them an autorepeat, an inhibition, an open batch, settings, small
//! buffers and the limit of calls.
#![tactic(auto)]

pub mod examples;
mod fed;
mod feedback_call;
mod feeds;
pub mod laws;
mod u_entry;

pub use fed::{FEEDBACK_MAX, Fed};
pub use feedback_call::FeedbackCall;
pub use feeds::Feeds;
pub use u_entry::UEntry;
