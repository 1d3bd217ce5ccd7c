//! A client of an input device that reads its events and keeps a view of it, as libevdev does.
//!
//! This crate is for whoever reads a device's events and wants to know its state by them, also after events were lost.
//! A [`Reader`] opens a client, asks for the device's state and hands out its events one by one. Where the device tells
//! that events were lost (SYN_DROPPED) it synchronises, and hands out events of its own that lead from the old view to
//! the new one. It depends on `inp_model` for events, steps and the trait `Evdev` of whatever makes steps on a device.
//! It also depends on `inp_caps` for the description, on `inp_recon` for views and on `inp_bits` for their lists of
//! codes.
//!
//! Its contract: `specs/Reader.antt` says what `start` and `next` ask of an evdev, one step by the answers before it,
//! and what they answer and leave (a `Talk`, `specs/Talk.antt`). [`Reader::start`] and [`Reader::next`] promise that
//! the calls they made are those of that talk, and that the answer and the reader are its result (`FollowsTalk`,
//! `specs/FollowsTalk.antt`). [`Reader::force_sync`] and each accessor say exactly what they do, and so does
//! [`Reader::new`], unless memory ran out; the view has fourteen values a slot. [`Reader::take_queued`] hands out in
//! one go what the calls of `next` that make no call would hand out one by one.
//!
//! `specs/Synthesis.antt` says which events lead from one view to another. [`laws::synthesis`] states what holds of
//! them (`specs/Laws.antt`). The old view that takes them over, in order, is the new one. Each of them but a report
//! changes the view that takes it over, and there are at most 948, and 17 a slot. [`laws::views`] states that this
//! holds of any two views of a reader. In Sync mode those that it hands out lead from the view before the
//! synchronisation to its view (`specs/KeptViews.antt`). [`examples`] shows what the definitions compute on short
//! histories: a loss, a contact that another one followed, a start refused in part, a revoked and a closed client.
//!
//! What follows from the calls is said beside it:
//!
//! - `specs/LeftEvdev.antt`: what they leave, in one record (`LeavesMade`). They are a legal run of the history that is
//!   seen afterwards. The device and what was seen before stay, the caller's own places grow by theirs, and a history
//!   of accepted steps stays one. The count of answers Again rises where `next` answers so.
//! - `specs/FailedStart.antt`: what a refused start leaves. One that was refused at its open leaves all that the reader
//!   keeps (`open_refused`). Where a query after the open was refused the client is the new one, nothing is queued, the
//!   view is as before, and the reader is to synchronise (`query_refused`).
//! - `specs/Effort.antt`: an answer of `next` leaves less to do, and Again no more (`IsLess`), by which a caller's loop
//!   ends. Of the stops nothing is said, nor of a Sync call with nothing to synchronise.
//! - `specs/ReaderPlace.antt`: a reader *stands* at the end of a history of accepted steps where three things hold.
//!   Since its client was opened or last removed what was visible, it asked for the whole state once and then read.
//!   What it handed out and what it has queued are all that it read, in order. Its view is what the answers and the
//!   events that it handed out make of a new view. It stands after a start that opened a client, and each later call
//!   keeps it so, as long as nobody else uses its client.
//! - `specs/TrueView.antt`: at each report that it hands out its view is then the device's state at the end of that
//!   frame. This holds where its client could follow the device up to there.
//!
//! For the crates above there are lemmas of two calls, one after the other: what both leave (`leaves_made-then`,
//! `proofs/Calls.antt`), and that nobody else used the client (`alone-then` there).
//!
//! A reader takes all its memory when it is made; only the open of a start may meet want of memory. A `start` makes at
//! most 64 calls, and a `next` at most 55, one but for a synchronisation.
#![tactic(auto)]

mod asker;
mod call_made;
mod calls_made;
mod cell_buffer;
mod changes;
mod event_list;
pub mod examples;
pub mod laws;
mod mode;
mod next;
mod phase;
mod queue;
mod reader;
mod run;
mod session;
mod started;
mod stops;
mod synthesis;

pub use call_made::CallMade;
pub use calls_made::CallsMade;
pub use mode::Mode;
pub use next::Next;
pub use phase::Phase;
pub use reader::{NO_CLIENT, Reader};
pub use started::Started;
