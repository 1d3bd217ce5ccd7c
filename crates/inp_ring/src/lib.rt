//! The rings that keep clients' events until they are read, and may lose them, over one store of events.
//!
//! This crate is for whoever keeps clients. An event that several clients are offered is one [`Cell`] of a [`Store`]
//! that they share, and a [`Ring`] holds numbers of cells. A ring takes numbers one by one, shows those up to the last
//! SYN_REPORT, and tells a loss by SYN_DROPPED, as evdev's client buffer does. The crate depends on `inp_model`, whose
//! definitions of a queue (`Queue`) its contract cites. It also depends on the toolchain's `slab`, in which the cells
//! lie, and `circular_buffer`, in which the numbers lie.
//!
//! A contract sees a [`Store`] as a finite map from numbers to cells with how many rings hold each, and how many more
//! cells fit (`StoreView` in `specs/Store.antt`). It sees a [`Ring`] as its number of places and the list of its
//! numbers, oldest first (`RingView` in `specs/Ring.antt`). With a store its queue is the list of their cells. Each
//! call does to that queue what the definition of its name says, and gives the exact result. What a call does to the
//! store is one fact, `IsMoved`. Each number that leaves the ring has one holder less, and its cell goes with the last
//! one. Each number that comes has one holder more, and all else stays. So a store whose cells have as many holders as
//! there are rings with their numbers stays so.
//!
//! Two calls are for who puts a number in several rings. [`Ring::enter`] gives the number that is put no holder
//! (`IsPutAtEnd`), and [`Ring::append_all`] looks at no store: their caller adds all holders at once.
//!
//! A SYN_DROPPED that is not itself put enters only at a ring with one place left, or by a change of clock on a queue
//! that is not empty. It is in a cell of its own, which no other ring holds (`IsLost`). After it stands the number that
//! was put. A flush keeps the very numbers whose events stay, and a read keeps the ones that it does not take.
//!
//! Memory is taken when a ring is made, and by [`Store::grow`], and never else. Putting an event and reading one take
//! the same time at any length, but for a loss, which drops all events. A flush walks the queue once, in place. The
//! events that are visible are counted from the newest one back, which between two frames is a report.
#![tactic(auto)]

mod cell;
mod class;
mod removal;
mod ring;
mod store;

pub use cell::Cell;
pub use ring::Ring;
pub use store::Store;
