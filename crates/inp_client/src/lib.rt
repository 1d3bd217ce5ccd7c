//! The open clients of a device: their rings, masks and clocks, and the events that they share.
//!
//! This crate is for whoever makes a device. [`Clients`] keeps up to 64 open clients. Each has a ring (`inp_ring`), the
//! masks that say which events it admits, the clock by which it reads its events, and whether it was revoked. It offers
//! a frame to each client, or to the holder of the grab alone, and hands each client what its ring has. Each event of a
//! frame that some queue holds is kept once, in a store that all clients share. It depends on `inp_model`, `inp_bits`,
//! `inp_caps` and `inp_ring`, and on the toolchain's `slab`, in which the clients lie.
//!
//! Its contract: a [`Clients`] is seen as the list of its open clients, ascending by number, and the numbers of the
//! cells that each ring holds. Each client is a `ClientView` of `specs/Client.antt` with a queue of cells. Each call
//! changes the named client alone, by the definition there that is named after the call (`after_flush`, `after_mask`),
//! and gives the exact result. What clients read of their cells is said in `specs/Read.antt`, and `proofs/OnClock.antt`
//! has a lemma for each call.
//!
//! What a client has is told exactly too: how much it may read, its clock, whether it was revoked, the words of its
//! masks, and which clients could read something ([`Clients::readable`]). These calls change nothing.
//!
//! That each event is kept once is said of the numbers (`specs/Numbers.antt`). [`Clients::stored`] is how many
//! different ones there are. By [`Clients::offer`] each event of a frame has one number, whoever takes it, which no
//! ring has when the event comes (`IsStoredOnce`). It stands behind the old numbers of each client that takes it. A
//! client that loses its queue has a SYN_DROPPED in the place of the old ones, whose number no other ring has. So the
//! different numbers grow by one at most for each event, and for each client that loses its queue. An open, a mask and
//! a revocation leave all numbers as they are. Reading, a flush and a close take numbers away and bring none. A change
//! of clock brings one where a queue is lost. Each of them leaves the other rings as they are.
//!
//! [`Clients::open`] asks of its number only that no open client has it, and puts the client in its place by number. It
//! answers `TooMany` exactly where 64 are open. [`Clients::offer`] puts into each queue what its masks admit, under the
//! grab of one client or of none, and [`Clients::take`] tells events on the client's clock.
//!
//! Only [`Clients::new`] and [`Clients::open`] take memory. Before it makes a ring of S places, an open has the store
//! grow by S + 1 cells. A ring holds at most S - 1 numbers, and while a frame is offered event by event there is at
//! most one cell more that no ring has. So there is always room for one cell (`proofs/OtherClients.antt`,
//! `spare_some`). A frame goes in one run, with a cell for each event first, only where the store has as many to spare
//! (`proofs/Runs.antt`). Lemmas for callers are in `proofs/ClientLists.antt`, `proofs/OnClock.antt` and
//! `proofs/MaskBits.antt`.
#![tactic(auto)]

mod client;
mod clients;
mod frame;
mod location;
mod masks;
mod open_refused;
mod readable;

pub use clients::Clients;
pub use open_refused::OpenRefused;
