//! Descriptions of input devices: which types and codes a device supports, its axes, its filters, and its numbers.
//!
//! This crate is for whoever makes a device or keeps its state. [`CapsBuilder`] gathers a description call by call and
//! refuses what no device has; [`Caps`] is the description, plain data that never changes. [`defuzz`] says how far an
//! axis moves, and [`Disposition`] what is done with an event. The crate depends on `inp_model`, on `inp_bits` for the
//! lists of codes, and on `bitflags`.
//!
//! Its contract: a [`Caps`] is seen as a `Description` of `inp_model`, which keeps the ranges of `IsDescription`. Each
//! call of the builder is refused exactly where its documentation says, and changes nothing then. Each accepted call
//! changes exactly what it names (`specs/Builder.antt`). Nothing here takes memory.
#![tactic(auto)]

mod caps;
mod caps_builder;
mod caps_refused;
mod disposition;
mod fuzz;
mod ranges;

pub use caps::Caps;
pub use caps_builder::CapsBuilder;
pub use caps_refused::CapsRefused;
pub use disposition::Disposition;
pub use fuzz::defuzz;
