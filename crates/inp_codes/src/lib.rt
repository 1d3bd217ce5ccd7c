//! The names of event types and of their codes, as `EV_KEY` and `KEY_A`.
//!
//! The kernel's header `input-event-codes.h` numbers the types of input events and, for each type, its codes. This
//! crate has 9 types and 272 codes of that header, one name for each, and looks them up both ways:
//!
//! | Call | Gives |
//! |---|---|
//! | `kind_name(1)` | `Some("EV_KEY")` |
//! | `kind_of("EV_KEY")` | `Some(1)` |
//! | `name_of(1, 88)` | `Some("KEY_F12")` |
//! | `code_of("KEY_F12")` | `Some((1, 88))` |
//!
//! The table is stated once, in `specs/KindNames.antt` and `specs/CodeNames.antt`. Codes in a row are one entry of it.
//! Each look-up is proved to answer as that table does: the entry's name or numbers where there is an entry, and `None`
//! everywhere else. The laws `kinds_are_one_to_one` and `codes_are_one_to_one` say that the look-ups are inverse, so
//! that a name that was written is read back. They also say that each name is a word of upper-case letters, digits and
//! underscores.
//!
//! A look-up by number reads one place of an array. One by a name compares it with the row at its slot, and walks over
//! the rows where that row has another name. No name of the table needs such a walk. No call needs memory or can fail
//! otherwise than by `None`. The crate depends on `std` alone.
#![tactic(auto)]

mod by_name;
mod by_number;
mod codes;
mod kinds;
pub mod laws;

pub use codes::{code_named, code_of, name_of};
pub use kinds::{kind_name, kind_named, kind_of};
