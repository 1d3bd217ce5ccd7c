//! A kept value that several threads use in turns.
//!
//! This crate is for whoever lets threads make steps on one value that keeps what was done to it. [`Kept`] says what
//! such a value is: it has a base, which stays, and a list of entries, which grows. [`Shared`] holds the value. A
//! thread uses it by a [`Pass`]: [`Shared::take`] waits for the turn and hands out the value ([`Held`]),
//! [`Shared::give`] takes it back with what was added. [`Shared::split`] makes a pass for another thread,
//! [`Shared::join`] makes one pass of two, and [`Shared::close`] gives the value back once all passes were joined into
//! one.
//!
//! It depends on the toolchain's `atomic_table`: one word says whether the turn is taken, and one slot holds the value
//! while it is not. A try for the turn is one compare-exchange. After a try that finds the turn taken the thread rests,
//! longer each time up to a bound, and tries again. Nothing but [`Shared::new`] takes memory.
//!
//! Its contract: a pass is seen as a [`PassView`] (`view_of` in `specs/Pass.antt`). Each call says exactly what it
//! leaves of it, by the definition of `specs/PassView.antt` that is named after the call (`view_after_take`,
//! `view_after_join`).
//!
//! - What a pass has seen only grows. The entries of a value that is taken begin with it, and of two passes that are
//!   joined one has seen a beginning of what the other has.
//! - The places of the entries that a pass added are its own. No place is own to two passes, and once `close` has its
//!   pass each place that was added since `new` is that pass's own, once, and no other place is. The value that `close`
//!   gives back has the base and the entries that the pass has seen.
//! - The shares of all passes add up to 65,536, and each pass has one unit at least. So a pass with all of them is the
//!   last. A pass that is dropped takes its units with it, and the value then ends with its `Shared`.
//! - A pass's turns rise by one with each `take`.
//!
//! The rule that the table keeps is `IsTurn` in `specs/Turn.antt`, and what each step tells is in `specs/Steps.antt`.
//! That each step keeps the rule is shown in `proofs/KeptRule.antt`. Nothing says that a `take` returns, or who is
//! served first.
#![tactic(auto)]

mod held;
mod kept;
mod no_memory;
mod pass;
mod pass_view;
mod plays;
mod rule;
mod seat_view;
mod shared;

pub use held::Held;
pub use kept::Kept;
pub use no_memory::NoMemory;
pub use pass::Pass;
pub use pass_view::PassView;
pub use seat_view::SeatView;
pub use shared::Shared;
