//! The tests of the device: of `inp_device`, of `inp_uinput`, and of `inp_turn` and `inp_port`, by which threads share
//! one. They show what neither a contract nor a record of `tests/records` can: threads, how many events are kept, and calls
//! that the program does not make.
//!
//! A crate with tests is proved twice, once without and once with them. So the crates under test have no tests of their
//! own. Their tests stand here, over public calls alone, in one file for each crate. `common` has the description
//! of most.
#![tactic(auto)]

#[cfg(test)]
mod common;
#[cfg(test)]
mod device;
#[cfg(test)]
mod port;
#[cfg(test)]
mod turn;
#[cfg(test)]
mod uinput;
