//! The tests of playing: of `inp_reader`, `inp_joy` and `inp_script`, of what no record of `tests/records` can show. Whole
//! plays are shown there.
//!
//! A crate with tests is proved twice, once without and once with them. So the crates under test have no tests of their
//! own. Their tests stand here, over public calls alone, in one file for each crate, and in `waiting` that of a client
//! of `inp_script` on a device. `common` has the keyboard and the actors of their records.
#![tactic(auto)]

#[cfg(test)]
mod common;
#[cfg(test)]
mod joystick;
#[cfg(test)]
mod reader;
#[cfg(test)]
mod script;
#[cfg(test)]
mod waiting;
