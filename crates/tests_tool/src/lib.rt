//! The tests of the program's edge and of its one call: of `inp_edge` and `inp_tool`, and of the
//! records that `inp_stream` writes.
//!
//! A crate with tests is proved twice, once without and once with them. So the crates under test have no tests of their
//! own. Their tests stand here, over public calls alone. `pieces` has the runs over inputs and sinks that give and take
//! pieces, `common` the inputs and sinks in memory. `texts` has the records with what the program writes of them.
#![tactic(auto)]

#[cfg(test)]
mod common;
#[cfg(test)]
mod edge;
#[cfg(test)]
mod pieces;
#[cfg(test)]
mod stream;
#[cfg(test)]
mod texts;
#[cfg(test)]
mod threads;
#[cfg(test)]
mod tool;
