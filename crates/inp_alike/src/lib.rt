//! What a later step can tell of a past.
#![tactic(auto)]

pub mod laws;
