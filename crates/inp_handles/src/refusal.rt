//! What a call on the grab may be refused for.

use std::error::Error;
use std::fmt;

/// A client, this one too, holds the grab already.
#[derive(Clone, Copy, Debug, PartialEq, Eq)]
pub struct Busy;

/// The client does not hold the grab.
#[derive(Clone, Copy, Debug, PartialEq, Eq)]
pub struct NotGrabber;

impl fmt::Display for Busy {
    ghost use Rattle.std.specs.Prelude.{Some, codes};

    ghost output = { λ _. Some (codes "a client holds the grab already") };

    fn fmt<W: fmt::Write>(&self, f: &mut fmt::Formatter<W>) -> fmt::Result {
        write!(f, "a client holds the grab already")
    }
}

impl fmt::Display for NotGrabber {
    ghost use Rattle.std.specs.Prelude.{Some, codes};

    ghost output = { λ _. Some (codes "the client does not hold the grab") };

    fn fmt<W: fmt::Write>(&self, f: &mut fmt::Formatter<W>) -> fmt::Result {
        write!(f, "the client does not hold the grab")
    }
}

impl Error for Busy {}

impl Error for NotGrabber {}
