//! What may be shared.
ghost use Rattle.std.specs.Prelude.{List};

/// A value that contracts see as a base, which stays, and a list of entries, which grows.
pub trait Kept {
    /// What the value is made for: plain data.
    type Base;

    /// What is entered in it.
    type Entry;

    /// What the value is made for.
    ghost base: { Self → Self.Base };

    /// What was entered, oldest first.
    ghost entries: { Self → List Self.Entry };
}
