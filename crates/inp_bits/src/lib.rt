//! Fixed lists of truth values, in the place of the kernel's bitmaps: which keys, switches and LEDs of an input device
//! are on.
//!
//! [`Bits`] keeps 64·W values in W words of 64 bits, as the kernel's bitmaps do on a 64-bit machine. Value i is bit i %
//! 64 of word i / 64. It is `Copy`, takes no memory and stores 8·W bytes. [`Ones`] goes over the indices at which a
//! list is true.
//!
//! A contract sees a [`Bits`] as its list of 64·W truth values, and an [`Ones`] as the ascending list of the indices
//! that are left. Each contract gives the exact result, for every W up to 1,024, and no call fails. The definitions
//! that the contracts cite are in `specs/Bits.antt`, and lemmas on them for callers in `proofs/Indices.antt`.
//!
//! The crate depends on `std` alone.
#![tactic(auto)]

mod bits;
mod ones;
mod words;

pub use bits::Bits;
pub use ones::Ones;
