//! A filter, as C has it.
ghost use Rattle.std.specs.Prelude.{◌≡◌, true, IfSome};
ghost use Rattle.inp_record.specs.Words.{are_micros};
ghost use Rattle.inp_c.specs.DescriptionOfC.{filter_of_c};

use inp_model::{BOUNCE_MAX, Filter};
use std::mem::size_of;

/// A filter: its number, and what it takes.
#[repr(C)]
#[derive(Clone, Copy)]
pub struct CFilter {
    /// Which filter it is.
    pub filter: u32,
    /// How long after a release, in microseconds.
    pub micros: u32,
    /// The type of what is eaten.
    pub kind: u16,
    /// What is eaten, the first key of a chord, or the key that bounces.
    pub code: u16,
    /// The second key of a chord.
    pub second: u16,
    /// Not read.
    pub padding: u16,
}

const _: () = prove!(size_of::<CFilter>() == 16);

/// The filter that C gave, unless a number is not one that a filter has.
pub(crate) fn filter_of(c: &CFilter) -> Option<Filter>
    ensures filter { result ≡ filter_of_c c.now }
    ensures micros { IfSome result (λ f. are_micros f ≡ true) }
{
    let code = c.code;
    match c.filter {
        0 => Some(Filter::Eat { kind: c.kind, code }),
        1 => Some(Filter::Norepeat),
        2 => Some(Filter::Chord {
            first: code,
            second: c.second,
        }),
        3 if c.micros >= 1 && c.micros <= BOUNCE_MAX => Some(Filter::Bounce {
            code,
            micros: c.micros,
        }),
        _ => None,
    }
}
