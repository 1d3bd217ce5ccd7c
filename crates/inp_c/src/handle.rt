//! A handle.
ghost use Rattle.std.specs.Prelude.{◌≡◌, ℕ, Option, Some};
ghost use Rattle.inp_c.specs.Kind.{kept_kind};

use crate::kept::Kept;
use crate::loose::Loose;
use crate::parts::Parts;
use std::alloc::Global;
use std::mem;

/// What C has of what is kept: it begins as zeros, and is given back by `inputplay_free`.
#[repr(C)]
#[derive(Drop)]
pub struct Handle {
    kind: u32,
    inner: Loose,
    ghost agree: { kind ≡ kept_kind inner.value },
}

impl Handle {
    ghost use Rattle.std.specs.Prelude.{IsTrue, IsSome, None, false};
    ghost use Rattle.inp_c.specs.Contents.{contents};

    /// One that keeps nothing.
    pub(crate) fn none() -> Handle
        ensures { contents result ≡ None }
    {
        Handle {
            kind: 0,
            inner: Loose::none(),
        }
    }

    /// One that keeps this. C may hand it to another thread, since what it keeps may go there.
    pub(crate) fn of(kept: Box<Kept>) -> Handle
        ensures { contents result ≡ Some kept.value }
    {
        let kind = kept_kind(&kept);
        of_any_thread(Handle {
            kind,
            inner: Loose::of(Parts::of(kept)),
        })
    }

    /// Whether it keeps nothing.
    pub(crate) fn is_none(&self) -> bool
        ensures none { IsTrue result → contents self.now ≡ None }
        ensures some { result ≡ false → IsSome (contents self.now) }
    {
        self.kind == 0
    }

    /// Takes what it keeps, and leaves it with nothing.
    pub(crate) fn take(&mut self, alloc: Global) -> Box<Kept>
        requires { IsSome (contents self.old) }
        ensures kept { contents self.old ≡ Some result.value }
        ensures none { contents self.new ≡ None }
    {
        mem::replace(self, Handle::none())
            .inner
            .into_parts(alloc)
            .into_box()
    }
}

/// What may go from thread to thread, as it is.
#[inline(always)]
fn of_any_thread<T: Send>(value: T) -> T
    ensures { result ≡ value }
{
    value
}

/// The number of what is kept.
fn kept_kind(kept: &Kept) -> u32
    ensures { result ≡ kept_kind (Some kept.now) }
{
    match kept {
        Kept::Device(_) => 1,
        Kept::Record(_) => 2,
    }
}
