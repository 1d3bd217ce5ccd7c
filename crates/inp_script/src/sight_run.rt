//! Entries of what a job saw that follow each other.
ghost use Rattle.std.specs.Prelude.{◌≡◌, ◌<◌, length, slice_get, Some};
ghost use Rattle.inp_script.specs.SightRef.{sight_of};
ghost use Rattle.inp_script.specs.Sights.{sights_kept, AreKeptWithin};

use crate::SightRef;
use crate::kept_sight::KeptSight;
use inp_model::Items;
use inp_reader::CallMade;
use std::marker::Model;

/// Entries of what a job saw that follow each other, lent from where they are kept. Contracts see the list of them.
#[derive(Drop)]
pub struct SightRun<'a> {
    pub(crate) kept: &'a [KeptSight],
    pub(crate) calls: &'a Items<CallMade>,
}

impl<'a> Model for SightRun<'a> {
    ghost use Rattle.std.specs.Prelude.{List};
    ghost use Rattle.inp_script.specs.declared.sight.Sight.{Sight as ASight};
    ghost use Rattle.inp_script.specs.Sights.{sights_kept, AreKeptWithin};

    ghost Value = { List ASight };

    ghost view = { λ run. sights_kept run.calls.now run.kept.now };

    ghost invariant = { λ run. AreKeptWithin run.calls.now run.kept.now };
}

impl<'a> SightRun<'a> {
    /// How many entries there are.
    #[inline(always)]
    pub fn len(&self) -> usize
        ensures length { result ≡ length self.now }
    {
        self.kept.len()
    }

    /// The entry at an index below the length, as it is kept.
    #[inline(always)]
    pub fn get(&self, index: usize) -> SightRef<'a>
        requires within { index < length self.now }
        ensures item { slice_get self.now index ≡ Some (sight_of result) }
    {
        lend_at(self.kept, self.calls, index)
    }
}

// The entry that is kept at an index.
#[inline(always)]
fn lend_at<'a>(kept: &'a [KeptSight], calls: &'a Items<CallMade>, index: usize) -> SightRef<'a>
    requires within { index < length kept.now }
    requires held { AreKeptWithin calls.now kept.now }
    ensures item { slice_get (sights_kept calls.now kept.now) index ≡ Some (sight_of result) }
{
    kept[index].lend(calls)
}
