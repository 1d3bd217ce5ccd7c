//! Giving back what a handle keeps.
ghost use Rattle.std.specs.Prelude.{◌≡◌, None};
ghost use Rattle.inp_c.specs.Contents.{contents};

use crate::handle::Handle;
use std::alloc::Global;

/// Gives back what a handle keeps. A handle that keeps nothing stays so.
#[unsafe(no_mangle)]
pub extern "C" fn inputplay_free(alloc: Global, handle: &mut Handle)
    ensures { contents handle.new ≡ None }
{
    if handle.is_none() {
        return;
    }
    let _kept = handle.take(alloc);
}
