//! The buffer to which the values of slots are written.
ghost use Rattle.std.specs.Prelude.{◌≡◌, ◌≤◌, ◌*◌, [], length, IfOk};
ghost use Rattle.inp_model.specs.declared.limits.TheConstants.{SLOTS_MAX};
ghost use Rattle.inp_model.specs.declared.stamped.TheConstants.{MOMENT_MAX};
ghost use Rattle.inp_model.specs.Step.{moment_of};
ghost use Rattle.inp_model.specs.Reply.{HasRoom};
ghost use Rattle.inp_reader.specs.ReaderCalls.{MakesCall};

use inp_model::{Evdev, NoMemory, Reply, SLOT_VALUES, Step, Taken};
use std::alloc::Global;
use std::marker::Model;

/// The buffer to which a query of all slots is answered, `SLOT_VALUES` a slot. A contract sees the list of its values.
#[derive(Drop)]
pub(crate) struct CellBuffer {
    cells: Vec<i32>,
}

impl Model for CellBuffer {
    ghost use Rattle.std.specs.Prelude.{List, ℤ};

    ghost Value = { List ℤ };

    ghost view = { λ buffer. buffer.cells.items };
}

impl CellBuffer {
    // A buffer for so many slots. It is refused for memory alone.
    pub(crate) fn new(alloc: Global, slots: u32) -> Result<CellBuffer, NoMemory>
        requires { slots ≤ SLOTS_MAX }
        ensures { IfOk result (λ buffer. length buffer ≡ SLOT_VALUES * slots) }
    {
        let cells = vec![in alloc; 0i32; (SLOT_VALUES * slots) as usize]?;
        Ok(CellBuffer { cells })
    }

    // The values.
    pub(crate) fn as_slice(&self) -> &[i32]
        ensures { result.now ≡ self.now }
    {
        &self.cells
    }

    // Makes a step that takes no events.
    pub(crate) fn call<E: Evdev>(&mut self, dev: &mut E, step: Step) -> Reply
        requires moment { moment_of step ≤ MOMENT_MAX }
        requires room { HasRoom (E.told dev.old).description step [] self.old }
        ensures calls { MakesCall (E.told dev.old) (E.told dev.new) step result self.old self.new }
        ensures len { length self.new ≡ length self.old }
    {
        let mut nothing: [Taken; 0] = [];
        dev.call(step, &mut nothing, &mut self.cells)
    }
}
