//! The lines of a record, dealt to its actors.
ghost use Rattle.std.specs.Prelude.{◌≡◌, ◌<◌, [], length, replicate, IfOk, OnOk};
ghost use Rattle.inp_threads.specs.Lines.{AreLinesDealt, HasLineMore};

use inp_actors::Record;
use inp_model::{Items, NoMemory};
use std::alloc::Global;

/// The numbers of each actor's lines: a list for each actor, in file order.
pub(crate) type LineLists = Items<Items<u32>>;

// Deals the lines of a record: one walk over them, in file order. Each number takes 4 bytes, and growing lists may take
// as many again.
pub(crate) fn deal_lines(alloc: Global, rec: &Record) -> Result<LineLists, NoMemory>
    ensures dealt { IfOk result (AreLinesDealt rec.now) }
{
    let mut lists = no_lines(alloc, rec.actors().len())?;
    for line in 0..rec.lines().len() as u32 {
        let actor = rec.lines().get(line as usize).actor;
        push_line(&mut lists, actor as usize, line)?;
    }
    Ok(Items::of(lists))
}

// So many lists without a line.
fn no_lines(alloc: Global, count: usize) -> Result<Vec<Items<u32>>, NoMemory>
    ensures none { IfOk result (λ lists. lists.items ≡ replicate count []) }
{
    let mut lists = Vec::new(alloc);
    for _i in 0..count {
        lists.push(Items::new(alloc))?;
    }
    Ok(lists)
}

// The line of this number is the next one of the actor of this number.
fn push_line(lists: &mut Vec<Items<u32>>, actor: usize, line: u32) -> Result<(), NoMemory>
    requires actor { actor < length lists.old.items }
    ensures more { OnOk result (HasLineMore lists.old.items lists.new.items actor line) }
{
    lists[actor].push(line)?;
    Ok(())
}
