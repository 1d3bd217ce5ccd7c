//! Lists that leave their items where they were put.
ghost use Rattle.std.specs.Prelude.{◌≡◌, ◌<◌, ◌≤◌, ◌-◌, ◌%◌, All, [], ◌∷◌, ◌++◌, length, take, drop, slice_get, nat_eq, vec_capacity, OnOk, OnErr, Some};
ghost use Rattle.inp_script.specs.Blocks.{items_in_blocks, AreBlocks};

use inp_model::NoMemory;
use std::alloc::Global;
use std::marker::Model;
use std::mem::replace;

/// How many items stand together (this project's choice).
const BLOCK: usize = 1024;

/// More blocks than this are no list.
const BLOCKS_MAX: usize = 1 << 48;

/// A list in blocks of 1,024 items, each of which is allocated once: no item is moved where the list grows. A contract
/// sees the list of the items.
#[derive(Drop)]
pub(crate) struct Blocks<T> {
    full: Vec<Vec<T>>,
    last: Vec<T>,
}

impl<T> Model for Blocks<T> {
    ghost use Rattle.std.specs.Prelude.{List, vec_capacity};
    ghost use Rattle.inp_script.specs.Blocks.{items_in_blocks, AreBlocks};

    ghost Value = { List T };

    ghost view = { λ blocks. items_in_blocks blocks.full.items blocks.last.items };

    ghost invariant = { λ blocks. AreBlocks blocks.full.items blocks.last.items
        (vec_capacity blocks.last) };
}

impl<T> Blocks<T> {
    /// The empty list. It takes no memory.
    pub(crate) fn new(alloc: Global) -> Blocks<T>
        ensures empty { result ≡ [] }
    {
        Blocks {
            full: Vec::new(alloc),
            last: Vec::new(alloc),
        }
    }

    /// Adds an item at the end. It is refused for memory alone, and the list is then as before.
    pub(crate) fn push(&mut self, item: T) -> Result<(), NoMemory>
    where
        T: Drop,
        ensures ok { OnOk result (self.new ≡ self.old ++ item ∷ []) }
        ensures err { OnErr result (self.new ≡ self.old) }
    {
        if self.last.len() == self.last.capacity() {
            return push_block(&mut self.full, &mut self.last, item);
        }
        self.last.push_reserved(item);
        Ok(())
    }

    /// How many items there are.
    pub(crate) fn len(&self) -> usize
        ensures length { result ≡ length self.now }
    {
        BLOCK * self.full.len() + self.last.len()
    }

    /// Whether there is no item.
    pub(crate) fn is_empty(&self) -> bool
        ensures empty { result ≡ nat_eq (length self.now) 0 }
    {
        self.len() == 0
    }

    /// The items from an index on that stand in one block with that one.
    pub(crate) fn run_from(&self, start: usize) -> &[T]
        requires within { start < length self.now }
        ensures some { 0 < length result.now }
        ensures run { result.now ≡ take (length result.now) (drop start self.now) }
    {
        let block = block_with(&self.full, &self.last, start);
        &block[start % BLOCK..]
    }

    /// The item at an index below the length.
    pub(crate) fn get(&self, index: usize) -> &T
        requires within { index < length self.now }
        ensures item { slice_get self.now index ≡ Some result.now }
    {
        &self.run_from(index)[0]
    }
}

// Adds an item where the last block is full, or where there is none.
#[cold]
#[inline(never)]
fn push_block<T: Drop>(full: &mut Vec<Vec<T>>, last: &mut Vec<T>, item: T) -> Result<(), NoMemory>
    requires sized { AreBlocks full.old.items last.old.items (vec_capacity last.old) }
    requires whole { length last.old.items ≡ vec_capacity last.old }
    ensures pushed { OnOk result (items_in_blocks full.new.items last.new.items
        ≡ items_in_blocks full.old.items last.old.items ++ item ∷ []) }
    ensures kept { OnErr result (items_in_blocks full.new.items last.new.items
        ≡ items_in_blocks full.old.items last.old.items) }
    ensures sized { AreBlocks full.new.items last.new.items (vec_capacity last.new) }
{
    let mut block = Vec::with_capacity(*full.allocator(), BLOCK)?;
    block.push_reserved(item);
    if last.is_empty() {
        *last = block;
        return Ok(());
    }
    if full.len() == BLOCKS_MAX {
        return Err(NoMemory);
    }
    full.reserve(1)?;
    full.push(replace(last, block)).unwrap();
    Ok(())
}

// The block in which an index stands, at the index's remainder by the size of a block.
fn block_with<'a, T>(full: &'a [Vec<T>], last: &'a [T], index: usize) -> &'a [T]
    requires full { All (λ block. length block.items ≡ 1024) full.now }
    requires last { length last.now ≤ 1024 }
    requires within { index < length (items_in_blocks full.now last.now) }
    ensures inside { index % 1024 < length result.now }
    ensures front { drop (index % 1024) result.now ≡ take (length result.now - index % 1024)
        (drop index (items_in_blocks full.now last.now)) }
{
    match full.get(index / BLOCK) {
        Some(block) => block,
        None => last,
    }
}
