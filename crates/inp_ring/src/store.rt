//! The store that all clients of a device share.
ghost use Rattle.std.specs.Prelude.{◌≡◌, ◌≤◌, ◌<◌, ◌+◌, if◌then◌else◌, nat_eq, nat_lt, [], Some, None, OnOk, OnErr};
ghost use Rattle.inp_ring.specs.Store.{held_under, cell_in, holders, cell_count, held_more, held_less, held_by, HasCell, IsIdle, IsPut};

use crate::cell::{Cell, Held};
use inp_model::NoMemory;
use slab::Slab;
use std::alloc::Global;
use std::marker::Model;

/// The cells of a device: each event that some client's ring holds, once, under a number, with the number of rings that
/// hold it.
///
/// A cell goes with its last holder, and its number may then be given out again. Only [`grow`](Store::grow) takes
/// memory: it says how many cells there may be, and each further call takes the time of one look-up.
#[derive(Drop)]
pub struct Store {
    slab: Slab<Held>,
}

impl Model for Store {
    ghost use Rattle.inp_ring.specs.Store.{StoreView, store_in, IsNumbered};

    ghost Value = { StoreView };

    ghost view = { λ store. store_in store.slab };

    ghost invariant = { λ store. IsNumbered store.slab };
}

impl Store {
    /// A store without cells. It takes no memory.
    pub fn new(alloc: Global) -> Store
        ensures empty { result.slots ≡ [] }
        ensures spare { result.spare ≡ 0 }
    {
        Store {
            slab: Slab::new(alloc),
        }
    }

    /// Makes room for so many cells, those that are there included. It is refused for memory alone, and no cell
    /// changes.
    pub fn grow(&mut self, cells: u32) -> Result<(), NoMemory>
        ensures room { OnOk result (cells ≤ cell_count self.new + self.new.spare) }
        ensures cells { self.new.slots ≡ self.old.slots }
        ensures spare { self.old.spare ≤ self.new.spare }
    {
        let cells = cells as usize;
        if cells <= self.slab.capacity() {
            return Ok(());
        }
        let mut slab = self.slab.clone()?;
        slab.reserve_exact(cells - slab.len())?;
        if slab.capacity() > CELLS_MAX {
            return Err(NoMemory);
        }
        self.slab = slab;
        Ok(())
    }

    /// How many cells there are.
    pub fn count(&self) -> u32
        ensures count { result ≡ cell_count self.now }
    {
        self.slab.len() as u32
    }

    /// Adds a cell that nobody holds, and gives its number, which no cell had. There must be room to spare.
    pub fn add(&mut self, cell: Cell) -> u32
        requires room { 0 < self.old.spare }
        ensures new { held_under self.old result ≡ None }
        ensures added { IsPut self.old self.new result (held_by 0 cell) }
        ensures spare { self.new.spare + 1 ≡ self.old.spare }
        ensures count { cell_count self.new ≡ cell_count self.old + 1 }
    {
        self.slab.insert_reserved(Held { cell, holders: 0 }) as u32
    }

    /// Adds a cell with one holder. It is [`add`](Store::add) and [`hold`](Store::hold) with one look-up.
    pub fn add_held(&mut self, cell: Cell) -> u32
        requires room { 0 < self.old.spare }
        ensures new { held_under self.old result ≡ None }
        ensures added { IsPut self.old self.new result (held_by 1 cell) }
        ensures spare { self.new.spare + 1 ≡ self.old.spare }
        ensures count { cell_count self.new ≡ cell_count self.old + 1 }
    {
        self.slab.insert_reserved(Held { cell, holders: 1 }) as u32
    }

    /// Adds a cell that so many rings hold, as [`add`](Store::add) does one that nobody holds.
    pub fn add_held_by(&mut self, cell: Cell, holders: u32) -> u32
        requires room { 0 < self.old.spare }
        ensures new { held_under self.old result ≡ None }
        ensures added { IsPut self.old self.new result (held_by holders cell) }
        ensures spare { self.new.spare + 1 ≡ self.old.spare }
        ensures count { cell_count self.new ≡ cell_count self.old + 1 }
    {
        self.slab.insert_reserved(Held { cell, holders }) as u32
    }

    /// How many more cells fit without memory.
    pub fn spare(&self) -> u32
        ensures spare { result ≡ self.now.spare }
    {
        (self.slab.capacity() - self.slab.len()) as u32
    }

    /// The cell under a number. There must be one.
    pub fn get(&self, number: u32) -> Cell
        requires there { HasCell self.now number }
        ensures cell { cell_in self.now number ≡ Some result }
    {
        self.slab[number as usize].cell
    }

    /// Adds a holder to a cell, which must be there and have fewer than 64.
    pub fn hold(&mut self, number: u32)
        requires there { HasCell self.old number }
        requires few { holders self.old number < 64 }
        ensures held { IsPut self.old self.new number (held_more 1 (held_under self.old number)) }
        ensures spare { self.new.spare ≡ self.old.spare }
        ensures count { cell_count self.new ≡ cell_count self.old }
    {
        self.hold_many(number, 1);
    }

    /// Adds so many holders to a cell, which must be there and have at most 64 in all.
    pub fn hold_many(&mut self, number: u32, count: u32)
        requires there { HasCell self.old number }
        requires few { holders self.old number + count ≤ 64 }
        ensures held { IsPut self.old self.new number
            (held_more count (held_under self.old number)) }
        ensures spare { self.new.spare ≡ self.old.spare }
        ensures count { cell_count self.new ≡ cell_count self.old }
    {
        self.slab[number as usize].holders += count;
    }

    /// Takes one holder from a cell, which must have one. The last holder takes the cell along.
    pub fn release(&mut self, number: u32)
        requires held { 0 < holders self.old number }
        ensures released { IsPut self.old self.new number (held_less (held_under self.old number)) }
        ensures spare { self.new.spare
            ≡ (if nat_eq (holders self.old number) 1 then self.old.spare + 1 else self.old.spare) }
        ensures room { cell_count self.new + self.new.spare
            ≡ cell_count self.old + self.old.spare }
    {
        self.let_go(number);
    }

    /// Takes one holder from a cell, as [`release`](Store::release) does, and gives the cell as it was.
    pub fn let_go(&mut self, number: u32) -> Cell
        requires held { 0 < holders self.old number }
        ensures cell { cell_in self.old number ≡ Some result }
        ensures released { IsPut self.old self.new number (held_less (held_under self.old number)) }
        ensures spare { self.new.spare
            ≡ (if nat_eq (holders self.old number) 1 then self.old.spare + 1 else self.old.spare) }
        ensures room { cell_count self.new + self.new.spare
            ≡ cell_count self.old + self.old.spare }
    {
        let held = &mut self.slab[number as usize];
        let cell = held.cell;
        held.holders -= 1;
        if held.holders == 0 {
            self.slab.remove(number as usize);
        }
        cell
    }

    /// Takes out a cell that nobody holds.
    pub fn free(&mut self, number: u32)
        requires idle { IsIdle self.old number }
        ensures freed { IsPut self.old self.new number None }
        ensures spare { self.new.spare ≡ self.old.spare + 1 }
        ensures count { cell_count self.new + 1 ≡ cell_count self.old }
    {
        self.slab.remove(number as usize);
    }
}

// More cells than this do not fit: their numbers are `u32`s.
const CELLS_MAX: usize = u32::MAX as usize;
