//! Which codes of a device a joystick client numbers.
ghost use Rattle.std.specs.Prelude.{◌≡◌, ◌≤◌, ◌<◌, ◌-◌, ◌+◌, [], ◌∷◌, ◌++◌, nat_eq, length, take, slice_get, IfOk, IfSome, Some};
ghost use Rattle.std.specs.List.{position};
ghost use Rattle.inp_joy.specs.Codes.{buttons, axes, codes_among, number_among};

use inp_caps::Caps;
use inp_model::{ABS_MAX, ABS_MT_SLOT, ABS_MT_TOOL_Y, EV_ABS, EV_KEY, KEY_MAX, NoMemory};
use std::alloc::Global;
use std::marker::Model;

/// The first key of the buttons that stand before those of joysticks (the kernel's input event codes).
pub const BTN_MISC: u16 = 0x100;

const _: () = prove!(BTN_MISC == 256);

/// The first key of the buttons of joysticks (the kernel's input event codes).
pub const BTN_JOYSTICK: u16 = 0x120;

const _: () = prove!(BTN_JOYSTICK == 288);

/// How many codes there are at most (this project's choice).
const CODES_MAX: usize = 64;

const _: () = prove!(CODES_MAX == 64);

/// At most 64 codes, in the order of their numbers. A contract sees the list.
#[derive(Drop)]
pub(crate) struct CodeList {
    codes: Vec<u16>,
}

impl Model for CodeList {
    ghost use Rattle.std.specs.Prelude.{List, ℕ, ◌≤◌, length, vec_capacity};

    ghost Value = { List ℕ };

    ghost view = { λ list. list.codes.items };

    ghost invariant = { λ list. (64 ≤ vec_capacity list.codes) × (length list.codes.items ≤ 64) };
}

impl CodeList {
    // No code, with room for 64. It is refused for memory alone.
    fn new(alloc: Global) -> Result<CodeList, NoMemory>
        ensures { IfOk result (λ list. list ≡ []) }
    {
        let codes = Vec::with_capacity(alloc, CODES_MAX)?;
        Ok(CodeList { codes })
    }

    // The buttons of a device. They are refused for memory alone.
    pub(crate) fn buttons(alloc: Global, caps: &Caps) -> Result<CodeList, NoMemory>
        ensures { IfOk result (λ list. list ≡ buttons caps.now) }
    {
        let mut list = CodeList::new(alloc)?;
        list.add_supported(caps, EV_KEY, BTN_JOYSTICK, KEY_MAX + 1);
        list.add_supported(caps, EV_KEY, BTN_MISC, BTN_JOYSTICK);
        Ok(list)
    }

    // The axes of a device. They are refused for memory alone.
    pub(crate) fn axes(alloc: Global, caps: &Caps) -> Result<CodeList, NoMemory>
        ensures { IfOk result (λ list. list ≡ axes caps.now) }
    {
        let mut list = CodeList::new(alloc)?;
        list.add_supported(caps, EV_ABS, 0, ABS_MT_SLOT);
        list.add_supported(caps, EV_ABS, ABS_MT_TOOL_Y + 1, ABS_MAX + 1);
        Ok(list)
    }

    // Adds the supported codes from `first` to before `end`, as many as there is room for.
    fn add_supported(&mut self, caps: &Caps, kind: u16, first: u16, end: u16)
        requires order { first ≤ end }
        requires few { length self.old ≤ 64 }
        ensures added { self.new
            ≡ take 64 (self.old ++ codes_among caps.now kind first (end - first)) }
        ensures few { length self.new ≤ 64 }
    {
        for code in first..end {
            if caps.supports(kind, code) {
                self.add(code);
            }
        }
    }

    // Adds a code, if there is room for it.
    fn add(&mut self, code: u16)
        ensures added { self.new ≡ take 64 (self.old ++ code ∷ []) }
        ensures few { length self.new ≤ 64 }
    {
        if self.len() < CODES_MAX {
            self.push(code);
        }
    }

    // Adds a code that there is room for.
    fn push(&mut self, code: u16)
        requires { length self.old < 64 }
        ensures { self.new ≡ self.old ++ code ∷ [] }
    {
        self.codes.push(code).unwrap();
    }

    // How many codes there are.
    pub(crate) fn len(&self) -> usize
        ensures len { result ≡ length self.now }
        ensures few { result ≤ 64 }
    {
        self.codes.len()
    }

    // The code of a number.
    pub(crate) fn get(&self, number: usize) -> u16
        requires { number < length self.now }
        ensures code { slice_get self.now number ≡ Some result }
        ensures few { number < 64 }
    {
        self.codes[number]
    }

    // The number of a code.
    pub(crate) fn number_among(&self, code: u16) -> Option<usize>
        ensures number { result ≡ number_among code self.now }
        ensures few { IfSome result (λ number. number < 64) }
    {
        self.codes.iter().position(|c| *c == code)
    }
}
