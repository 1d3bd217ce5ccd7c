//! The maker of a device, which takes requests.
ghost use Rattle.std.specs.Prelude.{◌≡◌, ◌↔◌, [], IsOk, OnOk, OnErr, IfOk, IfErr, IsNone, Some, None, Err};
ghost use Rattle.std.specs.Borrow.{sem};
ghost use Rattle.inp_model.specs.Description.{syn_alone};
ghost use Rattle.inp_actors.specs.Name.{IsName};
ghost use Rattle.inp_caps.specs.Builder.{built};
ghost use Rattle.inp_uinput.specs.declared.create_refused.CreateRefused.{CreateRefused};

use crate::{BadName, CreateRefused, Udev};
use inp_actors::{Name, is_name};
use inp_caps::CapsBuilder;
use inp_model::NoMemory;
use std::alloc::Global;
use std::fmt;

/// Makes a device by requests, as a program does that opened `/dev/uinput`: it says what the device has, sets it up
/// under a name, and creates it.
///
/// A contract sees the name that was accepted last (`maker_name` in `specs/Maker.antt`), and what the device has so far
/// (`builder_of`). Until it is created nothing can be injected, since there is no [`Udev`].
#[derive(Drop)]
pub struct Maker {
    name: Option<Name>,
    builder: CapsBuilder,
}

impl Maker {
    ghost use Rattle.inp_uinput.specs.Maker.{maker_name, builder_of, with_name, maker_of, LendsBuilder};

    /// A maker of a device with `EV_SYN` alone that was not set up.
    pub fn new() -> Maker
        ensures name { maker_name result ≡ None }
        ensures builder { builder_of result ≡ syn_alone }
    {
        Maker {
            name: None,
            builder: CapsBuilder::new(),
        }
    }

    /// Sets the device up under a name. A second name replaces the first (uinput's `UI_DEV_SETUP`).
    ///
    /// It is refused exactly where the text is no name, and the maker is then as before.
    pub fn setup(&mut self, name: &str) -> Result<(), BadName>
        ensures answer { IsOk result ↔ IsName name.now }
        ensures ok { OnOk result (self.new ≡ with_name self.old name.now) }
        ensures err { OnErr result (self.new ≡ self.old) }
    {
        if !is_name(name.as_bytes()) {
            return Err(BadName);
        }
        self.name = Some(Name::new(name.as_bytes()));
        Ok(())
    }

    /// The requests for types, codes, axes, slots and numbers (uinput's `UI_SET_EVBIT` and the like), each with the
    /// builder's own refusals.
    pub fn bits(&mut self) -> &mut CapsBuilder
        ensures* writes_back { sem 𝓛 (LendsBuilder self.entry result) }
        ensures builder { result.now ≡ builder_of self.old }
    {
        &mut self.builder
    }

    /// Makes the device, which keeps nothing yet. It takes the memory for all that the device may keep.
    ///
    /// `NotSetUp` comes exactly where no setup was accepted, and else memory alone refuses it. Either way the maker
    /// comes back as it was.
    pub fn create(self, alloc: Global) -> Result<Udev, CreateRefused>
        ensures made { IfOk result (λ udev. udev
            ≡ record { description = built (builder_of self); kept = []; agains = 0 }) }
        ensures not_set_up { (result ≡ Err (CreateRefused.NotSetUp self)) ↔ IsNone (maker_name self) }
        ensures back { IfErr result (λ refused. maker_of refused ≡ self) }
    {
        if self.name.is_none() {
            return Err(CreateRefused::NotSetUp { maker: self });
        }
        match Udev::new(alloc, self.builder.copy().build()) {
            Ok(udev) => Ok(udev),
            Err(NoMemory) => Err(CreateRefused::NoMemory { maker: self }),
        }
    }
}

impl fmt::Debug for Maker {
    fn fmt<W: fmt::Write>(&self, f: &mut fmt::Formatter<W>) -> fmt::Result {
        f.debug_struct("Maker")
            .field("builder", &self.builder)
            .finish_non_exhaustive()
    }
}
