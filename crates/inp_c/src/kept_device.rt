//! A device, as a handle keeps it.
ghost use Rattle.std.specs.Prelude.{◌≡◌, ◌≤◌, true, [], ◌∷◌, IfOk};
ghost use Rattle.inp_model.specs.declared.stamped.TheConstants.{MOMENT_MAX};
ghost use Rattle.inp_model.specs.Step.{moment_of};

use inp_caps::Caps;
use inp_joy::{Joy, JoyRead};
use inp_model::{Injected, NoMemory, Reply, Stamped, Step, Taken};
use inp_reader::{Mode, Next, Reader, Started};
use inp_uinput::Owned;
use std::alloc::Global;

/// A device with its reader and its joystick client.
#[derive(Drop)]
pub struct KeptDevice {
    /// The device with its owner. The calls of the reader and of the joystick client leave what the owner has.
    pub udev: Owned,
    /// The reader, which is of the device's description.
    pub reader: Reader,
    /// The joystick client, which is of the device's description.
    pub joy: Joy,
    ghost same: { reader.description ≡ udev.description },
    ghost same_joy: { joy.description ≡ udev.description },
}

impl KeptDevice {
    ghost use Rattle.inp_model.specs.Reply.{HasRoom};
    ghost use Rattle.inp_c.specs.Steps.{IsKeptStep};
    ghost use Rattle.inp_c.specs.ReaderCalls.{IsKeptStart, IsKeptNext};
    ghost use Rattle.inp_c.specs.History.{history_of};
    ghost use Rattle.inp_c.specs.Fresh.{fresh_udev, IsFreshReader, IsFreshJoy};
    ghost use Rattle.inp_c.specs.Injection.{are_timely, IsKeptInjectAll};
    ghost use Rattle.inp_c.specs.Joystick.{IsKeptJoyStart, IsKeptJoyRead};

    /// A device of this description that keeps nothing yet, with a reader that has not started.
    pub(crate) fn new(alloc: Global, caps: &Caps) -> Result<KeptDevice, NoMemory>
        ensures udev { IfOk result (λ kept. kept.udev ≡ fresh_udev caps.now) }
        ensures reader { IfOk result (λ kept. IsFreshReader caps.now kept.reader) }
        ensures joy { IfOk result (λ kept. IsFreshJoy caps.now kept.joy) }
    {
        let reader = Reader::new(alloc, caps)?;
        let joy = Joy::new(alloc, caps)?;
        let udev = Owned::new(alloc, caps.copy())?;
        Ok(KeptDevice { udev, reader, joy })
    }

    /// The device's description.
    pub(crate) fn caps(&self) -> &Caps
        ensures description { result.now ≡ self.now.udev.description }
    {
        self.udev.udev.caps()
    }

    /// The steps that the device accepted, oldest first.
    pub(crate) fn history(&self) -> &[Step]
        ensures history { result.now ≡ history_of self.now }
    {
        self.udev.udev.history()
    }

    /// Makes a step. What it reads stands at the front of the arrays.
    pub(crate) fn step(&mut self, step: Step, events: &mut [Taken], cells: &mut [i32]) -> Reply
        requires moment { moment_of step ≤ MOMENT_MAX }
        requires room { HasRoom self.old.udev.description step events.old cells.old }
        ensures { IsKeptStep self.old self.new step result
            events.old events.new cells.old cells.new }
    {
        self.udev.udev.step(step, events, cells)
    }

    /// Injects an event. It is fewer instructions than a step `Inject`, whose reply has room for that of any step.
    pub(crate) fn inject(&mut self, stamped: Stamped) -> Injected
        requires moment { stamped.now ≤ MOMENT_MAX }
        ensures { IsKeptInjectAll self.old self.new (stamped ∷ []) result }
    {
        self.udev.udev.inject_all(&[stamped])
    }

    /// Injects events, each at its own moment.
    pub(crate) fn inject_all(&mut self, events: &[Stamped]) -> Injected
        requires timely { are_timely events.now ≡ true }
        ensures { IsKeptInjectAll self.old self.new events.now result }
    {
        self.udev.udev.inject_all(events)
    }

    /// Starts the reader.
    pub(crate) fn start(&mut self) -> Started
        ensures { IsKeptStart self.old self.new result }
    {
        self.reader.start(&mut self.udev)
    }

    /// The reader's next event.
    pub(crate) fn next(&mut self, mode: Mode) -> Next
        ensures { IsKeptNext self.old self.new mode result }
    {
        self.reader.next(&mut self.udev, mode)
    }

    /// Starts the joystick client.
    pub(crate) fn joy_start(&mut self) -> Started
        ensures { IsKeptJoyStart self.old self.new result }
    {
        self.joy.start(&mut self.udev)
    }

    /// The joystick client's next record or answer.
    pub(crate) fn joy_read(&mut self, record_out: &mut [u8; 8]) -> JoyRead
        ensures { IsKeptJoyRead self.old self.new result record_out.old record_out.new }
    {
        self.joy.read(&mut self.udev, record_out)
    }
}
