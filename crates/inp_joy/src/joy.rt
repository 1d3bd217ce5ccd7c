//! The joystick client.
ghost use Rattle.std.specs.Prelude.{◌≡◌, ◌≤◌, true, [], length, IfOk};
ghost use Rattle.inp_reader.specs.declared.phase.Phase.TheVariants.{Plain};
ghost use Rattle.inp_reader.specs.declared.reader.TheConstants.{NO_CLIENT};
ghost use Rattle.inp_reader.specs.Effort.{effort};
ghost use Rattle.inp_reader.specs.LeftEvdev.{LeavesMade};
ghost use Rattle.inp_reader.specs.FollowsTalk.{FollowsTalk};
ghost use Rattle.inp_reader.specs.ReaderPlace.{IsAlone, has_opened};
ghost use Rattle.inp_recon.specs.View.{first_view};
ghost use Rattle.inp_joy.specs.Codes.{startup_len};
ghost use Rattle.inp_joy.specs.Joy.{joy_start};
ghost use Rattle.inp_joy.specs.Picture.{blank_picture, seen_as};
ghost use Rattle.inp_joy.specs.Reads.{IsJoyRead, IsPictured, IsReadLess, JoyStands, ReadPictures, agains_after_read};

use crate::code_list::CodeList;
use crate::joy_state::JoyState;
use crate::{JoyRead, Picture};
use inp_caps::Caps;
use inp_model::{Evdev, NoMemory};
use inp_reader::{CallMade, CallsMade, Reader, Started};
use std::alloc::Global;
use std::marker::Model;

/// A client of a device that reads it as a joystick, as the kernel's `/dev/input/js0` is read.
///
/// It numbers the buttons and axes of the device. Buttons are the supported keys from `BTN_JOYSTICK` on, ascending, and
/// then those from `BTN_MISC` to before it, the first 64 of them. Axes are the supported ones outside 0x2f to 0x3d,
/// ascending. It hands out records of eight bytes ([`JoyRecord`](crate::JoyRecord)): first how each button and axis
/// stands, a startup, and then what happens to them. Where events were lost it synchronises, and begins with a startup
/// again.
///
/// Each call is lent the device, which must be of the description that the client was made for. A contract sees a
/// joystick client as its description, what it keeps (`JoystickState` of `specs/Joy.antt`), and the calls that it made
/// last.
#[derive(Drop)]
pub struct Joy {
    state: JoyState,
}

impl Model for Joy {
    ghost use Rattle.inp_joy.specs.Joy.{JoyView};

    ghost Value = { JoyView };

    ghost use Rattle.inp_joy.specs.JoyState.{joy_view, IsJoy};

    ghost view = { joy_view };

    ghost invariant = { IsJoy };
}

impl Joy {
    /// A joystick client for devices of this description. It has no client yet: its client is `NO_CLIENT`, no record of
    /// a startup is left, and its picture is blank.
    ///
    /// It takes all memory that it will need. `NoMemory` comes where memory is short.
    pub fn new(alloc: Global, caps: &Caps) -> Result<Joy, NoMemory>
        ensures description { IfOk result (λ joy. joy.description ≡ caps.now) }
        ensures joying { IfOk result (λ joy. joy.joying ≡ record {
          reading = record {
            client = NO_CLIENT;
            queue = [];
            view = first_view caps.now;
            phase = Plain;
            left = [];
          };
          handed = startup_len caps.now;
          picture = blank_picture;
        }) }
        ensures made { IfOk result (λ joy. joy.made ≡ []) }
    {
        let buttons = CodeList::buttons(alloc, caps)?;
        let axes = CodeList::axes(alloc, caps)?;
        let handed = buttons.len() + axes.len();
        let state = JoyState {
            buttons,
            axes,
            reader: Reader::new(alloc, caps)?,
            handed,
            picture: Picture::blank(),
            made: CallsMade::new(alloc)?,
        };
        Ok(Joy { state })
    }

    /// Opens a client and asks for the whole state, as [`Reader::start`](inp_reader::Reader::start) does, and answers
    /// as it does. After `Opened` a startup begins: the next records tell how each button and axis stands. After a
    /// start that was refused in a query no record of a startup is left, and the next [`read`](Joy::read) synchronises
    /// first. The picture stays. After one whose open was refused all is as before.
    ///
    /// Only the open may meet want of memory. What the calls leave, and where the client then stands, is as after the
    /// reader's start.
    pub fn start<E: Evdev>(&mut self, dev: &mut E) -> Started
        requires description { (E.told dev.old).description ≡ self.old.description }
        ensures says { FollowsTalk (E.told dev.old) (E.told dev.new) [] self.new.made
            (joy_start self.old.description self.old.joying) (result, self.new.joying) }
        ensures joy { self.new.description ≡ self.old.description }
        ensures left { LeavesMade (E.told dev.old) (E.told dev.new) self.new.made }
        ensures agains { (E.told dev.new).agains ≡ (E.told dev.old).agains }
        ensures few { length self.new.made ≤ 64 }
        ensures opened { has_opened result ≡ true
            → IsAlone (E.told dev.old) (E.told dev.new) self.new.joying.reading.client self.new.made
            → JoyStands (E.told dev.new) self.new }
        ensures stands { JoyStands (E.told dev.old) self.old
            → IsAlone (E.told dev.old) (E.told dev.new) self.new.joying.reading.client self.new.made
            → JoyStands (E.told dev.new) self.new }
    {
        self.state.start(dev)
    }

    /// The next record or answer (a `read` of the kernel's `/dev/input/js0`, of one `struct js_event`).
    ///
    /// Where a record of the startup is left it is handed out. Else events are taken until one gives an answer.
    ///
    /// | Answer | What it means |
    /// |---|---|
    /// | `Record` | a record was handed out, and `out` has its bytes: of the startup, of a button that was pressed or released, or of an axis whose cut value is not the one that was handed out last |
    /// | `Frame` | a frame ended (SYN_REPORT), with the place of the step that ended it |
    /// | `Again` | nothing is visible to the client |
    /// | `NoDevice` | the client was revoked |
    /// | `Closed` | the client is not open |
    /// | `Full` | the history is as long as it may be |
    /// | `More` | at least 64 steps of this read were accepted, no record of a startup is left, and a turn gave none of the others |
    ///
    /// An autorepeat gives no record. Where events were lost (SYN_DROPPED) the reader synchronises, without handing out
    /// what it synthesised, and a startup begins; this belongs to the same turn. Where the synchronisation is answered
    /// `NoDevice`, `Closed` or `Full`, so is the read, and the next one tries it again. But for `Record`, `out` stays.
    ///
    /// It takes no memory. The calls are a legal run of the history that is seen afterwards. What was seen before and
    /// the device stay, and the own places of the device's caller grow by theirs. Its count of answers Again rises by
    /// one at `Again` alone. A client that stood at the end of what was seen before stands at the end of what is seen
    /// afterwards, if nobody else used it in between. Where it answers `Frame`, its picture is then the device's at the
    /// end of that frame, if the client could follow the device up to there.
    ///
    /// A loop over `read` is finite where it stops after so many records, and at any answer but `Record`, `Frame` and
    /// `More`. For a read that answers `Frame` or `More` leaves the reader less to do than before (a number, its
    /// effort).
    pub fn read<E: Evdev>(&mut self, dev: &mut E, out: &mut [u8; 8]) -> JoyRead
        requires description { (E.told dev.old).description ≡ self.old.description }
        ensures says { IsJoyRead (E.told dev.old) (E.told dev.new)
            self.old.description self.old.joying self.new.joying self.new.made
            result out.old out.new }
        ensures joy { self.new.description ≡ self.old.description }
        ensures left { LeavesMade (E.told dev.old) (E.told dev.new) self.new.made }
        ensures agains { (E.told dev.new).agains ≡ agains_after_read result (E.told dev.old).agains }
        ensures less { IsReadLess result
            (effort (E.told dev.new) self.new.joying.reading)
            (effort (E.told dev.old) self.old.joying.reading) }
        ensures few { length self.new.made ≤ 128 }
        ensures stands { JoyStands (E.told dev.old) self.old
            → IsAlone (E.told dev.old) (E.told dev.new) self.new.joying.reading.client self.new.made
            → JoyStands (E.told dev.new) self.new }
        ensures pictures { JoyStands (E.told dev.old) self.old
            → IsAlone (E.told dev.old) (E.told dev.new) self.new.joying.reading.client self.new.made
            → ReadPictures (E.told dev.new) self.new.description self.new.joying result }
    {
        self.state.read(dev, out)
    }

    /// How the buttons and axes stand, as the records since the last startup began tell. What is left of a startup
    /// leads the picture to the buttons and cut axes of what the client has seen, and after the startup it shows them.
    pub fn picture(&self) -> &Picture
        ensures picture { seen_as result.now ≡ self.now.joying.picture }
        ensures pictured { IsPictured self.now.description self.now.joying }
    {
        &self.state.picture
    }

    /// The client that is read as, or `NO_CLIENT` where no start opened one.
    pub fn client(&self) -> u32
        ensures client { result ≡ self.now.joying.reading.client }
    {
        self.state.reader.client()
    }

    /// The calls of the last `start` or `read`, in order, those answered Again left out. They are at most 128.
    pub fn made(&self) -> &[CallMade]
        ensures made { result.now ≡ self.now.made }
        ensures few { length result.now ≤ 128 }
    {
        self.state.made.as_slice()
    }
}
