//! The reader.
ghost use Rattle.std.specs.Prelude.{◌≡◌, ◌≤◌, ◌*◌, true, false, List, [], ◌∷◌, ◌++◌, length, None, IfOk, IfSome};
ghost use Rattle.inp_model.specs.declared.taken.Taken.{Taken};
ghost use Rattle.inp_reader.specs.declared.next.Next.TheVariants.{Success};
ghost use Rattle.inp_model.specs.declared.multi_touch.TheConstants.{SLOT_VALUES};
ghost use Rattle.inp_recon.specs.View.{first_view};
ghost use Rattle.inp_reader.specs.declared.phase.Phase.TheVariants.{Plain};
ghost use Rattle.inp_reader.specs.FollowsTalk.{FollowsTalk};
ghost use Rattle.inp_reader.specs.LeftEvdev.{LeavesMade, agains_after_next};
ghost use Rattle.inp_reader.specs.Effort.{effort, IsLess, is_idle};
ghost use Rattle.inp_reader.specs.ReaderPlace.{Stands, IsAlone, is_needed, has_opened};
ghost use Rattle.inp_reader.specs.TrueView.{AnswerShows};
ghost use Rattle.inp_model.specs.Evdev.{EvdevView};
ghost use Rattle.inp_reader.specs.Reader.{start_talk, next_talk, queued_run, after_run, with_sync_needed};
ghost use Rattle.inp_reader.specs.FailedStart.{client_opened, after_refused_query};

use crate::asker::Asker;
use crate::cell_buffer::CellBuffer;
use crate::queue::Queue;
use crate::session::Session;
use crate::synthesis::{Synthesis, synthesised_most};
use crate::{CallMade, CallsMade, Mode, Next, Phase, Started};
use inp_caps::Caps;
use inp_model::{Evdev, NoMemory, Taken};
use inp_recon::View;
use std::alloc::Global;
use std::marker::Model;

/// The client of a reader that has not started, which is never open.
pub const NO_CLIENT: u32 = u32::MAX;

const _: () = prove!(NO_CLIENT == 4_294_967_295);

/// A client of a device that reads its events and knows its state by them, as libevdev's `struct libevdev` does.
///
/// It has a view of the device, which is set by each event that is handed out. Where the device told that events were
/// lost (SYN_DROPPED) the view no longer holds, and the reader synchronises. It drops what it has read, removes what is
/// left to read, and asks for the whole state. In between it hands out events of its own, which lead from the old view
/// to the new one.
///
/// Each call is lent the device, which must be of the description that the reader was made for. A contract sees a
/// reader as its description, what it keeps ([`ReaderState`](crate)), and the calls that it made last.
#[derive(Drop)]
pub struct Reader {
    caps: Caps,
    session: Session,
}

impl Model for Reader {
    ghost use Rattle.inp_reader.specs.Reader.{ReaderView};

    ghost Value = { ReaderView };

    ghost use Rattle.inp_reader.specs.Session.{reader_view, IsReader};

    ghost view = { reader_view };

    ghost invariant = { IsReader };
}

impl Reader {
    /// A reader for devices of this description. It has no client yet: its client is `NO_CLIENT`, its phase Plain.
    ///
    /// It takes all memory that it will need: about 10 kB, 8 bytes for each key, LED, switch and axis of such a device,
    /// and 310 bytes a slot. `NoMemory` comes where memory is short.
    pub fn new(alloc: Global, caps: &Caps) -> Result<Reader, NoMemory>
        ensures description { IfOk result (λ reader. reader.description ≡ caps.now) }
        ensures reading { IfOk result (λ reader. reader.reading ≡ record {
          client = NO_CLIENT;
          queue = [];
          view = first_view caps.now;
          phase = Plain;
          left = [];
        }) }
        ensures made { IfOk result (λ reader. reader.made ≡ []) }
    {
        let asker = Asker {
            made: CallsMade::new(alloc)?,
            cells: CellBuffer::new(alloc, caps.slots())?,
            view: View::new(alloc, caps)?,
        };
        let session = Session {
            client: NO_CLIENT,
            queue: Queue::new(),
            view: View::new(alloc, caps)?,
            phase: Phase::Plain,
            left: Synthesis::new(alloc, synthesised_most(caps))?,
            asker,
        };
        Ok(Reader {
            caps: caps.copy(),
            session,
        })
    }

    /// Opens a client and asks for the whole state (libevdev's `libevdev_set_fd`). It asks for keys, LEDs and switches,
    /// each where the device has the type. Then it asks for each axis outside 0x2f to 0x3d, ascending, and for all
    /// slots, where the device has slots.
    ///
    /// | Answer | What it means | The reader then |
    /// |---|---|---|
    /// | `Opened` | all calls were accepted | has the new client; its view is what the calls answered, its queue is empty, its phase Plain |
    /// | `Refused` | a call was refused so | is as before where that call was the open; else it has the new client, the view as before, an empty queue and the phase Needed |
    ///
    /// An older client is not closed. Only the open may meet want of memory.
    ///
    /// The calls are a legal run of the history that is seen afterwards. What was seen before and the device stay, and
    /// the own places of the device's caller grow by theirs. None is answered Again. After `Opened` the reader stands
    /// at the end of that history, if nobody else used its client in between. After `Refused` it stands there if it
    /// stood at what was seen before.
    pub fn start<E: Evdev>(&mut self, dev: &mut E) -> Started
        requires description { (E.told dev.old).description ≡ self.old.description }
        ensures says { FollowsTalk (E.told dev.old) (E.told dev.new) [] self.new.made
            (start_talk self.old.description self.old.reading) (result, self.new.reading) }
        ensures reader { self.new.description ≡ self.old.description }
        ensures left { LeavesMade (E.told dev.old) (E.told dev.new) self.new.made }
        ensures agains { (E.told dev.new).agains ≡ (E.told dev.old).agains }
        ensures opened { has_opened result ≡ true
            → IsAlone (E.told dev.old) (E.told dev.new) self.new.reading.client self.new.made
            → Stands (E.told dev.new) self.new }
        ensures stands { Stands (E.told dev.old) self.old
            → IsAlone (E.told dev.old) (E.told dev.new) self.new.reading.client self.new.made
            → Stands (E.told dev.new) self.new }

        // What stands after a refusal: of the open itself, or of a query after it.
        ensures open_refused { client_opened self.new.made ≡ None
            → self.new.reading ≡ self.old.reading }
        ensures query_refused { has_opened result ≡ false
            → IfSome (client_opened self.new.made)
            (λ client. self.new.reading ≡ after_refused_query client self.old.reading) }
    {
        self.session.asker.made.clear();
        self.session.start(dev, &self.caps)
    }

    /// The next event (libevdev's `libevdev_next_event`).
    ///
    /// In phase Plain a `Normal` call reads, where nothing is queued, and hands out the first event; a `Sync` call
    /// answers `Synced`. In phase Needed either call synchronises first. Then, and in phase Handing, a `Sync` call
    /// hands out the next synthesised event, and a `Normal` call drops those that are left and goes on as in phase
    /// Plain.
    ///
    /// | Answer | What it means | The reader then |
    /// |---|---|---|
    /// | `Success` | an event of the device | its view is set by the event |
    /// | `Dropped` | events were lost; the event is SYN_DROPPED | its phase is Needed |
    /// | `Sync` | a synthesised event | its phase is Handing, and its view the synchronised one |
    /// | `Synced` | nothing is left to synchronise | its phase is Plain |
    /// | `Again` | nothing is visible to the client | its phase is Plain |
    /// | `NoDevice` | the client was revoked | see below |
    /// | `Closed` | the client is not open | see below |
    /// | `Full` | the history is as long as it may be | see below |
    ///
    /// After the last three in a read, the reader is as it was just before that read. After them in a synchronisation
    /// its queue is empty, its phase Needed and its view as before; the next call synchronises anew.
    ///
    /// Key value 2, an autorepeat, is handed out and does not change the view (this project's choice). It takes no
    /// memory. It makes at most 55 calls, but for a synchronisation at most one.
    ///
    /// The calls are a legal run of the history that is seen afterwards. What was seen before and the device stay, and
    /// the own places of the device's caller grow by theirs. Its count of answers Again rises by one at `Again` alone.
    /// A reader that stood at the end of what was seen before stands at the end of what is seen afterwards, if nobody
    /// else used its client in between. Where such a reader hands out a SYN_REPORT, its view is the device's state at
    /// the end of that frame, if the client could follow the device up to there.
    ///
    /// A loop over `next` ends: each of the first four answers leaves less to do than before (a number, its effort),
    /// and `Again` leaves no more. But a `Sync` call in phase Plain has nothing to do: it makes no call and answers
    /// `Synced`.
    pub fn next<E: Evdev>(&mut self, dev: &mut E, mode: Mode) -> Next
        requires description { (E.told dev.old).description ≡ self.old.description }
        ensures says { FollowsTalk (E.told dev.old) (E.told dev.new) [] self.new.made
            (next_talk self.old.description mode self.old.reading) (result, self.new.reading) }
        ensures reader { self.new.description ≡ self.old.description }
        ensures left { LeavesMade (E.told dev.old) (E.told dev.new) self.new.made }
        ensures agains { (E.told dev.new).agains ≡ agains_after_next result (E.told dev.old).agains }
        ensures few { length self.new.made ≤ 55 }
        ensures one { is_needed self.old.reading.phase ≡ false → length self.new.made ≤ 1 }
        ensures less { is_idle mode self.old.reading.phase ≡ false → IsLess result
            (effort (E.told dev.new) self.new.reading) (effort (E.told dev.old) self.old.reading) }
        ensures stands { Stands (E.told dev.old) self.old
            → IsAlone (E.told dev.old) (E.told dev.new) self.new.reading.client self.new.made
            → Stands (E.told dev.new) self.new }
        ensures shows { Stands (E.told dev.old) self.old
            → IsAlone (E.told dev.old) (E.told dev.new) self.new.reading.client self.new.made
            → AnswerShows (E.told dev.new) self.new result }
    {
        self.session.asker.made.clear();
        self.session.next(dev, &self.caps, mode)
    }

    /// The events that [`next`](Reader::next) in Normal mode would hand out one after another without a call of the
    /// device. In phase Plain they are those that were read and not handed out, at most so many, and none after a
    /// SYN_DROPPED. In another phase there is no such event.
    pub fn queued(&self, most: u32) -> &[Taken]
        ensures run { result.now ≡ queued_run most self.now.reading }
    {
        self.session.queued(most)
    }

    /// Hands out the first `count` events of [`queued`](Reader::queued) in one go, as so many calls of
    /// [`next`](Reader::next) would. The view takes these events over, and a SYN_DROPPED, which can only be the last of
    /// them, makes the phase Needed.
    ///
    /// The caller must pass no more than `queued` shows, as for the `consume` of std's `BufRead`. It makes no call, and
    /// `made` is empty then, for a count of 0 too. A reader that stood at the end of a history stands there still, and
    /// the last of the events shows what it does where `next` hands it out.
    pub fn take_queued(&mut self, count: usize)
        requires queued { length (queued_run count self.old.reading) ≡ count }
        ensures reading { self.new.reading
            ≡ after_run self.old.reading (queued_run count self.old.reading) }
        ensures made { self.new.made ≡ [] }
        ensures reader { self.new.description ≡ self.old.description }
        ensures stands { (told : EvdevView) → Stands told self.old → Stands told self.new }
        ensures shows { (told : EvdevView) → Stands told self.old → (front : List Taken)
            → (last : Taken) → queued_run count self.old.reading ≡ front ++ last ∷ []
            → AnswerShows told self.new (Success last) }
    {
        self.session.asker.made.clear();
        self.session.take_queued(count);
    }

    /// Makes the phase Needed, so that the next call of [`next`](Reader::next) synchronises first (libevdev's
    /// `LIBEVDEV_READ_FLAG_FORCE_SYNC`). The view and the queue stay until then.
    pub fn force_sync(&mut self)
        ensures needed { self.new ≡ record self.old { reading = with_sync_needed self.old.reading } }
    {
        self.session.force_sync();
    }

    /// What the device is, as far as the reader has handed it out. It has as many slots as the device.
    pub fn view(&self) -> &View
        ensures view { result.now ≡ self.now.reading.view }
        ensures sized { length result.now.cells ≡ SLOT_VALUES * self.now.description.slots }
    {
        &self.session.view
    }

    /// The view of a reader that is done with. It takes no memory.
    pub fn into_view(self) -> View
        ensures view { result ≡ self.reading.view }
        ensures sized { length result.cells ≡ SLOT_VALUES * self.description.slots }
    {
        self.session.view
    }

    /// The client that is read as, or `NO_CLIENT` where no start opened one.
    pub fn client(&self) -> u32
        ensures client { result ≡ self.now.reading.client }
    {
        self.session.client
    }

    /// Whether the reader is to synchronise.
    pub fn phase(&self) -> Phase
        ensures phase { result ≡ self.now.reading.phase }
    {
        self.session.phase
    }

    /// The calls of the last `start` or `next`, in order, those answered Again left out. They are at most 64, and none
    /// after `take_queued`.
    pub fn made(&self) -> &[CallMade]
        ensures made { result.now ≡ self.now.made }
        ensures few { length result.now ≤ 64 }
    {
        self.session.asker.made.as_slice()
    }
}
