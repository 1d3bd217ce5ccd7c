//! What a reader keeps, and what it does.
ghost use Rattle.std.specs.Prelude.{◌≡◌, ◌≤◌, ◌<◌, ◌+◌, false, length};
ghost use Rattle.inp_reader.specs.declared.phase.Phase.TheVariants.{Needed, Handing};
ghost use Rattle.inp_reader.specs.ReaderCalls.{asked_result};
ghost use Rattle.inp_reader.specs.Reader.{ask_each, queries, start_talk, after_queries, queued_run, after_run, read_talk, hand_out, handing, as_plain, after_sync, sync_talk, talk_in, next_talk, with_sync_needed};
ghost use Rattle.inp_reader.specs.FollowsTalk.{FollowsTalk};
ghost use Rattle.inp_reader.specs.Session.{reading_of, IsSession};
ghost use Rattle.inp_reader.specs.Spare.{IsSpare};
ghost use Rattle.inp_reader.specs.ReaderPlace.{is_needed};
ghost use Rattle.inp_reader.specs.Talk.{finish, and_then};

use crate::asker::Asker;
use crate::queue::Queue;
use crate::run::{ends_with_loss, run_len};
use crate::stops::{is_dropped, start_stop_of, stop_of};
use crate::synthesis::Synthesis;
use crate::{Mode, Next, Phase, Started};
use inp_caps::Caps;
use inp_model::{Evdev, Reply, Step, Taken};
use inp_recon::View;

/// All that a reader keeps but the description.
#[derive(Drop)]
pub(crate) struct Session {
    /// The client that is read as.
    pub(crate) client: u32,
    /// The events that were read and not handed out.
    pub(crate) queue: Queue,
    /// What the device is, as far as it was handed out.
    pub(crate) view: View,
    /// Whether to synchronise.
    pub(crate) phase: Phase,
    /// The synthesised events that were not handed out.
    pub(crate) left: Synthesis,
    /// Who makes the calls.
    pub(crate) asker: Asker,
}

impl Session {
    // Hands out the first event of the queue, and sets the view by it.
    fn hand_out(&mut self) -> Next
        requires some { 0 < length self.old.queue }
        ensures handed { (result, reading_of self.new)
            ≡ hand_out (reading_of self.old) self.old.queue }
        ensures asker { self.new.asker ≡ self.old.asker }
        ensures room { self.new.left.room ≡ self.old.left.room }
        ensures cells { length self.new.view.cells ≡ length self.old.view.cells }
    {
        match self.queue.take_first() {
            None => unreachable!(),
            Some(event) => {
                self.view.take_event(event.event);
                if is_dropped(event.event) {
                    self.phase = Phase::Needed;
                    Next::Dropped { event }
                } else {
                    Next::Success { event }
                }
            }
        }
    }

    // The events that could be handed out without a call, at most so many.
    pub(crate) fn queued(&self, most: u32) -> &[Taken]
        ensures run { result.now ≡ queued_run most (reading_of self.now) }
    {
        match self.phase {
            Phase::Plain => {
                let queue = self.queue.as_slice();
                &queue[..run_len(queue, most)]
            }
            Phase::Needed | Phase::Handing => &[],
        }
    }

    // Hands out so many of them.
    pub(crate) fn take_queued(&mut self, count: usize)
        requires queued { length (queued_run count (reading_of self.old)) ≡ count }
        ensures reading { reading_of self.new
            ≡ after_run (reading_of self.old) (queued_run count (reading_of self.old)) }
        ensures asker { self.new.asker ≡ self.old.asker }
        ensures room { self.new.left.room ≡ self.old.left.room }
        ensures cells { length self.new.view.cells ≡ length self.old.view.cells }
    {
        let run = &self.queue.as_slice()[..count];
        let is_lost = ends_with_loss(run);
        self.view.take_events(run);
        self.queue.skip(count);
        if is_lost {
            self.phase = Phase::Needed;
        }
    }

    // In phase Plain: the next event, read where none is queued.
    fn next_event<E: Evdev>(&mut self, dev: &mut E, caps: &Caps) -> Next
        requires session { IsSession caps.now (E.told dev.old) self.old }
        requires few { length self.old.asker.made < 64 }
        ensures says { FollowsTalk (E.told dev.old) (E.told dev.new) self.old.asker.made self.new.asker.made
            (read_talk (reading_of self.old)) (result, reading_of self.new) }
        ensures session { IsSession caps.now (E.told dev.new) self.new }
        ensures few { length self.new.asker.made ≤ length self.old.asker.made + 1 }
    {
        if !self.queue.is_empty() {
            return self.hand_out();
        }
        let call = self.queue.read(dev, self.client);
        self.asker.keep(call.step, call.reply);
        if call.reply.is_accepted() {
            self.hand_out()
        } else {
            stop_of(call.reply)
        }
    }

    // Hands out the next synthesised event.
    fn hand_synthesised(&mut self) -> Next
        ensures handed { (result, reading_of self.new) ≡ handing (reading_of self.old) }
        ensures asker { self.new.asker ≡ self.old.asker }
        ensures cells { self.new.view ≡ self.old.view }
        ensures room { self.new.left.room ≡ self.old.left.room }
    {
        match self.left.take_first() {
            Some(event) => Next::Sync { event },
            None => {
                self.phase = Phase::Plain;
                Next::Synced
            }
        }
    }

    // Drops the synthesised events.
    fn drop_synthesised(&mut self)
        ensures reading { reading_of self.new ≡ as_plain (reading_of self.old) }
        ensures asker { self.new.asker ≡ self.old.asker }
        ensures view { self.new.view ≡ self.old.view }
        ensures room { self.new.left.room ≡ self.old.left.room }
    {
        self.left.clear();
        self.phase = Phase::Plain;
    }

    // In phase Handing: the next synthesised event, or the next event without them.
    fn go_on<E: Evdev>(&mut self, dev: &mut E, caps: &Caps, mode: Mode) -> Next
        requires session { IsSession caps.now (E.told dev.old) self.old }
        requires few { length self.old.asker.made < 64 }
        ensures says { FollowsTalk (E.told dev.old) (E.told dev.new) self.old.asker.made self.new.asker.made
            (talk_in caps.now mode Handing (reading_of self.old)) (result, reading_of self.new) }
        ensures session { IsSession caps.now (E.told dev.new) self.new }
        ensures few { length self.new.asker.made ≤ length self.old.asker.made + 1 }
    {
        match mode {
            Mode::Sync => self.hand_synthesised(),
            Mode::Normal => {
                self.drop_synthesised();
                self.next_event(dev, caps)
            }
        }
    }

    // The next call synchronises first.
    pub(crate) fn force_sync(&mut self)
        ensures reading { reading_of self.new ≡ with_sync_needed (reading_of self.old) }
        ensures asker { self.new.asker ≡ self.old.asker }
        ensures view { self.new.view ≡ self.old.view }
        ensures room { self.new.left.room ≡ self.old.left.room }
    {
        self.left.clear();
        self.phase = Phase::Needed;
    }

    // Removes what is left to read, asks for all that the device has, and makes the synthesised events. The reply of a
    // call that is not accepted comes back.
    fn synchronise<E: Evdev>(&mut self, dev: &mut E, caps: &Caps) -> Option<Reply>
        requires session { IsSession caps.now (E.told dev.old) self.old }
        requires spare { IsSpare caps.now self.old.view }
        requires few { length self.old.asker.made + 54 ≤ 64 }
        ensures says { FollowsTalk (E.told dev.old) (E.told dev.new) self.old.asker.made self.new.asker.made
            (sync_talk caps.now (reading_of self.old)) (asked_result result self.new.asker.view) }
        ensures reading { reading_of self.new
            ≡ after_sync (reading_of self.old) (asked_result result self.new.asker.view) }
        ensures session { IsSession caps.now (E.told dev.new) self.new }
        ensures few { length self.new.asker.made ≤ length self.old.asker.made + 54 }
    {
        self.queue.clear();
        self.asker.view.copy_from(&self.view);
        let stop = self.asker.discard_and_query(dev, caps, self.client);
        if stop.is_some() {
            self.left.clear();
            self.phase = Phase::Needed;
            return stop;
        }
        self.left.fill(&mut self.view, &self.asker.view);
        self.view.copy_from(&self.asker.view);
        self.phase = Phase::Handing;
        stop
    }

    // In phase Needed: synchronises, and goes on.
    fn next_after_loss<E: Evdev>(&mut self, dev: &mut E, caps: &Caps, mode: Mode) -> Next
        requires session { IsSession caps.now (E.told dev.old) self.old }
        requires spare { IsSpare caps.now self.old.view }
        requires few { length self.old.asker.made + 55 ≤ 64 }
        ensures says { FollowsTalk (E.told dev.old) (E.told dev.new) self.old.asker.made self.new.asker.made
            (talk_in caps.now mode Needed (reading_of self.old)) (result, reading_of self.new) }
        ensures session { IsSession caps.now (E.told dev.new) self.new }
        ensures few { length self.new.asker.made ≤ length self.old.asker.made + 55 }
    {
        match self.synchronise(dev, caps) {
            Some(reply) => stop_of(reply),
            None => self.go_on(dev, caps, mode),
        }
    }

    // The next event in a mode.
    pub(crate) fn next<E: Evdev>(&mut self, dev: &mut E, caps: &Caps, mode: Mode) -> Next
        requires session { IsSession caps.now (E.told dev.old) self.old }
        requires spare { IsSpare caps.now self.old.view }
        requires few { length self.old.asker.made + 55 ≤ 64 }
        ensures says { FollowsTalk (E.told dev.old) (E.told dev.new) self.old.asker.made self.new.asker.made
            (next_talk caps.now mode (reading_of self.old)) (result, reading_of self.new) }
        ensures session { IsSession caps.now (E.told dev.new) self.new }
        ensures few { length self.new.asker.made ≤ length self.old.asker.made + 55 }
        ensures one { is_needed self.old.phase ≡ false
            → length self.new.asker.made ≤ length self.old.asker.made + 1 }
    {
        match (self.phase, mode) {
            (Phase::Plain, Mode::Normal) => self.next_event(dev, caps),
            (Phase::Plain, Mode::Sync) => Next::Synced,
            (Phase::Needed, _) => self.next_after_loss(dev, caps, mode),
            (Phase::Handing, _) => self.go_on(dev, caps, mode),
        }
    }

    // Reads as a client that was just opened: asks for all that the device has.
    fn begin<E: Evdev>(&mut self, dev: &mut E, caps: &Caps, client: u32, ring: u32) -> Started
        requires session { IsSession caps.now (E.told dev.old) self.old }
        requires few { length self.old.asker.made + 53 ≤ 64 }
        ensures says { FollowsTalk (E.told dev.old) (E.told dev.new) self.old.asker.made self.new.asker.made
            (and_then (ask_each (queries caps.now client) self.old.view)
            (λ asked. finish (after_queries client ring (reading_of self.old) asked)))
            (result, reading_of self.new) }
        ensures session { IsSession caps.now (E.told dev.new) self.new }
        ensures few { length self.new.asker.made ≤ length self.old.asker.made + 53 }
    {
        self.client = client;
        self.queue.clear();
        self.left.clear();
        self.asker.view.copy_from(&self.view);
        match self.asker.query_all(dev, caps, client) {
            Some(reply) => {
                self.phase = Phase::Needed;
                start_stop_of(reply)
            }
            None => {
                self.view.copy_from(&self.asker.view);
                self.phase = Phase::Plain;
                Started::Opened { client, ring }
            }
        }
    }

    // Opens a client, and asks for all that the device has.
    pub(crate) fn start<E: Evdev>(&mut self, dev: &mut E, caps: &Caps) -> Started
        requires session { IsSession caps.now (E.told dev.old) self.old }
        requires few { length self.old.asker.made + 54 ≤ 64 }
        ensures says { FollowsTalk (E.told dev.old) (E.told dev.new) self.old.asker.made self.new.asker.made
            (start_talk caps.now (reading_of self.old)) (result, reading_of self.new) }
        ensures session { IsSession caps.now (E.told dev.new) self.new }
        ensures few { length self.new.asker.made ≤ length self.old.asker.made + 54 }
    {
        let reply = self.asker.ask(dev, caps, Step::Open);
        match reply {
            Reply::Opened { client, ring, .. } => self.begin(dev, caps, client, ring),
            _ => start_stop_of(reply),
        }
    }
}
