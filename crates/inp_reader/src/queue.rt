//! The events that a reader has read and not handed out.
ghost use Rattle.std.specs.Prelude.{◌≡◌, ◌≤◌, ◌↔◌, [], ◌∷◌, drop, IsTrue, IfSome, IfNone, length};
ghost use Rattle.inp_model.specs.declared.step.Step.TheVariants.{Read};
ghost use Rattle.inp_reader.specs.ReaderCalls.{MakesRead};

use crate::CallMade;
use inp_model::{Evdev, Event, Reply, Step, Taken};
use std::marker::Model;

/// How many events a reader reads at once (this project's choice, as libevdev's queue).
const QUEUE_LEN: u32 = 64;

/// What the places of a new queue hold.
const NOTHING: Taken = Taken {
    event: Event {
        kind: 0,
        code: 0,
        value: 0,
    },
    time: 0,
    place: 0,
};

/// The events of the last read that are not handed out yet, in a buffer of 64. A contract sees them as a list.
#[derive(Drop)]
pub(crate) struct Queue {
    buffer: [Taken; 64],
    next: usize,
    end: usize,
}

impl Model for Queue {
    ghost use Rattle.std.specs.Prelude.{List, ◌≡◌, ◌≤◌, ◌-◌, take, drop, length};
    ghost use Rattle.inp_model.specs.declared.taken.Taken.{Taken};

    ghost Value = { List Taken };

    ghost view = { λ q. take (q.end - q.next) (drop q.next q.buffer) };

    ghost invariant = { λ q. (q.next ≤ q.end) × (q.end ≤ 64) × (length q.buffer ≡ 64) };
}

impl Queue {
    // The empty queue.
    pub(crate) fn new() -> Queue
        ensures { result ≡ [] }
    {
        Queue {
            buffer: [NOTHING; 64],
            next: 0,
            end: 0,
        }
    }

    // Whether there is no event.
    pub(crate) fn is_empty(&self) -> bool
        ensures { IsTrue result ↔ (self.now ≡ []) }
    {
        self.next == self.end
    }

    // Drops all events.
    pub(crate) fn clear(&mut self)
        ensures { self.new ≡ [] }
    {
        self.next = self.end;
    }

    // The first event, which is taken out, if there is one.
    pub(crate) fn take_first(&mut self) -> Option<Taken>
        ensures first { IfSome result (λ taken. self.old ≡ taken ∷ self.new) }
        ensures none { IfNone result ((self.old ≡ []) × (self.new ≡ [])) }
    {
        if self.next == self.end {
            return None;
        }
        let first = self.buffer[self.next];
        self.next += 1;
        Some(first)
    }

    // The events, first to last.
    pub(crate) fn as_slice(&self) -> &[Taken]
        ensures { result.now ≡ self.now }
    {
        &self.buffer[self.next..self.end]
    }

    // Drops the first events, so many.
    pub(crate) fn skip(&mut self, count: usize)
        requires few { count ≤ length self.old }
        ensures { self.new ≡ drop count self.old }
    {
        self.next += count;
    }

    // Reads at most 64 of a client's events into an empty queue.
    pub(crate) fn read<E: Evdev>(&mut self, dev: &mut E, client: u32) -> CallMade
        requires { self.old ≡ [] }
        ensures step { result.step ≡ Read client 64 }
        ensures reads { MakesRead (E.told dev.old) (E.told dev.new) client result.reply self.new }
    {
        let step = Step::Read {
            client,
            count: QUEUE_LEN,
        };
        let reply = dev.call(step, &mut self.buffer, &mut []);
        if let Reply::Took { count, .. } = reply {
            self.next = 0;
            self.end = count as usize;
        }
        CallMade { step, reply }
    }
}
