//! The handler of the device's frames.
ghost use Rattle.std.specs.Prelude.{◌≡◌, ◌≤◌, ℕ, Option, IfOk};

use crate::frame_filters::FrameFilters;
use inp_caps::Caps;
use inp_client::Clients;
use inp_frames::Frames;
use inp_model::{Event, NoMemory};
use std::alloc::Global;

/// It offers what the filters of a device leave of its frames to its clients (the kernel's evdev handler, behind its
/// filter handlers). While a client holds the grab, frames pass the filters by and are offered whole.
///
/// The place and the holder of the grab are those of the step whose frames come next.
#[derive(Drop)]
pub struct Handler {
    pub clients: Clients,
    pub filters: FrameFilters,
    pub place: u32,
    pub holder: Option<u32>,
}

impl Frames for Handler {
    ghost use Rattle.inp_device.specs.Handler.{IsAfterFrame};

    ghost takes = { IsAfterFrame };

    fn pass(&mut self, events: &[Event], now: u64) {
        let frame_is_whole = self.holder.is_some() || self.filters.is_empty();
        if frame_is_whole {
            self.clients.offer(events, now, self.place, self.holder);
        } else {
            self.filters.pass(events, now);
            let left = self.filters.left();
            self.clients.offer(left, now, self.place, self.holder);
        }
    }
}

impl Handler {
    ghost use Rattle.inp_device.specs.Handler.{IsFreshHandler};

    /// A handler without clients, with memory for the list of them, for what is kept of the filters and for what they
    /// leave of a frame.
    pub fn new(alloc: Global, caps: &Caps) -> Result<Handler, NoMemory>
        ensures fresh { IfOk result (λ handler. IsFreshHandler caps.now handler) }
    {
        Ok(Handler {
            clients: Clients::new(alloc)?,
            filters: FrameFilters::new(alloc, caps)?,
            place: 0,
            holder: None,
        })
    }

    /// The frames to come are those of the step with this place, while this client holds the grab.
    pub fn begin(&mut self, place: u32, holder: Option<u32>)
        ensures begun { self.new ≡ record self.old { place = place; holder = holder } }
    {
        self.place = place;
        self.holder = holder;
    }
}
