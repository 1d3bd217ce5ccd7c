//! The filters of a device, with room for what they leave of a frame.
ghost use Rattle.std.specs.Prelude.{◌≡◌, ◌≤◌, ℕ, List, [], length, IfOk};
ghost use Rattle.inp_model.specs.declared.filter.Filter.{Filter};
ghost use Rattle.inp_model.specs.Filter.{Timed, given_after};
ghost use Rattle.inp_model.specs.Queue.{is_empty};
ghost use Rattle.inp_frames.specs.declared.frames.TheConstants.{FRAME_MAX};
ghost use Rattle.inp_filter.specs.Row.{let_through};
ghost use Rattle.inp_filter.specs.FilterState.{FiltersStandFor};

use inp_caps::Caps;
use inp_filter::Filters;
use inp_frames::FRAME_MAX;
use inp_model::{EV_SYN, Event, NoMemory, SYN_REPORT};
use std::alloc::Global;
use std::marker::Model;

/// What a place holds that was not written yet.
const NO_EVENT: Event = Event {
    kind: EV_SYN,
    code: SYN_REPORT,
    value: 0,
};

/// The filters of a device, with a buffer as long as the longest frame for what they leave of one.
#[derive(Drop)]
pub struct FrameFilters {
    filters: Filters,
    buffer: Vec<Event>,
    count: usize,
}

impl Model for FrameFilters {
    ghost use Rattle.inp_device.specs.FrameFilters.{FilterView};

    ghost Value = { FilterView };

    ghost use Rattle.std.specs.Prelude.{take};

    ghost view = { λ f. record { kept = f.filters; left = take f.count f.buffer.items } };

    ghost use Rattle.std.specs.Prelude.{◌≡◌, ◌≤◌, length};
    ghost use Rattle.inp_frames.specs.declared.frames.TheConstants.{FRAME_MAX};

    ghost invariant = { λ f. (length f.buffer.items ≡ FRAME_MAX) × (f.count ≤ FRAME_MAX) };
}

impl FrameFilters {
    /// The filters of a description before any frame, with memory for the longest frame.
    pub fn new(alloc: Global, caps: &Caps) -> Result<FrameFilters, NoMemory>
        ensures fresh { IfOk result (λ f. FiltersStandFor caps.now.filters [] f.kept) }
    {
        Ok(FrameFilters {
            filters: Filters::new(alloc, caps)?,
            buffer: vec![in alloc; NO_EVENT; FRAME_MAX]?,
            count: 0,
        })
    }

    /// Whether there is no filter.
    pub fn is_empty(&self) -> bool
        ensures { (fs : List Filter) (given : List Timed) → FiltersStandFor fs given self.now.kept
            → result ≡ is_empty fs }
    {
        self.filters.is_empty()
    }

    /// Gives them a frame that ended at a moment.
    pub fn pass(&mut self, events: &[Event], now: u64)
        requires fits { length events.now ≤ FRAME_MAX }
        ensures left { (fs : List Filter) (given : List Timed) → FiltersStandFor fs given self.old.kept
            → self.new.left ≡ let_through fs now given events.now }
        ensures stands { (fs : List Filter) (given : List Timed) → FiltersStandFor fs given self.old.kept
            → FiltersStandFor fs (given_after now given events.now) self.new.kept }
    {
        let count = self.filters.pass(events, now, &mut self.buffer);
        self.count = count as usize;
    }

    /// What they left of the frame that they were given last.
    pub fn left(&self) -> &[Event]
        ensures { result.now ≡ self.now.left }
    {
        &self.buffer[..self.count]
    }
}
