//! What an input device is and does, as data and definitions.
//!
//! This crate is for everybody. It has the types that the other crates pass to one another (events, steps, replies,
//! histories). In `specs/` it has the one-thread device as definitions over a list of steps. It depends on `std` alone.
//!
//! Its definitions are what a reader must believe. `Description` says what a device is, and which descriptions there
//! are. A history is a list of accepted steps; `Step` reads one step, and `Past` what a history says of its clients.
//! All else follows from the history and the description alone. First come the raw events and descriptions of axes
//! (`Raw`), and the state by the last write (`State`, with `Defuzz` for axes and slots). That is of keys and the like,
//! of axes, and of the slots of multi-touch devices. Then come the events passed (`Passed`), the frames that they are
//! cut into (`Cut`, `Frame`), and what filters leave of them (`Filter`, `Left`). Last come each client's queue
//! (`Queue`) and the reply to the next step (`Reply`). `Run` says when a caller's calls are a legal run of a history.
//! `Evdev` says what one call of whatever makes steps leaves of what its caller sees, with `Leaves` for several and
//! `Injecting` for a call that injects many events. A call that injects many events is calls one by one, up to the
//! first that the limit refuses (`injected_events_are_calls`).
//!
//! What the definitions compute on short histories is in `examples`, `query_examples`, `slot_examples`,
//! `client_examples`, `repeat_examples` and `axis_examples`. Full rings, full batches, open batches, slots, queries,
//! masks, grabs, clocks, revocation, autorepeat, inhibition and axes described anew are among them. `filter_examples`
//! has what clients read behind each kind of filter, behind two in a row and under a grab. `injecting_examples` has
//! where many events are entered that one call injects.
//!
//! Of the data types, `Items`, `Event`, `Step` and `Reply`, each call answers what its definition says. A push adds one
//! item at the end, or nothing where memory ran out.
#![tactic(auto)]

mod axis_info;
mod clock;
mod evdev;
mod event;
pub mod examples;
mod filter;
mod injected;
mod items;
pub mod laws;
mod limits;
mod multi_touch;
mod no_memory;
mod reply;
mod stamped;
mod step;
mod taken;
mod timer;

pub use axis_info::{AxisInfo, NO_INFO};
pub use clock::Clock;
pub use evdev::Evdev;
pub use event::{
    ABS_MAX, EV_ABS, EV_KEY, EV_LED, EV_MAX, EV_MSC, EV_REL, EV_REP, EV_SND, EV_SW, EV_SYN, Event,
    KEY_A, KEY_MAX, LED_MAX, MSC_MAX, REL_MAX, REP_DELAY, REP_MAX, REP_PERIOD, SND_MAX, SW_MAX,
    SYN_CONFIG, SYN_DROPPED, SYN_MT_REPORT, SYN_REPORT,
};
pub use filter::Filter;
pub use injected::Injected;
pub use items::{History, Items};
pub use limits::{
    BOUNCE_MAX, CLIENTS_MAX, FILTERS_MAX, FUZZ_MAX, HINT_MAX, HINT_MIN, LOG_MAX, SLOTS_MAX,
};
pub use multi_touch::{
    ABS_MT_BLOB_ID, ABS_MT_DISTANCE, ABS_MT_ORIENTATION, ABS_MT_POSITION_X, ABS_MT_POSITION_Y,
    ABS_MT_PRESSURE, ABS_MT_SLOT, ABS_MT_TOOL_TYPE, ABS_MT_TOOL_X, ABS_MT_TOOL_Y,
    ABS_MT_TOUCH_MAJOR, ABS_MT_TOUCH_MINOR, ABS_MT_TRACKING_ID, ABS_MT_WIDTH_MAJOR,
    ABS_MT_WIDTH_MINOR, SLOT_VALUES, is_multi_touch_code, is_slot_code,
};
pub use no_memory::NoMemory;
pub use reply::{Refusal, Reply};
pub use stamped::{MOMENT_MAX, Stamped};
pub use step::Step;
pub use taken::Taken;
pub use timer::Timer;
