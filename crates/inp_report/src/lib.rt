//! The printed text of a record of input devices and of its result: the report, that of its joysticks, that of its
//! owners, and the summary.
//!
//! This crate is for whoever shows what was played. It depends on `inp_actors` for records, on `inp_script` for their
//! results, and on `inp_recon` for views. It also depends on `inp_joy` for joysticks' records and pictures, on
//! `inp_feedback` for what owners were answered, and on `inp_codes` for names.
//!
//! Its contract: [`report`], [`joy_report`], [`owner_report`] and [`summary`] give exactly the bytes that
//! `specs/Report.antt`, `specs/JoyReport.antt`, `specs/OwnerReport.antt` and `specs/Summary.antt` define of the record
//! and of its result, or want of memory. They do so with and without histories, row by row of the tables in
//! docs/FORMATS.md. [`whole_report`] gives the first three one after another (`specs/Whole.antt`). The caller must pass
//! the runs, the joysticks and the owners of this record (`AreRunsOf`, `AreJoysOf` and `AreOwnersOf` of `inp_script`).
//! Those are a run for each device and a job for each of its actors but joysticks and owners, in order, with a view of
//! the device. There is also a job for each joystick, and what each owner was told. [`examples`] shows the whole text
//! of a key press, with its history too, a client's part, and a loss and the synchronisation after it. It also shows a
//! full history, the slots of a touchpad, a joystick, an owner, and a summary. A report takes time in proportion to
//! what it prints, a summary to what was seen; no clause says so.
#![tactic(auto)]

mod bits;
mod brief;
mod event_words;
pub mod examples;
mod jobs;
mod joysticks;
mod owners;
mod picture;
mod played;
mod sights;
mod stamp;
mod step_text;
mod took_words;
mod views;
mod whole;
mod words;

pub use brief::summary;
pub use joysticks::joy_report;
pub use owners::owner_report;
pub use played::whole_report;
pub use whole::report;
