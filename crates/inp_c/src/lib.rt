//! The device, the reader and the program, for callers in C.
//!
//! A program in C, or in another language that calls C, links this static library, or the shared object that is made of
//! it (`tools/build --library`). `include/inputplay.h` declares what it exports, and docs/LIBRARY.md says how it is
//! used. The crate has no rule of its own: each export hands what C passes to a function of a crate below, and tells
//! its result.
//!
//! C holds a [`Handle`](handle::Handle), which begins as zeros. It keeps nothing, or a device with its reader and its
//! joystick client, or a record with its text. Each export takes what it keeps, a box, and puts it back;
//! [`inputplay_free`](free::inputplay_free) frees it. It may go from thread to thread, which `Send` of it shows.
//!
//! Its contract speaks of the contents of the handle (`specs/Contents.antt`). Each export says by its clauses which
//! status it answers, what it leaves in the handle and what it writes, exactly. `status` is an equation, or says of
//! each status when it comes; `made` says what stands after OK. After any other status the contents are as before, and
//! nothing is written but the line and the cause of a text that is refused. What C passes as a step is read by
//! `step_of_c` (`specs/StepOfC.antt`), the struct of a device by `description_of_c` (`specs/DescriptionOfC.antt`), and
//! what C is told of a reply is `told` (`specs/Told.antt`). Events and axes are the structs of `inp_model`, which are
//! laid out as C's are, so that C's arrays are passed on and not copied.
//!
//! What the caller owes is in the header. Nothing checks it.
#![tactic(auto)]

mod bytes;
mod c_client;
mod c_counts;
mod c_description;
mod c_filter;
mod c_limits;
mod c_line;
mod c_picture;
mod c_repeat;
mod c_reply;
mod c_step;
mod cause;
mod client_read;
mod client_told;
mod counts;
mod description_told;
mod device_told;
mod feedback;
mod free;
mod from_struct;
mod from_text;
mod handle;
mod history;
mod injection;
mod joystick;
mod kept;
mod kept_device;
mod kept_record;
mod layout;
mod line_step;
mod loaded_streams;
mod loose;
mod made;
mod made_text;
mod names;
mod parts;
mod reader;
mod reader_told;
mod record_lines;
mod record_names;
mod record_text;
mod status;
mod step_told;
mod steps;
mod stream_events;
mod streams;
mod texts;
mod untimed;
mod version;
