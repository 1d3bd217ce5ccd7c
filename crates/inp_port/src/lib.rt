//! A device that several threads use.
//!
//! This crate is for whoever lets threads make steps on one device. [`Port`] shares a `Device` of `inp_device`: a
//! thread makes steps by a pass, through [`Port::call`](PortOf::call), or by a [`PortClient`], which is an `Evdev` as
//! the device itself is. [`Port::split`](PortOf::split) makes a pass for another thread, [`Port::join`](PortOf::join)
//! makes one pass of two, and [`Port::close`](PortOf::close) gives the device back once all passes were joined into
//! one. The crate depends on `inp_turn`, whose turn each call takes, on `inp_device`, and on `inp_model` for the
//! definitions.
//!
//! Its contract: all threads see one history, and each reply is the one-thread device's after the history before its
//! place. [`Port::call`](PortOf::call) says so twice. Once it speaks of the entries, by `IsServedTurn` in
//! `specs/Turn.antt`. One turn was taken, and the step was answered from the entries that were found then, which begin
//! with all that the pass had seen. An accepted step is the last entry and its place the pass's own, and nothing else
//! was entered. After a refusal the step was answered from just what the pass has seen now, and its own places and the
//! caller's buffers stay. And it speaks in the words of `Evdev`, by `IsCallBy` in `specs/Port.antt`: whatever the count
//! of answers `Again`, the call is an evdev's for the caller with this pass. By that a [`PortClient`] is an `Evdev`.
//! Its turns rise with each call, and its tie is its pass's share, its port, and those places of the pass's own where
//! no step stands.
//!
//! [`PortOf::inject_all`] says the same of many events under one turn, also of none (`IsServedAllTurn`,
//! `IsInjectAllBy`). [`PortOf::split`], [`PortOf::join`] and [`PortOf::close`] say of a port's passes what those of
//! `inp_turn` say, and the device that `close` gives back has the same description.
//!
//! What is shared need not be a `Device`. [`Served`] says what a kept value needs to be served so: it makes the steps
//! of a device, and may keep entries that are no steps. [`PortOf`] and [`PortClientOf`] are for any such value, and
//! [`PortOf::shared`] is for calls of it that are no steps.
//!
//! Only [`PortOf::new`] takes memory, and a step what the device takes for it. `new` is refused for want of memory
//! alone, and then the device comes back. Nothing says that a call gets its turn, or who is served first.
#![tactic(auto)]

mod client;
mod device;
mod port;
mod served;

pub use client::{PortClient, PortClientOf};
pub use port::{Port, PortOf};
pub use served::Served;
