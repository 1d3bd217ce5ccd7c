//! A reply, as C has it.
ghost use Rattle.std.specs.Prelude.{◌≡◌};
ghost use Rattle.inp_c.specs.Told.{told, refusal_number};

use inp_model::{AxisInfo, NO_INFO, Refusal, Reply};
use std::mem::size_of;

/// A reply: its number, and what it tells.
#[repr(C)]
#[derive(Drop)]
pub struct CReply {
    /// Which reply it is.
    pub reply: u32,
    /// The step's place, or the history's length where it was not entered.
    pub at: u32,
    /// The client that was opened.
    pub client: u32,
    /// How many events or values there are, the places of a ring, or how many sources are done.
    pub count: u32,
    /// The slot that was announced last.
    pub slot: i32,
    /// Why the step was refused.
    pub why: u32,
    /// The bits that were asked for.
    pub words: [u64; 12],
    /// The axis that was asked for.
    pub info: AxisInfo,
}

const _: () = prove!(size_of::<CReply>() == 144);

fn nothing() -> CReply
    ensures { result ≡ told (Reply.Done 0) }
{
    CReply {
        reply: 0,
        at: 0,
        client: 0,
        count: 0,
        slot: 0,
        why: 0,
        words: [0; 12],
        info: NO_INFO,
    }
}

/// The number of a cause.
pub(crate) fn number_of(why: Refusal) -> u32
    ensures { result ≡ refusal_number why }
{
    match why {
        Refusal::BadClient => 1,
        Refusal::NoDevice => 2,
        Refusal::BadKind => 3,
        Refusal::BadCode => 4,
        Refusal::BadInfo => 5,
        Refusal::Busy => 6,
        Refusal::NotGrabber => 7,
        Refusal::TooMany => 8,
        Refusal::LogFull => 9,
        Refusal::NoMemory => 10,
    }
}

/// Tells C a reply, in place: what is not named is 0.
pub(crate) fn tell_reply(reply: &Reply, out: &mut CReply)
    ensures { out.new ≡ told reply.now }
{
    *out = nothing();
    match reply {
        Reply::Done { at } => out.at = *at,
        Reply::Opened { at, client, ring } => {
            out.reply = 1;
            out.at = *at;
            out.client = *client;
            out.count = *ring;
        }
        Reply::Took { at, count } => {
            out.reply = 2;
            out.at = *at;
            out.count = *count;
        }
        Reply::Discarded { at, count } => {
            out.reply = 3;
            out.at = *at;
            out.count = *count;
        }
        Reply::Bits { at, words } => {
            out.reply = 4;
            out.at = *at;
            out.words = *words;
        }
        Reply::Axis { at, info } => {
            out.reply = 5;
            out.at = *at;
            out.info = *info;
        }
        Reply::Cells { at, count, slot } => {
            out.reply = 6;
            out.at = *at;
            out.count = *count;
            out.slot = *slot;
        }
        Reply::Again { at, ends } => {
            out.reply = 7;
            out.at = *at;
            out.count = *ends;
        }
        Reply::Refused { at, why } => {
            out.reply = 8;
            out.at = *at;
            out.why = number_of(*why);
        }
    }
}
