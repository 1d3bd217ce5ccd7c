//! What a job saw, and its counts.
ghost use Rattle.std.specs.Prelude.{◌≡◌, ◌++◌, codes, decimal, OnOk, flat_map};
ghost use Rattle.std.specs.List.{count_by};
ghost use Rattle.std.specs.Fmt.{signed_decimal};
ghost use Rattle.inp_model.specs.Step.{is_end_step, query_of};
ghost use Rattle.inp_model.specs.declared.reply.Reply.TheVariants.{Took};
ghost use Rattle.inp_model.specs.declared.step.Step.TheVariants.{Read};
ghost use Rattle.inp_script.specs.declared.sight.Sight.TheVariants.{Call};
ghost use Rattle.inp_script.specs.SightRef.{sight_of};
ghost use Rattle.inp_report.specs.Steps.{step_text};
ghost use Rattle.inp_report.specs.Replies.{query_kind, reply_text};
ghost use Rattle.inp_report.specs.Sights.{sight_line, is_counted_call, is_took, is_made, is_again_sight};

use crate::bits::push_bits;
use crate::step_text::push_step_text;
use crate::took_words::TookWords;
use crate::words::{push_axis, push_event, push_numbered, push_refusal, push_spaced};
use inp_joy::JoyRecord;
use inp_model::{EV_KEY, EV_LED, EV_SND, EV_SW, EV_SYN, NoMemory, Reply, Step};
use inp_script::{SightRef, SightRun, Sights};
use inp_texts::Page;

pub(crate) fn push_sights(text: &mut Page, sights: &Sights) -> Result<(), NoMemory>
    ensures pushed { OnOk result (text.new ≡ text.old ++ flat_map sight_line sights.now) }
{
    let mut took = TookWords::new(text.allocator())?;
    let mut start = 0;
    while start < sights.len() {
        let run = sights.run_from(start);
        push_run(text, &mut took, &run)?;
        start += run.len();
    }
    Ok(())
}

// Appends the lines of entries that follow each other.
fn push_run(text: &mut Page, took: &mut TookWords, run: &SightRun<'_>) -> Result<(), NoMemory>
    ensures pushed { OnOk result (text.new ≡ text.old ++ flat_map sight_line run.now) }
{
    for index in 0..run.len() {
        push_sight(text, took, run.get(index))?;
    }
    Ok(())
}

// Appends the line of an entry.
#[inline(always)]
#[tactic(auto, unfolding(crate::specs::Sights::sight_line))]
fn push_sight(text: &mut Page, took: &mut TookWords, sight: SightRef<'_>) -> Result<(), NoMemory>
    ensures pushed { OnOk result (text.new ≡ text.old ++ sight_line (sight_of sight.entry)) }
{
    match sight {
        SightRef::Took { event } => return took.push(text, event),
        SightRef::Read {
            client,
            most,
            at,
            count,
        } => return push_read(text, client, most, at, count),
        SightRef::Again { at, .. } => push_numbered(text, "again ", u64::from(at))?,
        SightRef::Made { event } => {
            text.push_str("made ")?;
            push_event(text, event)?;
        }
        SightRef::Record { bytes } => push_joy_record(text, JoyRecord::from_bytes(bytes))?,
        SightRef::Injected { event, now, at } => push_call(
            text,
            Step::Inject { event, now },
            &Reply::Done { at },
        )?,
        SightRef::Call { call } => push_call(text, call.step, &call.reply)?,
    }
    text.push_str("\n")
}

// Appends the line of a read that took events.
#[tactic(auto, unfolding(crate::specs::Sights::sight_line, crate::specs::Steps::step_text, crate::specs::Replies::reply_text))]
fn push_read(text: &mut Page, client: u32, most: u32, at: u32, count: u32) -> Result<(), NoMemory>
    ensures pushed { OnOk result
        (text.new ≡ text.old ++ sight_line (Call (Read client most) (Took at count))) }
{
    push_numbered(text, "call read ", u64::from(client))?;
    push_numbered(text, " ", u64::from(most))?;
    push_numbered(text, " reply took ", u64::from(at))?;
    push_numbered(text, " ", u64::from(count))?;
    text.push_str("\n")
}

#[inline(never)]
fn push_joy_record(text: &mut Page, joy_record: JoyRecord) -> Result<(), NoMemory>
    ensures pushed { OnOk result
        (text.new
        ≡ text.old
        ++ (codes "js " ++ (decimal joy_record.time
        ++ (codes " " ++ (signed_decimal joy_record.value
        ++ (codes " " ++ (decimal joy_record.kind ++ (codes " " ++ decimal joy_record.number)))))))) }
{
    let JoyRecord {
        time,
        value,
        kind,
        number,
    } = joy_record;
    write!(text, "js {time} {value} {kind} {number}")?;
    Ok(())
}

#[inline(never)]
fn push_call(text: &mut Page, step: Step, reply: &Reply) -> Result<(), NoMemory>
    ensures pushed { OnOk result
        (text.new
        ≡ text.old
        ++ (codes "call " ++ (step_text step ++ (codes " reply " ++ reply_text step reply.now)))) }
{
    text.push_str("call ")?;
    push_step_text(text, step)?;
    text.push_str(" reply ")?;
    push_reply(text, step, reply)
}

// Appends the words of a reply, by its kind.
#[tactic(auto, unfolding(crate::specs::Replies::reply_text))]
fn push_reply(text: &mut Page, step: Step, reply: &Reply) -> Result<(), NoMemory>
    ensures pushed { OnOk result
        (text.new ≡ text.old ++ reply_text step reply.now) }
{
    match reply {
        Reply::Done { at } => push_numbered(text, "done ", u64::from(*at)),
        Reply::Opened { at, client, ring } => {
            push_numbered(text, "opened ", u64::from(*at))?;
            push_numbered(text, " ", u64::from(*client))?;
            push_numbered(text, " ", u64::from(*ring))
        }
        Reply::Took { at, count } => push_counted(text, "took ", *at, *count),
        Reply::Discarded { at, count } => push_counted(text, "discarded ", *at, *count),
        Reply::Bits { at, words } => {
            push_numbered(text, "bits ", u64::from(*at))?;
            push_bits(text, query_kind(step), words)
        }
        Reply::Axis { at, info } => {
            push_numbered(text, "axis ", u64::from(*at))?;
            push_axis(text, *info)
        }
        Reply::Cells { at, count, slot } => {
            push_counted(text, "cells ", *at, *count)?;
            push_spaced(text, *slot)
        }
        Reply::Again { at, .. } => push_numbered(text, "again ", u64::from(*at)),
        Reply::Refused { at, why } => {
            push_numbered(text, "refused ", u64::from(*at))?;
            text.push_str(" ")?;
            push_refusal(text, *why)
        }
    }
}

// Appends the words before a place, the place and a count.
fn push_counted(text: &mut Page, before: &str, at: u32, count: u32) -> Result<(), NoMemory>
    ensures pushed { OnOk result
        (text.new
        ≡ text.old ++ (before.now ++ (decimal at ++ (codes " " ++ decimal count)))) }
{
    push_numbered(text, before, u64::from(at))?;
    push_numbered(text, " ", u64::from(count))
}

// The type whose codes a step asks for, `EV_SYN` where it asks for none.
fn query_kind(step: Step) -> u16
    ensures kind { result ≡ query_kind (query_of step) }
{
    match step {
        Step::GetKeys { .. } => EV_KEY,
        Step::GetSwitches { .. } => EV_SW,
        Step::GetLeds { .. } => EV_LED,
        Step::GetSounds { .. } => EV_SND,
        _ => EV_SYN,
    }
}

// How many calls of a source count: the accepted ones, but for the End that follows its lines.
pub(crate) fn counted_calls(sights: &Sights) -> usize
    ensures count { result ≡ count_by is_counted_call sights.now }
{
    let mut count = 0;
    let mut start = 0;
    while start < sights.len() {
        let run = sights.run_from(start);
        count += counted_in(&run);
        start += run.len();
    }
    count
}

// How many of these entries are such calls.
fn counted_in(run: &SightRun<'_>) -> usize
    ensures count { result ≡ count_by is_counted_call run.now }
{
    let mut count = 0;
    for index in 0..run.len() {
        if is_counted_call(run.get(index)) {
            count += 1;
        }
    }
    count
}

fn is_counted_call(sight: SightRef<'_>) -> bool
    ensures counted { result ≡ is_counted_call (sight_of sight.entry) }
{
    match sight {
        SightRef::Injected { .. } | SightRef::Read { .. } => true,
        SightRef::Call { call } => call.reply.is_accepted() && !is_end(call.step),
        _ => false,
    }
}

fn is_end(step: Step) -> bool
    ensures end { result ≡ is_end_step step }
{
    matches!(step, Step::End)
}

/// How many events a job took, how many its reader made, and how often nothing was visible to it.
#[derive(Clone, Copy)]
pub(crate) struct SightCounts {
    pub(crate) took: usize,
    pub(crate) made: usize,
    pub(crate) again: usize,
}

const NOTHING_SEEN: SightCounts = SightCounts {
    took: 0,
    made: 0,
    again: 0,
};

// Counts the entries of the other kinds.
pub(crate) fn sight_counts(sights: &Sights) -> SightCounts
    ensures took { result.took ≡ count_by is_took sights.now }
    ensures made { result.made ≡ count_by is_made sights.now }
    ensures again { result.again ≡ count_by is_again_sight sights.now }
{
    let mut counts = NOTHING_SEEN;
    let mut start = 0;
    while start < sights.len() {
        let run = sights.run_from(start);
        let more = counts_in(&run);
        counts.took += more.took;
        counts.made += more.made;
        counts.again += more.again;
        start += run.len();
    }
    counts
}

// The same of entries that follow each other.
fn counts_in(run: &SightRun<'_>) -> SightCounts
    ensures took { result.took ≡ count_by is_took run.now }
    ensures made { result.made ≡ count_by is_made run.now }
    ensures again { result.again ≡ count_by is_again_sight run.now }
{
    let mut counts = NOTHING_SEEN;
    for index in 0..run.len() {
        match run.get(index) {
            SightRef::Took { .. } => counts.took += 1,
            SightRef::Made { .. } => counts.made += 1,
            SightRef::Again { .. } => counts.again += 1,
            SightRef::Injected { .. } => {}
            SightRef::Read { .. } => {}
            SightRef::Record { .. } => {}
            SightRef::Call { .. } => {}
        }
    }
    counts
}
