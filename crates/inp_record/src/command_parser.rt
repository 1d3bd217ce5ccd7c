//! The commands of action lines.
ghost use Rattle.std.specs.Prelude.{◌≡◌, ◌+◌, ◌<◌, ◌≤◌, ◌^◌, length, IfOk, IfSome, true, false};
ghost use Rattle.inp_model.specs.declared.stamped.TheConstants.{MOMENT_MAX};
ghost use Rattle.inp_actors.specs.declared.command.TheConstants.{READ_MAX};
ghost use Rattle.inp_actors.specs.declared.role.Role.TheVariants.{Source, Client};
ghost use Rattle.inp_texts.specs.Line.{AreText, is_text};
ghost use Rattle.inp_texts.specs.Number.{number};
ghost use Rattle.inp_record.specs.Fault.{IsReading};
ghost use Rattle.inp_record.specs.declared.verb.Verb.TheVariants.{Event, Write, Mask, Clock, SetAxis};
ghost use Rattle.inp_record.specs.Action.{count_max};
ghost use Rattle.inp_record.specs.Field.{field_word, Positive};
ghost use Rattle.inp_record.specs.ItemsBefore.{is_later, streams_in};
ghost use Rattle.inp_record.specs.Verb.{argument_count, command_of, is_stream};
ghost use Rattle.inp_codes.specs.ByNumber.{texts};
ghost use Rattle.inp_record.specs.Words.{actor_from, action_item};

use crate::Cause;
use crate::item::Item;
use crate::item_parser::{count_word, word};
use crate::line_fault::LineFault;
use crate::verb::{Verb, clock_word, verb_of};
use inp_actors::{ActorText, Command, FileName, READ_MAX, Role};
use inp_model::{AxisInfo, EV_ABS, MOMENT_MAX, NoMemory};
use inp_texts::{code_word, kind_word, number, signed_number};
use std::alloc::Global;

/// The moment that a word is.
fn moment_word(word: &[u8]) -> Option<u64>
    ensures { result ≡ number MOMENT_MAX word.now }
{
    number(word, MOMENT_MAX)
}

/// A count of at most 4,096 and at least 1.
fn some_word(word: &[u8]) -> Option<u32>
    ensures { result ≡ field_word (Positive READ_MAX) 0 word.now }
{
    match number(word, u64::from(READ_MAX)) {
        Some(0) | None => None,
        Some(count) => Some(count as u32),
    }
}

/// An event that a source injects.
#[inline(always)]
#[tactic(auto, unfolding(crate::specs::Verb::command_of, crate::specs::Verb::command_row))]
pub(crate) fn event_command(words: &[&[u8]]) -> Option<Command>
    requires { 7 ≤ length words.now }
    ensures command { result ≡ command_of 0 Source Event (texts words.now) }
    ensures version { IfSome result (λ command. is_later command ≡ false) }
    ensures streams { IfSome result (λ command. streams_in command ≡ 0) }
{
    let moment = moment_word(word(words, 3))?;
    let kind = kind_word(word(words, 4))?;
    let code = code_word(kind, word(words, 5))?;
    let value = signed_number(word(words, 6))?;
    Some(Command::Event {
        moment,
        kind,
        code,
        value,
    })
}

/// An event that a client writes.
#[tactic(auto, unfolding(crate::specs::Verb::command_of, crate::specs::Verb::command_row))]
fn write_command(words: &[&[u8]]) -> Option<Command>
    requires { 7 ≤ length words.now }
    ensures { result ≡ command_of 0 Client Write (texts words.now) }
{
    let moment = moment_word(word(words, 3))?;
    let kind = kind_word(word(words, 4))?;
    let code = code_word(kind, word(words, 5))?;
    let value = signed_number(word(words, 6))?;
    Some(Command::Write {
        moment,
        kind,
        code,
        value,
    })
}

/// A word of a mask: its type, its place and its bits.
#[tactic(auto, unfolding(crate::specs::Verb::command_of, crate::specs::Verb::command_row))]
fn mask_command(words: &[&[u8]]) -> Option<Command>
    requires { 6 ≤ length words.now }
    ensures { result ≡ command_of 0 Client Mask (texts words.now) }
{
    let kind = kind_word(word(words, 3))?;
    let place = number(word(words, 4), 65535)?;
    let bits = number(word(words, 5), u64::MAX)?;
    Some(Command::Mask {
        kind,
        word: place as u16,
        bits,
    })
}

/// A clock with the moment of its choice.
#[tactic(auto, unfolding(crate::specs::Verb::command_of, crate::specs::Verb::command_row))]
fn clock_command(words: &[&[u8]]) -> Option<Command>
    requires { 5 ≤ length words.now }
    ensures { result ≡ command_of 0 Client Clock (texts words.now) }
{
    let clock = clock_word(word(words, 3))?;
    let moment = moment_word(word(words, 4))?;
    Some(Command::Clock { clock, moment })
}

/// An axis with what describes it anew.
#[tactic(auto, unfolding(crate::specs::Verb::command_of, crate::specs::Verb::command_row))]
fn set_axis_command(words: &[&[u8]]) -> Option<Command>
    requires { 10 ≤ length words.now }
    ensures { result ≡ command_of 0 Client SetAxis (texts words.now) }
{
    let code = code_word(EV_ABS, word(words, 3))?;
    let value = signed_number(word(words, 4))?;
    let minimum = signed_number(word(words, 5))?;
    let maximum = signed_number(word(words, 6))?;
    let fuzz = signed_number(word(words, 7))?;
    let flat = signed_number(word(words, 8))?;
    let resolution = signed_number(word(words, 9))?;
    let info = AxisInfo {
        value,
        minimum,
        maximum,
        fuzz,
        flat,
        resolution,
    };
    Some(Command::SetAxis { code, info })
}

/// The greatest count of a read of this role.
fn count_max(role: Role) -> u64
    ensures count { result ≡ count_max role }
    ensures fits { result < 2 ^ 32 }
{
    match role {
        Role::Joy => u64::from(u32::MAX),
        _ => u64::from(READ_MAX),
    }
}

/// A command with its words, other than a stream, of an actor of this role.
#[tactic(auto, unfolding(crate::specs::Verb::command_of, crate::specs::Verb::command_row))]
fn plain_command(role: Role, verb: Verb, words: &[&[u8]]) -> Option<Command>
    requires count { argument_count verb + 3 ≡ length words.now }
    requires plain { is_stream verb ≡ false }
    ensures { result ≡ command_of 0 role verb (texts words.now) }
{
    match verb {
        Verb::Event => event_command(words),
        Verb::Tick => {
            let moment = moment_word(word(words, 3))?;
            Some(Command::Tick { moment })
        }
        Verb::Inhibit => {
            let moment = moment_word(word(words, 3))?;
            Some(Command::Inhibit { moment })
        }
        Verb::Uninhibit => Some(Command::Uninhibit),
        Verb::Stream | Verb::Stream16 => unreachable!(),
        Verb::Open => Some(Command::Open),
        Verb::Close => Some(Command::Close),
        Verb::Grab => Some(Command::Grab),
        Verb::Ungrab => Some(Command::Ungrab),
        Verb::Revoke => Some(Command::Revoke),
        Verb::Mask => mask_command(words),
        Verb::Clock => clock_command(words),
        Verb::Write => write_command(words),
        Verb::SetAxis => set_axis_command(words),
        Verb::Read => {
            let count = number(word(words, 3), count_max(role))?;
            Some(Command::Read {
                count: count as u32,
            })
        }
        Verb::Discard => Some(Command::Discard),
        Verb::Keys => Some(Command::Keys),
        Verb::Switches => Some(Command::Switches),
        Verb::Leds => Some(Command::Leds),
        Verb::Sounds => Some(Command::Sounds),
        Verb::SyncSlots => Some(Command::SyncSlots),
        Verb::Axis => {
            let code = code_word(EV_ABS, word(words, 3))?;
            Some(Command::Axis { code })
        }
        Verb::Slots => {
            let code = code_word(EV_ABS, word(words, 3))?;
            Some(Command::Slots { code })
        }
        Verb::Next => {
            let count = count_word(word(words, 3))?;
            Some(Command::Next { count })
        }
        Verb::Skip => {
            let count = count_word(word(words, 3))?;
            Some(Command::Skip { count })
        }
        Verb::Follow => Some(Command::Follow),
        Verb::Force => Some(Command::Force),
        Verb::Feedback => {
            let count = some_word(word(words, 3))?;
            Some(Command::Feedback { count })
        }
    }
}

/// The name of a file. It takes memory for its text.
fn file_name(alloc: Global, word: &[u8]) -> Result<FileName, NoMemory>
    requires { is_text word.now ≡ true }
    ensures { IfOk result (λ file. file ≡ word.now) }
{
    let text = str::from_utf8(word).unwrap();
    Ok(FileName::new(String::from_str(alloc, text)?))
}

/// A command with its words, of an actor of this role. A stream has this number.
#[tactic(auto, using(crate::proofs::Rows::same_stream), unfolding(crate::specs::Verb::command_of, crate::specs::Verb::command_row))]
fn command_of(
    alloc: Global,
    index: u32,
    role: Role,
    verb: Verb,
    words: &[&[u8]],
) -> Result<Option<Command>, NoMemory>
    requires arguments { argument_count verb + 3 ≡ length words.now }
    requires text { AreText (texts words.now) }
    ensures { IfOk result (λ command. command ≡ command_of index role verb (texts words.now)) }
{
    match verb {
        Verb::Stream => {
            let file = file_name(alloc, word(words, 3))?;
            Ok(Some(Command::Stream { file, index }))
        }
        Verb::Stream16 => {
            let file = file_name(alloc, word(words, 3))?;
            Ok(Some(Command::Stream16 { file, index }))
        }
        _ => Ok(plain_command(role, verb, words)),
    }
}

/// The number of the actor with this name, and its role.
#[tactic(auto, unfolding(crate::specs::Words::actor_from))]
pub(crate) fn actor_named(actors: &[ActorText], name: &[u8]) -> Option<(u32, Role)>
    requires { length actors.now < 2 ^ 32 }
    ensures { result ≡ actor_from 0 actors.now name.now }
{
    for (place, actor) in actors.iter().enumerate() {
        if actor.name.bytes() == name {
            return Some((place as u32, actor.role));
        }
    }
    None
}

/// The meaning of an action line, where these actors are there and so many streams.
pub(crate) fn action_item(
    alloc: Global,
    actors: &[ActorText],
    stream: u32,
    words: &[&[u8]],
) -> Result<Item, LineFault>
    requires actors { length actors.now < 2 ^ 32 }
    requires words { 3 ≤ length words.now }
    requires text { AreText (texts words.now) }
    ensures { IsReading result (action_item actors.now stream (texts words.now)) }
{
    let Some((actor, role)) = actor_named(actors, word(words, 1)) else {
        return Err(LineFault::Refused(Cause::NoActor));
    };
    let Some(verb) = verb_of(role, word(words, 2), words.len() - 3) else {
        return Err(LineFault::Refused(Cause::BadCommand));
    };
    match command_of(alloc, stream, role, verb, words) {
        Ok(Some(command)) => Ok(Item::Action { actor, command }),
        Ok(None) => Err(LineFault::Refused(Cause::BadWord)),
        Err(_) => Err(LineFault::NoMemory),
    }
}
