//! Reading one line.
ghost use Rattle.std.specs.Prelude.{◌≡◌, ◌+◌, ◌<◌, ◌≤◌, ◌^◌, length, take, true, OnOk, IfSome};
ghost use Rattle.inp_actors.specs.declared.role.Role.TheVariants as roles;
ghost use Rattle.inp_texts.specs.Line.{AreText};
ghost use Rattle.inp_record.specs.Fault.{IsReading};
ghost use Rattle.inp_record.specs.Keyword.{has_words, keyword_of};
ghost use Rattle.inp_codes.specs.ByNumber.{texts};
ghost use Rattle.inp_record.specs.declared.verb.Verb.TheVariants as verbs;
ghost use Rattle.inp_record.specs.Verb.{command_of};
ghost use Rattle.inp_record.specs.Words.{word, action_of, item_of};
ghost use Rattle.inp_record.specs.ItemsBefore.{ItemsBefore, context_of, IsWithinCounts};
ghost use Rattle.inp_record.specs.Meaning.{item_of_words, behind_words, behind_line, IsBehind};

use crate::Cause;
use crate::command_parser::{action_item, actor_named, event_command};
use crate::context::Context;
use crate::item::Item;
use crate::item_parser::{is_header, plain_item, word};
use crate::keyword::{Keyword, keyword_of};
use crate::line_fault::LineFault;
use crate::place::{Place, is_out_of_place};
use inp_actors::{ActorText, Role};
use inp_caps::CapsRefused;
use inp_texts::{is_comment, text_words};
use std::alloc::Global;

/// The meaning of a line with this keyword, by its words.
#[tactic(auto, using(crate::proofs::Inversions::item_of_action, crate::proofs::Inversions::item_of_plain), unfolding(crate::specs::Keyword::has_words))]
fn item_of(
    alloc: Global,
    actors: &[ActorText],
    streams: u32,
    keyword: Keyword,
    words: &[&[u8]],
) -> Result<Item, LineFault>
    requires count { has_words keyword (length words.now) ≡ true }
    requires actors { length actors.now < 2 ^ 32 }
    requires text { AreText (texts words.now) }
    ensures { IsReading result (item_of actors.now streams keyword (texts words.now)) }
{
    if keyword == Keyword::Action {
        return action_item(alloc, actors, streams, words);
    }
    match plain_item(keyword, words) {
        Some(item) => Ok(item),
        None => Err(LineFault::Refused(Cause::BadWord)),
    }
}

/// The second word, or an empty one where there is no second word.
fn second_word<'a>(words: &[&'a [u8]]) -> &'a [u8]
    ensures { result.now ≡ word 1 (texts words.now) }
{
    if words.len() > 1 {
        word(words, 1)
    } else {
        b"".as_slice()
    }
}

/// The keyword of a line, by its words, of which there is one. Most lines are actions.
#[tactic(auto, using(crate::proofs::Keywords::do_begins_action, crate::proofs::Keywords::action_has_words))]
fn line_keyword(version: u32, words: &[&[u8]]) -> Option<Keyword>
    requires { 1 ≤ length words.now }
    ensures keyword { result ≡ keyword_of version (word 0 (texts words.now)) (word 1 (texts words.now)) (length words.now) }
    ensures count { IfSome result (λ keyword. has_words keyword (length words.now) ≡ true) }
{
    let first = word(words, 0);
    if words.len() >= 3 && first == b"do".as_slice() {
        return Some(Keyword::Action);
    }
    keyword_of(version, first, second_word(words), words.len())
}

/// What the words of a line are, of which there is one.
#[tactic(auto, unfolding(crate::specs::Meaning::item_of_words))]
fn item_of_words(context: &Context, alloc: Global, words: &[&[u8]]) -> Result<Item, LineFault>
    requires some { 1 ≤ length words.now }
    requires actors { length context.now.actors < 2 ^ 32 }
    requires text { AreText (texts words.now) }
    ensures { IsReading result (item_of_words context.now (texts words.now)) }
{
    if context.place == Place::Start && !is_header(words) {
        return Err(LineFault::Refused(Cause::BadHeader));
    }
    let Some(keyword) = line_keyword(context.version, words) else {
        return Err(LineFault::Refused(Cause::BadLine));
    };
    if is_out_of_place(context.place, context.requested, keyword) {
        return Err(LineFault::Refused(Cause::OutOfPlace));
    }
    item_of(
        alloc,
        context.actors.as_slice(),
        context.streams,
        keyword,
        words,
    )
}

/// The source whose event a line injects, by its words, where it is such a line.
#[inline(always)]
fn event_source(context: &Context, words: &[&[u8]]) -> Option<u32>
    requires actors { length context.now.actors < 2 ^ 32 }
    ensures words { IfSome result (λ source. length words.now ≡ 7) }
    ensures item { IfSome result (λ source. item_of_words context.now (texts words.now)
        ≡ action_of source (command_of 0 roles.Source verbs.Event (texts words.now))) }
{
    if context.place == Place::Start || words.len() != 7 {
        return None;
    }
    if word(words, 0) != b"do".as_slice() || word(words, 2) != b"event".as_slice() {
        return None;
    }
    match actor_named(context.actors.as_slice(), word(words, 1)) {
        Some((source, Role::Source)) => Some(source),
        _ => None,
    }
}

/// Reads a line by which this source injects an event. It is of each version, and never one too many.
#[inline(always)]
fn read_event(context: &mut Context, source: u32, words: &[&[u8]]) -> Result<(), LineFault>
    requires room { IsWithinCounts context.old }
    requires words { length words.now ≡ 7 }
    requires item { item_of_words context.old (texts words.now)
        ≡ action_of source (command_of 0 roles.Source verbs.Event (texts words.now)) }
    ensures behind { (past : ItemsBefore) → context.old ≡ context_of past
        → IsBehind result (behind_words past (texts words.now)) context.new }
    ensures room { OnOk result (IsWithinCounts context.new) }
    ensures actors { OnOk result (context.new.actors ≡ context.old.actors) }
{
    match event_command(words) {
        Some(command) => context.add_line(source, command),
        None => Err(LineFault::Refused(Cause::BadWord)),
    }
}

/// Reads the words of a line, of which there is one, whatever it is.
#[inline(never)]
fn read_item(context: &mut Context, alloc: Global, words: &[&[u8]]) -> Result<(), LineFault>
    requires some { 1 ≤ length words.now }
    requires room { IsWithinCounts context.old }
    requires actors { length context.old.actors + 1 < 2 ^ 32 }
    requires text { AreText (texts words.now) }
    ensures behind { (past : ItemsBefore) → context.old ≡ context_of past
        → IsBehind result (behind_words past (texts words.now)) context.new }
    ensures room { OnOk result (IsWithinCounts context.new) }
    ensures actors { OnOk result
        (length context.new.actors ≤ length context.old.actors + 1) }
{
    let item = item_of_words(context, alloc, words)?;
    if context.is_later_command(&item) {
        return Err(LineFault::Refused(Cause::BadCommand));
    }
    if context.is_twice(&item) {
        return Err(LineFault::Refused(Cause::Twice));
    }
    if context.is_too_many(&item) {
        return Err(LineFault::Refused(Cause::TooMany));
    }
    if context.has_too_many_slots(&item) {
        return Err(LineFault::Refused(Cause::Caps(CapsRefused::BadSlots)));
    }
    context.enter(alloc, item)
}

/// Reads the words of a line. Most lines inject an event.
fn read_words(context: &mut Context, alloc: Global, words: &[&[u8]]) -> Result<(), LineFault>
    requires room { IsWithinCounts context.old }
    requires actors { length context.old.actors + 1 < 2 ^ 32 }
    requires text { AreText (texts words.now) }
    ensures behind { (past : ItemsBefore) → context.old ≡ context_of past
        → IsBehind result (behind_words past (texts words.now)) context.new }
    ensures room { OnOk result (IsWithinCounts context.new) }
    ensures actors { OnOk result
        (length context.new.actors ≤ length context.old.actors + 1) }
{
    if words.is_empty() {
        return Ok(());
    }
    if let Some(source) = event_source(context, words) {
        return read_event(context, source, words);
    }
    read_item(context, alloc, words)
}

/// Reads a line, which is the front of a text. After a fault the context is given up. The list is lent for the
/// words of the line.
#[tactic(auto, unfolding(crate::specs::Meaning::behind_line))]
pub(crate) fn read_line<'a>(
    context: &mut Context,
    alloc: Global,
    list: &mut Vec<&'a [u8]>,
    line: &'a [u8],
    text: &[u8],
) -> Result<(), LineFault>
    requires front { take (length line.now) text.now ≡ line.now }
    requires room { IsWithinCounts context.old }
    requires actors { length context.old.actors + 1 < 2 ^ 32 }
    ensures behind { (past : ItemsBefore) → context.old ≡ context_of past
        → IsBehind result (behind_line past line.now) context.new }
    ensures room { OnOk result (IsWithinCounts context.new) }
    ensures actors { OnOk result
        (length context.new.actors ≤ length context.old.actors + 1) }
{
    if is_comment(line) {
        return Ok(());
    }
    match text_words(line, text, list) {
        Ok(true) => read_words(context, alloc, list.as_slice()),
        Ok(false) => Err(LineFault::Refused(Cause::NotText)),
        Err(_) => Err(LineFault::NoMemory),
    }
}
