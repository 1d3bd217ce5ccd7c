//! The command, and what it finds in words.
ghost use Rattle.std.specs.Prelude.{◌≡◌, ◌↔◌, true, false, map, string_bytes, IfOk, Err};
ghost use Rattle.clap.specs.Walk.{rule_of};
ghost use Rattle.clap.specs.Simple.{app_of};
ghost use Rattle.clap.specs.Values.{kind_of};
ghost use Rattle.inp_args.specs.Command.{command, flag, option, is_taken, HasTextsOf};
ghost use Rattle.inp_args.specs.declared.words_fault.WordsFault.{WordsFault};

use crate::WordsFault;
use clap::error::ErrorKind;
use clap::{Arg, ArgAction, ArgMatches, Command, Error};
use std::alloc::{AllocError, Global};

// What the command finds in the words.
pub(crate) fn matches_in<'a>(
    alloc: Global,
    words: &'a [String],
) -> Result<ArgMatches<'a>, WordsFault>
    ensures taken { IfOk result (λ _. is_taken (map string_bytes words.now) ≡ true) }
    ensures texts { IfOk result (HasTextsOf (map string_bytes words.now)) }
    ensures usage { result ≡ Err WordsFault.Usage → is_taken (map string_bytes words.now) ≡ false }
{
    match command(alloc)?.try_get_matches_from(words) {
        Ok(matches) => Ok(matches),
        Err(error) => Err(fault_of(&error)),
    }
}

// Why the command refuses words.
fn fault_of(error: &Error) -> WordsFault
    ensures { (result ≡ WordsFault.NoMemory) ↔ (kind_of error.now ≡ ErrorKind.OutOfMemory) }
{
    match error.kind() {
        ErrorKind::OutOfMemory => WordsFault::NoMemory,
        _ => WordsFault::Usage,
    }
}

// The command. Its words begin after the program's name.
fn command<'a>(alloc: Global) -> Result<Command<'a>, AllocError>
    ensures { IfOk result (λ made. app_of made ≡ command) }
{
    Command::new(alloc, "inputplay")
        .no_binary_name(true)
        .disable_help_flag(true)
        .arg(flag(alloc, "threads"))?
        .arg(flag(alloc, "history"))?
        .arg(flag(alloc, "migrate"))?
        .arg(option(alloc, "idle"))?
        .arg(option(alloc, "make"))?
        .arg(option(alloc, "count"))?
        .arg(Arg::new(alloc, "FILE"))
}

// `--NAME`.
fn flag(alloc: Global, name: &str) -> Arg<'_>
    ensures rule { rule_of result ≡ flag name.now }
    ensures local { result.global ≡ false }
{
    Arg::new(alloc, name).long(name).action(ArgAction::SetTrue)
}

// `--NAME TEXT` or `--NAME=TEXT`.
fn option(alloc: Global, name: &str) -> Arg<'_>
    ensures rule { rule_of result ≡ option name.now }
    ensures local { result.global ≡ false }
{
    Arg::new(alloc, name).long(name).action(ArgAction::Set)
}
