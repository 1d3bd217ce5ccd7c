//! The parser of words.
ghost use Rattle.std.specs.Prelude.{◌≡◌, ◌≤◌, ℕ, List, Option, None, Some, Err, true, false, map, string_bytes, IfOk, IfSome};
ghost use Rattle.std.specs.Option.{option_copied};
ghost use Rattle.inp_args.specs.Command.{is_given};
ghost use Rattle.inp_args.specs.Request.{IsInRange, number_or, request_of, requested};
ghost use Rattle.inp_args.specs.declared.words_fault.WordsFault.{WordsFault};

use crate::command::matches_in;
use crate::number::{count_of, idle_number, number_of};
use crate::{Request, WordsFault};
use inp_actors::FileName;
use std::alloc::Global;

/// Reads the words after the program's name.
///
/// # Errors
///
/// - `Usage` exactly where the words are not accepted.
/// - `NoMemory` where memory runs out.
pub fn read_words(alloc: Global, words: &[String]) -> Result<Request, WordsFault>
    ensures request { IfOk result
        (λ request. requested (map string_bytes words.now) ≡ Some request) }
    ensures usage { result ≡ Err WordsFault.Usage
        → requested (map string_bytes words.now) ≡ None }
    ensures range { IfOk result IsInRange }
{
    let matches = matches_in(alloc, words)?;
    let file = matches.get_str("FILE");
    let number = matches.get_str("make");
    let count = matches.get_str("count");
    let bound = matches.get_str("idle");
    let history = is_given(matches.get_str("history"));
    let threads = is_given(matches.get_str("threads"));
    let idle = threads.then_some(idle_number(bound).ok_or(WordsFault::Usage)?);
    if is_given(matches.get_str("migrate")) {
        return migration_of(alloc, file, number, count, bound, history, idle);
    }
    request_of(alloc, file, number, count, history, idle)
}

// Whether a flag was given, by its text.
fn is_given(text: Option<&str>) -> bool
    ensures { result ≡ is_given (option_copied text.entry) }
{
    match text {
        Some(text) => text == "true",
        None => false,
    }
}

// What the texts of the arguments ask for beside `--migrate`.
fn migration_of(
    alloc: Global,
    file: Option<&str>,
    number: Option<&str>,
    count: Option<&str>,
    bound: Option<&str>,
    history: bool,
    idle: Option<u32>,
) -> Result<Request, WordsFault>
    ensures request { IfOk result (λ request. request_of (option_copied file.entry)
        (option_copied number.entry) (option_copied count.entry) (option_copied bound.entry)
        true history idle ≡ Some request) }
    ensures usage { result ≡ Err WordsFault.Usage → request_of (option_copied file.entry)
        (option_copied number.entry) (option_copied count.entry) (option_copied bound.entry)
        true history idle ≡ None }
    ensures range { IfOk result IsInRange }
{
    match (file, number, count, bound) {
        (Some(file), None, None, None) if !history && idle.is_none() => Ok(Request::Migrate {
            file: FileName::new(String::from_str(alloc, file)?),
        }),
        _ => Err(WordsFault::Usage),
    }
}

// What the texts of the arguments ask for without it, whatever the text of `--idle` is.
fn request_of(
    alloc: Global,
    file: Option<&str>,
    number: Option<&str>,
    count: Option<&str>,
    history: bool,
    idle: Option<u32>,
) -> Result<Request, WordsFault>
    requires bound { IfSome idle (λ n. (1 ≤ n) × (n ≤ 1000000000)) }
    ensures request { IfOk result (λ request. (bound : Option (List ℕ)) → request_of
        (option_copied file.entry) (option_copied number.entry) (option_copied count.entry) bound
        false history idle ≡ Some request) }
    ensures usage { result ≡ Err WordsFault.Usage → (bound : Option (List ℕ)) → request_of
        (option_copied file.entry) (option_copied number.entry) (option_copied count.entry) bound
        false history idle ≡ None }
    ensures range { IfOk result IsInRange }
{
    match (file, number, count) {
        (Some(file), None, None) => Ok(Request::Play {
            file: FileName::new(String::from_str(alloc, file)?),
            history,
            idle,
        }),
        (None, Some(number), count) if !history && idle.is_none() => {
            make_request(number, count).ok_or(WordsFault::Usage)
        }
        _ => Err(WordsFault::Usage),
    }
}

// A record is to be made, where both texts are numbers.
fn make_request(number: &str, count: Option<&str>) -> Option<Request>
    ensures made { result
        ≡ request_of None (Some number.now) (option_copied count.entry) None false false None }
    ensures range { IfSome result IsInRange }
{
    Some(Request::Make {
        number: number_of(number)?,
        count: count_of(count)?,
    })
}
