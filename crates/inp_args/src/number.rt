//! Numbers among words.
ghost use Rattle.std.specs.Prelude.{◌≡◌, ◌≤◌, IfSome};
ghost use Rattle.std.specs.Option.{option_copied};
ghost use Rattle.inp_args.specs.Number.{number_of};
ghost use Rattle.inp_args.specs.Request.{number_or};

/// The greatest count of frames (this project's choice).
const COUNT_MAX: u32 = 10_000;

/// The count of frames where none is given (this project's choice).
const COUNT_DEFAULT: u32 = 100;

/// The greatest number of reads in a row that may find nothing (this project's choice).
const IDLE_MAX: u32 = 1_000_000_000;

/// That number where none is given (this project's choice).
const IDLE_DEFAULT: u32 = 1_000_000;

// The number that a text is.
pub(crate) fn number_of(text: &str) -> Option<u32>
    ensures { result ≡ number_of text.now }
{
    text.parse().ok()
}

// The count that a text is, or the default where no text is given.
pub(crate) fn count_of(text: Option<&str>) -> Option<u32>
    ensures number { result ≡ number_or 100 10000 (option_copied text.entry) }
    ensures range { IfSome result (λ n. (1 ≤ n) × (n ≤ COUNT_MAX)) }
{
    number_or(COUNT_DEFAULT, COUNT_MAX, text)
}

// How many reads in a row may find nothing, by a text, or the default where no text is given.
pub(crate) fn idle_number(text: Option<&str>) -> Option<u32>
    ensures number { result ≡ number_or 1000000 1000000000 (option_copied text.entry) }
    ensures range { IfSome result (λ n. (1 ≤ n) × (n ≤ IDLE_MAX)) }
{
    number_or(IDLE_DEFAULT, IDLE_MAX, text)
}

// The number that a text is, where it is one from 1 to `most`, or `usual` where no text is given.
fn number_or(usual: u32, most: u32, text: Option<&str>) -> Option<u32>
    requires usual { (1 ≤ usual) × (usual ≤ most) }
    ensures number { result ≡ number_or usual most (option_copied text.entry) }
    ensures range { IfSome result (λ n. (1 ≤ n) × (n ≤ most)) }
{
    let Some(text) = text else {
        return Some(usual);
    };
    let number = number_of(text)?;
    if number < 1 || number > most {
        return None;
    }
    Some(number)
}
