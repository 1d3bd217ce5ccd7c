//! Why a line has no meaning.

ghost use Rattle.std.specs.Prelude.{◌≡◌};
ghost use Rattle.inp_record.specs.Cause.{cause_text};
ghost use Rattle.inp_record.specs.declared.cause.Cause.TheVariants.{Caps};

use inp_caps::CapsRefused;
use std::error::Error;
use std::fmt;

/// Why a line of a record has no meaning. The causes are tried in the order in which they stand here.
#[derive(Clone, Copy, Debug, PartialEq, Eq)]
pub enum Cause {
    /// A line that is no comment holds a byte other than a tab and printable ASCII.
    NotText,
    /// The first line that is not blank and no comment is neither `inputrecord 1` nor `inputrecord 2`, or there is no
    /// such line.
    BadHeader,
    /// The first word begins no line, or the line has another number of words.
    BadLine,
    /// The line stands where it may not.
    OutOfPlace,
    /// No actor has the name.
    NoActor,
    /// The actor has no such command, or the command has another number of words, or is `stream16` under version 1.
    BadCommand,
    /// A word does not have its form or is out of range.
    BadWord,
    /// What may be given once is given twice.
    Twice,
    /// One more than there may be.
    TooMany,
    /// No device has what the line describes.
    Caps(CapsRefused),
    /// A stream's bytes are not whole records, or the time of one is no time.
    BadStream,
}

impl Cause {
    /// The cause as it is printed, as `bad-line`.
    pub fn text(self) -> &'static str
        ensures text { result.now ≡ cause_text self }
    {
        match self {
            Cause::NotText => "not-text",
            Cause::BadHeader => "bad-header",
            Cause::BadLine => "bad-line",
            Cause::OutOfPlace => "out-of-place",
            Cause::NoActor => "no-actor",
            Cause::BadCommand => "bad-command",
            Cause::BadWord => "bad-word",
            Cause::Twice => "twice",
            Cause::TooMany => "too-many",
            Cause::Caps(why) => caps_refused_text(why),
            Cause::BadStream => "bad-stream",
        }
    }
}

/// Why a description was refused, as it is printed.
fn caps_refused_text(why: CapsRefused) -> &'static str
    ensures { result.now ≡ cause_text (Caps why) }
{
    match why {
        CapsRefused::BadCode => "bad-code",
        CapsRefused::BadAxis => "bad-axis",
        CapsRefused::BadSlots => "bad-slots",
        CapsRefused::BadHint => "bad-hint",
        CapsRefused::BadLog => "bad-log",
        CapsRefused::BadOffset => "bad-offset",
        CapsRefused::BadFilter => "bad-filter",
    }
}

impl fmt::Display for Cause {
    ghost use Rattle.std.specs.Prelude.{Some};
    ghost use Rattle.inp_record.specs.Cause.{cause_text};

    ghost output = { λ cause. Some (cause_text cause) };

    fn fmt<W: fmt::Write>(&self, f: &mut fmt::Formatter<W>) -> fmt::Result {
        f.write_str(self.text())
    }
}

impl Error for Cause {}
