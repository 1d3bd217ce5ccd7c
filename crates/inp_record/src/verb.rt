//! The commands of actors, as words.
ghost use Rattle.std.specs.Prelude.{◌≡◌, IfSome, Some};
ghost use Rattle.inp_texts.specs.Table.{named, rows_of};
ghost use Rattle.inp_record.specs.Field.{clock_rows, other_clock_rows};
ghost use Rattle.inp_record.specs.Verb.{verb_rows, with_arguments, verb_of, is_verb_of, argument_count};

use inp_actors::Role;
use inp_model::Clock;
use inp_texts::named;

/// What a word has an actor do. The commands stand in the order of their rows (`specs/Action.antt`).
#[derive(Clone, Copy, Debug, PartialEq, Eq)]
pub(crate) enum Verb {
    Event,
    Tick,
    Inhibit,
    Uninhibit,
    Stream,
    Stream16,
    Open,
    Close,
    Grab,
    Ungrab,
    Revoke,
    Mask,
    Clock,
    Write,
    SetAxis,
    Read,
    Discard,
    Keys,
    Switches,
    Leds,
    Sounds,
    SyncSlots,
    Axis,
    Slots,
    Next,
    Skip,
    Follow,
    Force,
    Feedback,
}

impl Verb {
    /// Whether actors of this role have the command.
    #[tactic(auto, unfolding(crate::specs::Verb::command_row))]
    fn is_of(self, role: Role) -> bool
        ensures { result ≡ is_verb_of role self }
    {
        match self {
            Verb::Event | Verb::Tick | Verb::Inhibit => role == Role::Source,
            Verb::Uninhibit | Verb::Stream | Verb::Stream16 => role == Role::Source,
            Verb::Open | Verb::Close => matches!(role, Role::Client | Role::Tap | Role::Joy),
            Verb::Grab | Verb::Ungrab | Verb::Revoke => matches!(role, Role::Client | Role::Tap),
            Verb::Mask | Verb::Clock => matches!(role, Role::Client | Role::Tap),
            Verb::Write | Verb::SetAxis => matches!(role, Role::Client | Role::Tap),
            Verb::Read => matches!(role, Role::Tap | Role::Joy),
            Verb::Next | Verb::Skip | Verb::Follow | Verb::Force => role == Role::Client,
            Verb::Feedback => role == Role::Owner,
            _ => role == Role::Tap,
        }
    }

    /// How many words the command is given.
    #[tactic(auto, unfolding(crate::specs::Verb::command_row))]
    fn argument_count(self) -> usize
        ensures { result ≡ argument_count self }
    {
        match self {
            Verb::SetAxis => 7,
            Verb::Event | Verb::Write => 4,
            Verb::Mask => 3,
            Verb::Clock => 2,
            Verb::Tick | Verb::Inhibit | Verb::Stream | Verb::Stream16 => 1,
            Verb::Read | Verb::Axis | Verb::Slots => 1,
            Verb::Next | Verb::Skip | Verb::Feedback => 1,
            _ => 0,
        }
    }
}

/// Each word with its command.
#[tactic(auto, unfolding(crate::specs::Verb::verb_rows, crate::specs::Verb::command_row))]
fn verb_rows() -> &'static [(&'static str, Verb)]
    ensures { rows_of result.now ≡ verb_rows }
{
    static ROWS: [(&str, Verb); 29] = [
        ("event", Verb::Event),
        ("tick", Verb::Tick),
        ("inhibit", Verb::Inhibit),
        ("uninhibit", Verb::Uninhibit),
        ("stream", Verb::Stream),
        ("stream16", Verb::Stream16),
        ("open", Verb::Open),
        ("close", Verb::Close),
        ("grab", Verb::Grab),
        ("ungrab", Verb::Ungrab),
        ("revoke", Verb::Revoke),
        ("mask", Verb::Mask),
        ("clock", Verb::Clock),
        ("write", Verb::Write),
        ("setaxis", Verb::SetAxis),
        ("read", Verb::Read),
        ("discard", Verb::Discard),
        ("keys", Verb::Keys),
        ("switches", Verb::Switches),
        ("leds", Verb::Leds),
        ("sounds", Verb::Sounds),
        ("syncslots", Verb::SyncSlots),
        ("axis", Verb::Axis),
        ("slots", Verb::Slots),
        ("next", Verb::Next),
        ("skip", Verb::Skip),
        ("follow", Verb::Follow),
        ("force", Verb::Force),
        ("feedback", Verb::Feedback),
    ];
    &ROWS
}

/// The command, if actors of this role have it and it is given so many words.
fn with_arguments(role: Role, arguments: usize, verb: Verb) -> Option<Verb>
    ensures { result ≡ with_arguments role arguments (Some verb) }
{
    if verb.is_of(role) && verb.argument_count() == arguments {
        Some(verb)
    } else {
        None
    }
}

/// The command that a word is, of an actor of this role that is given so many words with it.
#[tactic(auto, unfolding(crate::specs::Verb::verb_of, crate::specs::Verb::verb_rows))]
pub(crate) fn verb_of(role: Role, word: &[u8], arguments: usize) -> Option<Verb>
    ensures verb { result ≡ verb_of role word.now arguments }
    ensures given { IfSome result (λ verb. argument_count verb ≡ arguments) }
{
    let verb = named(verb_rows(), word)?;
    with_arguments(role, arguments, verb)
}

/// Each word with its clock.
#[tactic(auto, unfolding(crate::specs::Field::clock_rows))]
fn clock_rows() -> &'static [(&'static str, Clock)]
    ensures { rows_of result.now ≡ clock_rows }
{
    static ROWS: [(&str, Clock); 3] = [
        ("realtime", Clock::Realtime),
        ("monotonic", Clock::Monotonic),
        ("boottime", Clock::Boottime),
    ];
    &ROWS
}

/// Each word with its clock, but for the monotonic one: whether it is that since boot.
#[tactic(auto, unfolding(crate::specs::Field::other_clock_rows))]
fn other_clock_rows() -> &'static [(&'static str, bool)]
    ensures { rows_of result.now ≡ other_clock_rows }
{
    static ROWS: [(&str, bool); 2] = [("realtime", false), ("boottime", true)];
    &ROWS
}

/// Whether the clock that a word is, other than the monotonic one, is that since boot.
pub(crate) fn other_clock_word(word: &[u8]) -> Option<bool>
    ensures { result ≡ named other_clock_rows word.now }
{
    named(other_clock_rows(), word)
}

/// The clock that a word is.
pub(crate) fn clock_word(word: &[u8]) -> Option<Clock>
    ensures { result ≡ named clock_rows word.now }
{
    named(clock_rows(), word)
}
