//! The words that say what a line is.
ghost use Rattle.std.specs.Prelude.{◌≡◌, true, unwrap_or, IfSome};
ghost use Rattle.inp_texts.specs.Table.{named, rows_of};
ghost use Rattle.inp_record.specs.declared.keyword.Keyword.TheVariants.{Filter};
ghost use Rattle.inp_record.specs.Keyword.{keyword_rows, filter_rows, keyword_under, has_words, keyword_of};

use inp_texts::named;

/// What a line is, as its first word says, and in a filter line the second one.
#[derive(Clone, Copy, Debug, PartialEq, Eq)]
pub(crate) enum Keyword {
    Header,
    Device,
    Udevice,
    Hint,
    Log,
    Clock,
    Slots,
    Kind,
    Code,
    Axis,
    /// A filter line whose second word names no kind of filter.
    Filter,
    Eat,
    Norepeat,
    Chord,
    Bounce,
    Source,
    Client,
    Tap,
    Joy,
    Owner,
    Action,
}

/// Each first word with its meaning.
#[tactic(auto, unfolding(crate::specs::Keyword::keyword_rows, crate::specs::Line::line_row))]
fn keyword_rows() -> &'static [(&'static str, Keyword)]
    ensures { rows_of result.now ≡ keyword_rows }
{
    static ROWS: [(&str, Keyword); 17] = [
        ("inputrecord", Keyword::Header),
        ("device", Keyword::Device),
        ("udevice", Keyword::Udevice),
        ("hint", Keyword::Hint),
        ("log", Keyword::Log),
        ("clock", Keyword::Clock),
        ("slots", Keyword::Slots),
        ("type", Keyword::Kind),
        ("cap", Keyword::Code),
        ("axis", Keyword::Axis),
        ("filter", Keyword::Filter),
        ("source", Keyword::Source),
        ("client", Keyword::Client),
        ("tap", Keyword::Tap),
        ("joy", Keyword::Joy),
        ("owner", Keyword::Owner),
        ("do", Keyword::Action),
    ];
    &ROWS
}

/// Each kind of filter, as the second word of a line names it.
#[tactic(auto, unfolding(crate::specs::Keyword::filter_rows, crate::specs::Line::line_row))]
fn filter_rows() -> &'static [(&'static str, Keyword)]
    ensures { rows_of result.now ≡ filter_rows }
{
    static ROWS: [(&str, Keyword); 4] = [
        ("eat", Keyword::Eat),
        ("norepeat", Keyword::Norepeat),
        ("chord", Keyword::Chord),
        ("bounce", Keyword::Bounce),
    ];
    &ROWS
}

/// The keyword of a filter line with this second word.
fn filter_keyword(second: &[u8]) -> Keyword
    ensures { result ≡ unwrap_or (named filter_rows second.now) Filter }
{
    match named(filter_rows(), second) {
        Some(keyword) => keyword,
        None => Keyword::Filter,
    }
}

/// The keyword of a line whose first word names this one, if the version has such a line.
fn keyword_under(version: u32, second: &[u8], keyword: Keyword) -> Option<Keyword>
    ensures { result ≡ keyword_under version second.now keyword }
{
    match keyword {
        Keyword::Filter | Keyword::Udevice | Keyword::Joy | Keyword::Owner if version == 1 => None,
        Keyword::Filter => Some(filter_keyword(second)),
        _ => Some(keyword),
    }
}

/// Whether a line of this keyword has so many words.
#[tactic(auto, unfolding(crate::specs::Keyword::has_words, crate::specs::Line::line_row))]
fn has_words(keyword: Keyword, count: usize) -> bool
    ensures { result ≡ has_words keyword count }
{
    match keyword {
        Keyword::Clock | Keyword::Code => count == 3,
        Keyword::Axis => count == 8,
        Keyword::Eat | Keyword::Chord | Keyword::Bounce => count == 4,
        Keyword::Filter => count >= 2,
        Keyword::Action => count >= 3,
        _ => count == 2,
    }
}

/// The keyword of a line under this version, with these first two words and so many words. A line of one word has no
/// keyword, whatever is passed for its second one.
#[tactic(auto, unfolding(crate::specs::Keyword::keyword_of))]
pub(crate) fn keyword_of(version: u32, first: &[u8], second: &[u8], count: usize) -> Option<Keyword>
    ensures keyword { result ≡ keyword_of version first.now second.now count }
    ensures count { IfSome result (λ keyword. has_words keyword count ≡ true) }
{
    let keyword = named(keyword_rows(), first)?;
    let keyword = keyword_under(version, second, keyword)?;
    if has_words(keyword, count) {
        Some(keyword)
    } else {
        None
    }
}
