//! Names laid out so that a number is the index of its name.
ghost use Rattle.std.specs.Prelude.{◌≡◌, option_copied};
ghost use Rattle.inp_codes.specs.ByNumber.{texts, name_at};

/// An array of the names, from the number 0 on. `_` is the empty text, for a number that has no name.
macro_rules! names {
    ($($name:tt)*) => {
        [$($crate::by_number::name_text!($name)),*]
    };
}

/// The text of a name, or the empty text for `_`.
macro_rules! name_text {
    (_) => {
        ""
    };
    ($name:ident) => {
        stringify!($name)
    };
}

pub(crate) use name_text;
pub(crate) use names;

/// The name that stands at the index `number`, if one does.
pub(crate) fn name_at(names: &[&'static str], number: u16) -> Option<&'static str>
    ensures { option_copied result ≡ name_at (texts names.now) number }
{
    let name = names.get(number as usize)?;
    if name.is_empty() { None } else { Some(name) }
}
