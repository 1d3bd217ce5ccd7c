//! What holds of the tables as a whole. Each function is a law: it does nothing, and its contract is proved of the
//! definitions that the contracts of the look-ups name.
ghost use Rattle.inp_codes.specs.CodeNames.{CodeNamesAreEntries, CodesAreOneToOne, CodeNamesAreWords};
ghost use Rattle.inp_codes.specs.KindNames.{KindNamesAreEntries, KindsAreOneToOne, KindNamesAreWords};

/// The law of event types: those that `kind_name` names are the entries of the table, and `kind_of` is its inverse.
/// Each name is a word of upper-case letters, digits and underscores that begins with a letter.
pub fn kinds_are_one_to_one()
    ensures entries { KindNamesAreEntries }
    ensures one_to_one { KindsAreOneToOne }
    ensures words { KindNamesAreWords }
{}

/// The law of codes: those that `name_of` names are the entries of the table, and `code_of` is its inverse. Each name
/// is a word of upper-case letters, digits and underscores that begins with a letter.
pub fn codes_are_one_to_one()
    ensures entries { CodeNamesAreEntries }
    ensures one_to_one { CodesAreOneToOne }
    ensures words { CodeNamesAreWords }
{}
