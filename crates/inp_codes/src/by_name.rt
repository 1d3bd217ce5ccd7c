//! Rows with a name before its number.
ghost use Rattle.std.specs.Prelude.{◌≡◌};
ghost use Rattle.inp_codes.specs.ByName.{row_entries, GiveOwnNumbers};
ghost use Rattle.inp_codes.specs.Table.{number_in};

/// An array of the rows `NAME = number`, each a pair of the name's text and the number.
macro_rules! rows {
    ($($name:ident = $number:expr),* $(,)?) => {
        [$((stringify!($name), $number)),*]
    };
}

pub(crate) use rows;

/// The number in the first row of `name`, if there is one.
#[tactic(auto, unfolding(crate::specs::Table::number_in))]
#[cold]
#[inline(never)]
fn find_number<N: Copy>(rows: &[(&'static str, N)], name: &[u8]) -> Option<N>
    ensures { result ≡ number_in (row_entries rows.now) name.now }
{
    for &(text, number) in rows {
        if text.as_bytes() == name {
            return Some(number);
        }
    }
    None
}

/// The number of `name`. Its row is looked for at `place` first, which takes one comparison, and else among
/// all rows.
#[inline(always)]
pub(crate) fn number_at<N: Copy>(rows: &[(&'static str, N)], place: usize, name: &[u8]) -> Option<N>
    requires { GiveOwnNumbers rows.now }
    ensures { result ≡ number_in (row_entries rows.now) name.now }
{
    if place < rows.len() {
        let (text, number) = rows[place];
        if text.as_bytes() == name {
            return Some(number);
        }
    }
    find_number(rows, name)
}
