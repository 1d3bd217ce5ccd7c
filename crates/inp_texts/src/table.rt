//! Words that stand for something.
ghost use Rattle.std.specs.Prelude.{◌≡◌};
ghost use Rattle.inp_texts.specs.Table.{named, rows_of};

/// What the first row with this word says. The rows are tried one by one.
pub fn named<T: Copy>(rows: &[(&'static str, T)], word: &[u8]) -> Option<T>
    ensures row { result ≡ named (rows_of rows.now) word.now }
{
    for &(name, value) in rows {
        if name.as_bytes() == word {
            return Some(value);
        }
    }
    None
}
