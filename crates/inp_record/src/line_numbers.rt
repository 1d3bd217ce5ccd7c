//! Where the action lines of a text stand.
ghost use Rattle.std.specs.Prelude.{◌≡◌, ◌<◌, ◌^◌, length, slice_get, Some};
ghost use Rattle.inp_texts.specs.Line.{lines_of};
ghost use Rattle.inp_record.specs.LineNumber.{is_action_line, action_numbers};

use inp_texts::{first_word, strip_carriage_return};

/// Whether the first word of a line is `do`.
fn is_action_line(line: &[u8]) -> bool
    ensures { result ≡ is_action_line line.now }
{
    first_word(line) == b"do".as_slice()
}

/// The number in the text, from 1, of its action line `line`, from 0. It takes no memory.
pub fn line_number(text: &[u8], line: u32) -> u32
    requires few { length (lines_of text.now) < 2 ^ 32 }
    requires there { line < length (action_numbers 1 (lines_of text.now)) }
    ensures number { slice_get (action_numbers 1 (lines_of text.now)) line ≡ Some result }
{
    let mut number: u32 = 0;
    let mut left = line;
    for piece in text.split(|byte| *byte == b'\n') {
        number += 1;
        if is_action_line(strip_carriage_return(piece)) {
            if left == 0 {
                return number;
            }
            left -= 1;
        }
    }
    number
}
