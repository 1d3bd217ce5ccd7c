//! Numbers at the end of a text.
ghost use Rattle.std.specs.Prelude.{◌≡◌, ◌++◌, decimal, OnOk, OnErr};
ghost use Rattle.std.specs.Fmt.{signed_decimal};

use crate::page::Page;
use inp_model::NoMemory;

/// Appends a number in decimal, without leading zeros.
///
/// # Errors
///
/// `NoMemory` where there is none for the digits, and the page is as before.
pub fn push_number(text: &mut Page, number: u64) -> Result<(), NoMemory>
    ensures pushed { OnOk result (text.new ≡ text.old ++ decimal number) }
    ensures kept { OnErr result (text.new ≡ text.old) }
{
    text.push_number(number)
}

/// Appends a number in decimal, behind `-` where it is negative, without leading zeros.
///
/// # Errors
///
/// `NoMemory` where there is none for the digits, and the page is as before.
pub fn push_signed(text: &mut Page, number: i32) -> Result<(), NoMemory>
    ensures pushed { OnOk result
        (text.new ≡ text.old ++ signed_decimal number) }
    ensures kept { OnErr result (text.new ≡ text.old) }
{
    text.push_signed(number)
}
