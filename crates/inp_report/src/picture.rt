//! How the buttons and axes of a joystick stand.
ghost use Rattle.std.specs.Prelude.{◌≡◌, ◌≤◌, ◌-◌, ◌++◌, codes, decimal, length, take, OnOk};
ghost use Rattle.std.specs.Fmt.{signed_decimal};
ghost use Rattle.inp_bits.specs.Bits.{true_indices, word_bits};
ghost use Rattle.inp_joy.specs.Codes.{axes};
ghost use Rattle.inp_joy.specs.Picture.{seen_as};
ghost use Rattle.inp_reader.specs.Reader.{axes_among};
ghost use Rattle.inp_report.specs.Words.{LINE_FEED, spaced};
ghost use Rattle.inp_report.specs.JoyReport.{picture_text};

use crate::words::{push_numbered, push_spaced};
use inp_bits::Bits;
use inp_caps::Caps;
use inp_joy::Picture;
use inp_model::{ABS_MAX, ABS_MT_SLOT, ABS_MT_TOOL_Y, EV_ABS, NoMemory};
use inp_texts::Page;

#[tactic(auto, unfolding(crate::specs::JoyReport::picture_text))]
pub(crate) fn push_picture(text: &mut Page, caps: &Caps, picture: &Picture) -> Result<(), NoMemory>
    ensures pushed { OnOk result
        (text.new
        ≡ text.old ++ picture_text caps.now (seen_as picture.now)) }
{
    push_buttons_line(text, picture.buttons)?;
    push_values_line(text, caps, &picture.axes)
}

fn push_buttons_line(text: &mut Page, buttons: u64) -> Result<(), NoMemory>
    ensures pushed { OnOk result
        (text.new
        ≡ text.old
        ++ (codes "buttons" ++ spaced decimal (true_indices (word_bits buttons)) ++ LINE_FEED)) }
{
    text.push_str("buttons")?;
    push_numbers(text, &bits_of(buttons))?;
    text.push_str("\n")?;
    Ok(())
}

// The 64 truth values of a word.
fn bits_of(word: u64) -> Bits<1>
    ensures bits { result ≡ word_bits word }
{
    let mut bits = Bits::new();
    bits.set_word(0, word);
    bits
}

// Appends the indices at which the list is true, ascending, each after a space.
fn push_numbers(text: &mut Page, flags: &Bits<1>) -> Result<(), NoMemory>
    ensures pushed { OnOk result
        (text.new
        ≡ text.old ++ spaced decimal (true_indices flags.now)) }
{
    for number in flags.ones() {
        push_spaced_number(text, number)?;
    }
    Ok(())
}

fn push_spaced_number(text: &mut Page, number: u32) -> Result<(), NoMemory>
    ensures pushed { OnOk result
        (text.new ≡ text.old ++ (codes " " ++ decimal number)) }
{
    push_numbered(text, " ", u64::from(number))
}

fn push_values_line(text: &mut Page, caps: &Caps, values: &[i16; 64]) -> Result<(), NoMemory>
    ensures pushed { OnOk result
        (text.new
        ≡ text.old
        ++ (codes "axes" ++ spaced signed_decimal (take (length (axes caps.now)) values.now) ++ LINE_FEED)) }
{
    text.push_str("axes")?;
    push_values(text, &values[..axis_count(caps)])?;
    text.push_str("\n")?;
    Ok(())
}

fn push_values(text: &mut Page, values: &[i16]) -> Result<(), NoMemory>
    ensures pushed { OnOk result
        (text.new ≡ text.old ++ spaced signed_decimal values.now) }
{
    for value in values {
        push_spaced(text, i32::from(*value))?;
    }
    Ok(())
}

// How many axes the device has as a joystick.
fn axis_count(caps: &Caps) -> usize
    ensures count { result ≡ length (axes caps.now) }
    ensures few { result ≤ 64 }
{
    axes_among(caps, 0, ABS_MT_SLOT) + axes_among(caps, ABS_MT_TOOL_Y + 1, ABS_MAX + 1)
}

// How many axes are supported from `first` to before `end`.
fn axes_among(caps: &Caps, first: u16, end: u16) -> usize
    requires order { first ≤ end }
    ensures count { result ≡ length (axes_among caps.now first (end - first)) }
    ensures few { result ≤ end - first }
{
    let mut count = 0;
    for code in first..end {
        if caps.supports(EV_ABS, code) {
            count += 1;
        }
    }
    count
}
