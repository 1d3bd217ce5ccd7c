//! Lines and their words.
ghost use Rattle.std.specs.Prelude.{◌≡◌, ◌≤◌, ◌<◌, ◌-◌, ◌++◌, IfOk, OnOk, map, not, true, false, length, take, drop, slice_index_or, [], ◌∷◌};
ghost use Rattle.std.specs.List.{slice_split};
ghost use Rattle.std.specs.Str.Lines.{strip_carriage_return};
ghost use Rattle.inp_texts.specs.Line.{is_blank, is_comment, is_line_feed, is_printed, is_text, lines_behind, words_of, word_alone, ArePrinted};

use crate::lanes::printed_lanes;
use inp_model::NoMemory;
use memchr::memchr;

/// Where the first line of a text ends: at its first line feed, or at the end of the text.
#[inline]
pub fn line_end(text: &[u8]) -> usize
    ensures within { result ≤ length text.now }
    ensures first { slice_split is_line_feed text.now
        ≡ take result text.now ∷ lines_behind (drop result text.now) }
{
    match memchr(b'\n', text) {
        Some(end) => end,
        None => text.len(),
    }
}

/// A line without the carriage return at its end, where it has one. A second one stays.
#[inline]
pub fn strip_carriage_return(line: &[u8]) -> &[u8]
    ensures stripped { result.now ≡ strip_carriage_return line.now }
    ensures front { take (length result.now) line.now ≡ result.now }
    ensures within { length result.now ≤ length line.now }
{
    match line {
        [front @ .., b'\r'] => front,
        _ => line,
    }
}

/// Whether a byte is a space or a tab.
fn is_blank(byte: u8) -> bool
    ensures { result ≡ is_blank byte }
{
    byte == b' ' || byte == b'\t'
}

/// Whether the first byte of a line that is not blank is `#`.
pub fn is_comment(line: &[u8]) -> bool
    ensures comment { result ≡ is_comment line.now }
{
    for byte in line {
        if !is_blank(*byte) {
            return *byte == b'#';
        }
    }
    false
}

/// Whether a byte is printable ASCII and no space.
fn is_printed(byte: u8) -> bool
    ensures { result ≡ is_printed byte }
{
    33 <= byte && byte <= 126
}

/// Where the first byte of a line from a place on stands that is not printed; the line's length where there
/// is none. The line is the front of a text, of which 16 bytes are looked at also where the line ends before.
#[inline(always)]
fn piece_end(line: &[u8], text: &[u8], from: usize) -> usize
    requires within { from ≤ length line.now }
    requires front { take (length line.now) text.now ≡ line.now }
    ensures after { from ≤ result }
    ensures within { result ≤ length line.now }
    ensures printed { ArePrinted line.now from result }
    ensures other { result < length line.now → is_printed (slice_index_or line.now result 0) ≡ false }
{
    let mut place = from;
    if text.len() - from >= 16 {
        let run = printed_lanes(text, from);
        place = line.len().min(from + run);
        if run < 16 {
            return place;
        }
    }
    while place < line.len() && is_printed(line[place]) {
        place += 1;
    }
    place
}

/// Adds the piece of a line between two places to a list, unless it is empty.
fn add_piece<'a>(
    line: &'a [u8],
    from: usize,
    to: usize,
    list: &mut Vec<&'a [u8]>,
) -> Result<(), NoMemory>
    requires order { from ≤ to }
    requires within { to ≤ length line.now }
    ensures added { OnOk result (map (λ word. word.now) list.new.items
        ≡ map (λ word. word.now) list.old.items ++ word_alone (take (to - from) (drop from line.now))) }
{
    if from < to {
        list.push(&line[from..to])?;
    }
    Ok(())
}

/// Whether a line, which is the front of a text, is text; then its words are what the list has, in place of
/// what it had. It takes memory where the list has no room for them.
pub fn text_words<'a>(
    line: &'a [u8],
    text: &[u8],
    list: &mut Vec<&'a [u8]>,
) -> Result<bool, NoMemory>
    requires front { take (length line.now) text.now ≡ line.now }
    ensures text { IfOk result (λ text. text ≡ is_text line.now) }
    ensures words { IfOk result (λ text. text ≡ true
        → map (λ word. word.now) list.new.items ≡ words_of line.now) }
{
    list.clear();
    let mut from = 0;
    'pieces: loop {
        let end = piece_end(line, text, from);
        add_piece(line, from, end, list)?;
        if end == line.len() {
            return Ok(true);
        }
        if !is_blank(line[end]) {
            return Ok(false);
        }
        from = end + 1;
    }
}

/// The first word of a line, and none where it is blank. It takes no memory.
pub fn first_word(line: &[u8]) -> &[u8]
    ensures word { result.now ≡ slice_index_or (words_of line.now) 0 [] }
{
    for piece in line.split(|byte| *byte == b' ' || *byte == b'\t') {
        if !piece.is_empty() {
            return piece;
        }
    }
    &[]
}
