//! Lists of codes: the bits of a reply, and the flags of a view.
ghost use Rattle.std.specs.Prelude.{◌≡◌, ◌≤◌, ◌++◌, codes, OnOk};
ghost use Rattle.inp_recon.specs.View.{key_count, bits_in};
ghost use Rattle.inp_texts.specs.Texts.{code_text};
ghost use Rattle.inp_report.specs.Words.{flags_text};

use inp_bits::Bits;
use inp_model::NoMemory;
use inp_texts::{Page, push_code};

pub(crate) fn push_bits(text: &mut Page, kind: u16, words: &[u64; 12]) -> Result<(), NoMemory>
    ensures pushed { OnOk result
        (text.new ≡ text.old ++ flags_text kind (bits_in key_count words.now)) }
{
    push_flags(text, kind, &bits_in(words))
}

// The bits that words tell, the lowest of each word first.
fn bits_in(words: &[u64; 12]) -> Bits<12>
    ensures bits { result ≡ bits_in key_count words.now }
{
    let mut bits = Bits::new();
    for at in 0..12 {
        bits.set_word(at as u32, words[at]);
    }
    bits
}

pub(crate) fn push_flags<const W: usize>(
    text: &mut Page,
    kind: u16,
    flags: &Bits<W>,
) -> Result<(), NoMemory>
    requires few { W ≤ 1024 }
    ensures pushed { OnOk result
        (text.new ≡ text.old ++ flags_text kind flags.now) }
{
    for code in flags.ones() {
        push_spaced_code(text, kind, code as u16)?;
    }
    Ok(())
}

fn push_spaced_code(text: &mut Page, kind: u16, code: u16) -> Result<(), NoMemory>
    ensures pushed { OnOk result
        (text.new ≡ text.old ++ (codes " " ++ code_text kind code)) }
{
    text.push_str(" ")?;
    push_code(text, kind, code)
}
