//! What the definitions compute of a few words and lines.
ghost use Rattle.inp_texts.specs.Examples.{CutsLines, CutsWords, ReadsNumbers, ReadsSigned, ReadsCodes};

/// What the definitions of this crate say of words and lines that were worked out by hand. It does nothing: its contract
/// is the point.
#[tactic(auto, unfolding(crate::proofs::Computation::words_computing))]
pub fn examples()
    ensures lines { CutsLines }
    ensures words { CutsWords }
    ensures numbers { ReadsNumbers }
    ensures signed { ReadsSigned }
    ensures codes { ReadsCodes }
{}
