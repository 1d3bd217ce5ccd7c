// Where bytes come from.
ghost use Rattle.std.specs.Prelude.{◌≡◌, ℕ, ◌+◌, ◌<◌, ◌≤◌, ◌↔◌, ◌⊎◌, List, Option, min, take, length, vec_len, is_some, IfOk, OnOk, OnErr, IsErrOf, IfSome};
ghost use Rattle.inp_edge.specs.Count.{LAST, RoseUnlessSaturated};
ghost use Rattle.inp_edge.specs.File.{File, IsMissing, HasFile, HasLongerFile};
ghost use Rattle.inp_edge.specs.Input.{IsAtEnd, Takes};

use crate::fault::{Failed, ReadFault};
use std::alloc::Global;

/// The greatest number of bytes that one input may have: 16 MiB, this project's choice.
pub const INPUT_LIMIT: usize = 16_777_216;

const _: () = prove!(INPUT_LIMIT == 16 * 1024 * 1024);

// How many bytes `read_all` asks for at once.
const PIECE: usize = 4096;

/// Files that are read by name, one at a time.
///
/// An input may tell contracts its files, and the bytes left of the file that it is at. No call changes the files, or
/// whether the bytes are told. A call that succeeds was not at fault.
pub trait Input {
    /// The files, where they are told.
    ghost files: { Self → Option (List File) };

    /// The bytes left of the file begun, where they are told.
    ghost left: { Self → Option (List ℕ) };

    /// How many bytes were given since the last `begin`. It stays at the greatest `u64`.
    ghost given: { Self → ℕ };

    /// How often a call was at fault. It never falls, and stays at the greatest `u64`.
    ghost faults: { Self → ℕ };

    /// Goes to the start of the file of this name.
    ///
    /// All its bytes are left then, or none after an error.
    ///
    /// # Errors
    ///
    /// `Failed` only where the count of faults rose, or where no file has this name.
    fn begin(&mut self, name: &str) -> Result<(), Failed>
        ensures files_stay { files self.new ≡ files self.old }
        ensures stays_told { is_some (left self.new) ≡ is_some (left self.old) }
        ensures restarts { given self.new ≡ 0 }
        ensures opened { OnOk result (IfSome (left self.new) (HasFile (files self.old) name.now)) }
        ensures found { OnOk result (¬ (IsMissing (files self.old) name.now)) }
        ensures closed { OnErr result (IsAtEnd (left self.new)) }
        ensures never_falls { faults self.old ≤ faults self.new }
        ensures faults_stay { OnOk result (faults self.new ≡ faults self.old) }
        ensures failed { OnErr result
            (RoseUnlessSaturated (faults self.old) (faults self.new)
            ⊎ IsMissing (files self.old) name.now) };

    /// Takes bytes off the front of what is left, writes them to the front of `buf`, and answers how many they are.
    /// They are at most as many as `buf` has, and 0 only at the end.
    ///
    /// # Errors
    ///
    /// `Failed` only where the count of faults rose. Nothing was taken then.
    fn read(&mut self, buf: &mut [u8]) -> Result<usize, Failed>
        requires room { 0 < length buf.old }
        ensures files_stay { files self.new ≡ files self.old }
        ensures fits { IfOk result (λ n. n ≤ length buf.new) }
        ensures taken { IfOk result (λ n. Takes (take n buf.new) (left self.old) (left self.new)) }
        ensures end { IfOk result (λ n. n ≡ 0 → IsAtEnd (left self.new)) }
        ensures counted { IfOk result (λ n. given self.new ≡ min (given self.old + n) LAST) }
        ensures left_stays { OnErr result (left self.new ≡ left self.old) }
        ensures given_stays { OnErr result (given self.new ≡ given self.old) }
        ensures never_falls { faults self.old ≤ faults self.new }
        ensures faults_stay { OnOk result (faults self.new ≡ faults self.old) }
        ensures failed { OnErr result (RoseUnlessSaturated (faults self.old) (faults self.new)) };
}

/// Reads the whole file of this name, to its end.
///
/// # Errors
///
/// - `Failed` exactly where the count of faults rose, or where no file has this name.
/// - `TooLong` exactly where the input gave more than `INPUT_LIMIT` bytes; the file has more then.
/// - `NoMemory` where memory is short for the bytes.
pub fn read_all<I: Input>(alloc: Global, input: &mut I, name: &str) -> Result<Vec<u8>, ReadFault>
    ensures files_stay { I.files input.new ≡ I.files input.old }
    ensures stays_told { is_some (I.left input.new) ≡ is_some (I.left input.old) }
    ensures never_falls { I.faults input.old ≤ I.faults input.new }

    // The whole file, read to its end: as many bytes as were given, with no byte left. Where the input tells its bytes
    // and its files, they are the bytes of the file of this name.
    ensures counted { IfOk result (λ bytes. vec_len bytes ≡ I.given input.new) }
    ensures ended { OnOk result (IsAtEnd (I.left input.new)) }
    ensures whole { IfOk result (λ bytes. IfSome (I.left input.new)
        (λ _. HasFile (I.files input.old) name.now bytes.items)) }

    // Failed where a call was at fault or no file has this name, and nowhere else.
    ensures failed { IsErrOf result ReadFault.Failed
        → (RoseUnlessSaturated (I.faults input.old) (I.faults input.new)
        ⊎ IsMissing (I.files input.old) name.now) }
    ensures faults_stay { ¬ (IsErrOf result ReadFault.Failed)
        → I.faults input.new ≡ I.faults input.old }
    ensures found { ¬ (IsErrOf result ReadFault.Failed)
        → ¬ (IsMissing (I.files input.old) name.now) }

    ensures too_long { IsErrOf result ReadFault.TooLong ↔ (INPUT_LIMIT < I.given input.new) }
    ensures longer { IsErrOf result ReadFault.TooLong → IfSome (I.left input.new)
        (λ _. HasLongerFile (I.files input.old) name.now INPUT_LIMIT) }
{
    input.begin(name)?;
    let mut bytes = Vec::new(alloc);
    let mut piece = [0u8; PIECE];
    loop {
        let count = input.read(&mut piece)?;
        if count == 0 {
            return Ok(bytes);
        }
        if count > INPUT_LIMIT - bytes.len() {
            return Err(ReadFault::TooLong);
        }
        bytes.extend_from_slice(&piece[..count])?;
    }
}
