// Where bytes go.
ghost use Rattle.std.specs.Prelude.{◌≡◌, ℕ, ◌<◌, ◌≤◌, List, [], Option, take, length, IfOk, OnOk, OnErr};
ghost use Rattle.inp_edge.specs.Count.{RoseUnlessSaturated};
ghost use Rattle.inp_edge.specs.Sink.{Appends, IsCutOff};

use crate::fault::Failed;

/// What bytes are written to.
///
/// A sink may tell contracts the bytes that were written to it. No call changes whether it does. A call
/// that succeeds was not at fault.
pub trait Sink {
    /// The bytes that were written, where they are told.
    ghost written: { Self → Option (List ℕ) };

    /// How often a call was at fault. It never falls, and stays at the greatest `u64`.
    ghost faults: { Self → ℕ };

    /// Writes some bytes from the front of `buf`, and answers how many: at least one.
    ///
    /// # Errors
    ///
    /// `Failed` only where the count of faults rose. Nothing was written then. A sink that takes nothing is at fault.
    fn write(&mut self, buf: &[u8]) -> Result<usize, Failed>
        requires bytes { 0 < length buf.now }
        ensures some { IfOk result (λ n. 0 < n) }
        ensures fits { IfOk result (λ n. n ≤ length buf.now) }
        ensures appended { IfOk result
            (λ n. Appends (take n buf.now) (written self.old) (written self.new)) }
        ensures unwritten { OnErr result (written self.new ≡ written self.old) }
        ensures never_falls { faults self.old ≤ faults self.new }
        ensures faults_stay { OnOk result (faults self.new ≡ faults self.old) }
        ensures failed { OnErr result (RoseUnlessSaturated (faults self.old) (faults self.new)) };
}

/// Writes all the bytes, in order. Where no byte is given it makes no call. It takes no memory.
///
/// # Errors
///
/// `Failed` exactly where the count of faults rose. What was written is then a front part of the bytes, and not all of
/// them.
pub fn write_all<O: Sink>(out: &mut O, bytes: &[u8]) -> Result<(), Failed>
    ensures appended { OnOk result (Appends bytes.now (O.written out.old) (O.written out.new)) }
    ensures cut_off { OnErr result (IsCutOff bytes.now (O.written out.old) (O.written out.new)) }
    ensures never_falls { O.faults out.old ≤ O.faults out.new }
    ensures faults_stay { OnOk result (O.faults out.new ≡ O.faults out.old) }
    ensures failed { OnErr result (RoseUnlessSaturated (O.faults out.old) (O.faults out.new)) }
    ensures no_call { bytes.now ≡ [] → out.new ≡ out.old }
{
    let mut done = 0;
    while done < bytes.len() {
        done += out.write(&bytes[done..])?;
    }
    Ok(())
}
