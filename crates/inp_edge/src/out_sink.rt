// A sink that is the standard output.
ghost use Rattle.std.specs.Prelude.{◌≡◌, ◌≤◌, ◌<◌, None, length, is_err, IfOk};
ghost use Rattle.std.specs.Fn.{CalledAt};
ghost use Rattle.inp_edge.specs.Count.{faults_after};
ghost use Rattle.inp_edge.specs.OutSink.{IsAnswerFor};

use crate::count::count_fault;
use crate::fault::Failed;
use crate::sink::Sink;
use std::io;
use std::marker::Model;

/// The standard output of a runtime, each call of which may fail.
///
/// It tells contracts no bytes: it is seen as its count of faults. Each error of the runtime is a fault,
/// and so is a call that took nothing.
#[derive(Drop)]
pub struct OutSink<'a, R: Print> {
    rt: &'a R,
    faults: u64,
}

impl<'a, R: Print> Model for OutSink<'a, R> {
    ghost use Rattle.std.specs.Prelude.{ℕ};

    ghost Value = { ℕ };

    ghost view = { λ s. s.faults };
}

impl<'a, R: Print> OutSink<'a, R> {
    /// The standard output of this runtime.
    pub fn new(rt: &'a R) -> OutSink<'a, R>
        ensures faults { result ≡ 0 }
    {
        OutSink { rt, faults: 0 }
    }

    /// How many calls were at fault. It stays at the greatest `u64`.
    pub fn faults(&self) -> u64
        ensures faults { result ≡ self.now }
    {
        self.faults
    }
}

impl<R: Print> Sink for OutSink<'_, R> {
    ghost written = { λ _. None };

    ghost faults = { λ s. s };

    /// Makes one write by the runtime, and hands on its answer.
    fn write(&mut self, buf: &[u8]) -> Result<usize, Failed>
        requires bytes { 0 < length buf.now }
        ensures some { IfOk result (λ n. 0 < n) }
        ensures fits { IfOk result (λ n. n ≤ length buf.now) }
        ensures never_falls { self.old ≤ self.new }
        ensures counts { self.new ≡ faults_after self.old (is_err result) }
    {
        let rt = self.rt;
        write_once(
            &mut |bytes: &[u8]| rt.write_some(bytes),
            buf,
            &mut self.faults,
        )
    }
}

// Makes one write, by this call of the runtime, and answers what it answered. A failure is counted.
fn write_once<F: FnMut(&[u8]) -> io::Result<usize>>(
    call: &mut F,
    buf: &[u8],
    faults: &mut u64,
) -> Result<usize, Failed>
    requires callable { F.IsAlwaysCallable call.old }
    ensures one_call { (answer : _)
        × CalledAt F.FnMut call.old buf.now answer call.new × IsAnswerFor answer result }
    ensures counts { faults.new ≡ faults_after faults.old (is_err result) }
    ensures never_falls { faults.old ≤ faults.new }
{
    match call(buf) {
        Ok(count) if count > 0 => Ok(count),
        _ => {
            count_fault(faults, true);
            Err(Failed)
        }
    }
}
