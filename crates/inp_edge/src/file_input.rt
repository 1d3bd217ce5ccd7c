// An input that reads real files.
ghost use Rattle.std.specs.Prelude.{◌≡◌, ◌+◌, ◌≤◌, ◌<◌, None, min, length, is_err, IsSome, IfOk, OnOk, OnErr, option_map};
ghost use Rattle.std.specs.Fn.{CalledAtMut};
ghost use Rattle.std.specs.Result.{result_ok};
ghost use Rattle.inp_edge.specs.Count.{LAST, faults_after};
ghost use Rattle.inp_edge.specs.FileInput.{BeginsBy, ReadsOnce};

use crate::count::count_fault;
use crate::fault::Failed;
use crate::input::Input;
use std::io::Read;
use std::marker::Model;
use std::rt::Files;
use std::{fs, io};

/// An input that reads real files, each call of which may fail.
///
/// As an input it tells no files and no bytes, since the runtime does not say what is on the disk. It is seen with the
/// file begun, as far as the runtime tells it: each read is one read by the runtime, and hands on its answer and its
/// bytes. Each error of the runtime is a fault, want of memory and an interrupted call among them.
#[derive(Drop)]
pub struct FileInput<'a, R: Files> {
    rt: &'a R,
    begun: Option<R::File>,
    given: u64,
    faults: u64,
}

impl<'a, R: Files> Model for FileInput<'a, R> {
    ghost use Rattle.std.specs.Prelude.{option_map};
    ghost use Rattle.inp_edge.specs.FileInput.{FileInputView};

    ghost Value = { FileInputView };

    ghost view = { λ f. record {
      begun = option_map R.File.remaining f.begun;
      given = f.given;
      faults = f.faults;
    } };
}

impl<'a, R: Files> FileInput<'a, R> {
    /// An input of the files of this runtime, at none of them yet.
    pub fn new(rt: &'a R) -> FileInput<'a, R>
        ensures begun { result.begun ≡ None }
        ensures given { result.given ≡ 0 }
        ensures faults { result.faults ≡ 0 }
    {
        FileInput {
            rt,
            begun: None,
            given: 0,
            faults: 0,
        }
    }

    /// How many calls were at fault. It stays at the greatest `u64`.
    pub fn faults(&self) -> u64
        ensures faults { result ≡ self.now.faults }
    {
        self.faults
    }
}

impl<R: Files> Input for FileInput<'_, R> {
    ghost files = { λ _. None };

    ghost left = { λ _. None };

    ghost given = { λ f. f.given };

    ghost faults = { λ f. f.faults };

    /// Opens the file. Where that fails no file is begun, whatever was begun before.
    fn begin(&mut self, name: &str) -> Result<(), Failed>
        ensures begun { OnOk result (IsSome self.new.begun) }
        ensures not_begun { OnErr result (self.new.begun ≡ None) }
        ensures restarts { self.new.given ≡ 0 }
        ensures never_falls { self.old.faults ≤ self.new.faults }
        ensures counts { self.new.faults ≡ faults_after self.old.faults (is_err result) }
    {
        let rt = self.rt;
        self.given = 0;
        begin_once(|| fs::open(rt, name), &mut self.begun, &mut self.faults)
    }

    /// Makes one read of the file begun, which stays begun. Where no file is begun, nothing is left.
    fn read(&mut self, buf: &mut [u8]) -> Result<usize, Failed>
        requires room { 0 < length buf.old }
        ensures fits { IfOk result (λ n. n ≤ length buf.new) }
        ensures one_read { ReadsOnce self.old.begun self.new.begun result buf.new }
        ensures given { IfOk result (λ n. self.new.given ≡ min (self.old.given + n) LAST) }
        ensures err { OnErr result (self.new.given ≡ self.old.given) }
        ensures never_falls { self.old.faults ≤ self.new.faults }
        ensures counts { self.new.faults ≡ faults_after self.old.faults (is_err result) }
    {
        let count = read_begun(&mut self.begun, buf, &mut self.faults)?;
        self.given = self.given.saturating_add(count as u64);
        Ok(count)
    }
}

// Opens a file by this call of the runtime, and begins it. A failure is counted, and no file is begun then.
fn begin_once<F: Drop, C: FnOnce() -> io::Result<F>>(
    open_file: C,
    begun: &mut Option<F>,
    faults: &mut u64,
) -> Result<(), Failed>
    requires callable { C.IsAlwaysCallable open_file }
    ensures one_call { (opened : _) × C.post open_file opened × BeginsBy opened begun.new result }
    ensures counts { faults.new ≡ faults_after faults.old (is_err result) }
    ensures never_falls { faults.old ≤ faults.new }
{
    *begun = None;
    match open_file() {
        Ok(file) => {
            *begun = Some(file);
            Ok(())
        }
        Err(_) => {
            count_fault(faults, true);
            Err(Failed)
        }
    }
}

// Reads from the file begun. Where no file was begun, nothing is left.
fn read_begun<F: Read>(
    begun: &mut Option<F>,
    buf: &mut [u8],
    faults: &mut u64,
) -> Result<usize, Failed>
    ensures fits { IfOk result (λ n. n ≤ length buf.new) }
    ensures one_read { ReadsOnce
        (option_map F.remaining begun.old) (option_map F.remaining begun.new) result buf.new }
    ensures counts { faults.new ≡ faults_after faults.old (is_err result) }
    ensures never_falls { faults.old ≤ faults.new }
{
    match begun {
        Some(file) => read_once(&mut |bytes: &mut [u8]| file.read(bytes), buf, faults),
        None => Ok(0),
    }
}

// Makes one read, by this call of the runtime, and answers what it answered. A failure is counted.
fn read_once<F: FnMut(&mut [u8]) -> io::Result<usize>>(
    call: &mut F,
    buf: &mut [u8],
    faults: &mut u64,
) -> Result<usize, Failed>
    requires callable { F.IsAlwaysCallable call.old }
    ensures one_call { (answer : _) × CalledAtMut F.FnMut call.old buf.old answer call.new buf.new
        × (result_ok result ≡ result_ok answer) }
    ensures counts { faults.new ≡ faults_after faults.old (is_err result) }
    ensures never_falls { faults.old ≤ faults.new }
{
    match call(buf) {
        Ok(count) => Ok(count),
        Err(_) => {
            count_fault(faults, true);
            Err(Failed)
        }
    }
}
