//! The program: it makes the real input, the real output and a gate that is open, and runs over them.
//!
//! [`program::run`] promises that the words are those after the program's name, and that the status is that of the end
//! of `inputplay` (`ExitsWith`, `specs/Program.antt`). No contract of the runtime says which arguments a process was
//! given or what its status is afterwards, so of `main` nothing more is said than that it is safe.
#![tactic(auto)]

mod program;

use inp_edge::{FileInput, OpenGate, OutSink};
use program::{collected, run};
use std::alloc::Global;
use std::process::ExitCode;
use std::rt::Env;
use std::{env, io};

fn main(rt: HostRuntime) -> ExitCode {
    let alloc = rt.alloc();
    // Arguments that can't be read count as no words, and those are not accepted.
    let args = arguments(alloc, &rt).unwrap_or(Vec::new(alloc));
    let mut input = FileInput::new(&rt);
    let mut out = OutSink::new(&rt);
    run(&rt, alloc, &args, &mut input, &mut out, &OpenGate)
}

/// The arguments of the process, the program's name first.
fn arguments(alloc: Global, rt: &(impl Env + AllocGlobal)) -> io::Result<Vec<String>> {
    Ok(collected(alloc, env::args(rt)?)?)
}
