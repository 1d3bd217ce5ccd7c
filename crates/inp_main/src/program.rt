//! The program over any input, sink and gate.
ghost use Rattle.std.specs.Prelude.{◌≡◌, drop, map, string_bytes, IfOk};
ghost use Rattle.std.specs.Process.{exit_status};
ghost use Rattle.std.specs.Vec.Iter.{into_iter_items};
ghost use Rattle.inp_tool.specs.Edge.{reads_of, writes_of};
ghost use Rattle.inp_main.specs.Program.{ExitsWith};

use inp_edge::{Gate, Input, Sink};
use inp_tool::inputplay;
use std::alloc::{AllocError, Global};
use std::env::Args;
use std::process::ExitCode;
use std::sync::Wait;
use std::thread::Threads;

/// Calls `inputplay` with the words after the program's name, and ends with the status of its end.
///
/// The arguments are those of the process, the program's name first. Where the process has no arguments there are no
/// words.
pub fn run<R: Threads + Wait + Sync, I: Input, O: Sink, G: Gate>(
    rt: &R,
    alloc: Global,
    args: &[String],
    input: &mut I,
    out: &mut O,
    gate: &G,
) -> ExitCode
    ensures ends { ExitsWith (map string_bytes (drop 1 args.now))
        (reads_of I.files I.given I.left I.faults input.old input.new)
        (writes_of O.written O.faults out.old out.new)
        (exit_status result) }
{
    let end = inputplay(rt, alloc, words(args), input, out, gate);
    ExitCode::from(end.status)
}

/// The arguments after the program's name.
fn words(args: &[String]) -> &[String]
    ensures behind_the_name { result.now ≡ drop 1 args.now }
{
    args.get(1..).unwrap_or(&[])
}

/// All the arguments that are left of these, in order.
pub fn collected(alloc: Global, args: Args) -> Result<Vec<String>, AllocError>
    ensures all { IfOk result (λ all. all.items ≡ into_iter_items args) }
{
    args.collect(alloc)
}
