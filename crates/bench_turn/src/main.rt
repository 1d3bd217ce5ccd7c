//! Threads that make steps on devices: what `bench/turn` times.
//!
//! The words are THREADS DEVICES STEPS IN_TURN. The threads share the devices in equal parts, and each makes STEPS
//! steps on its device, IN_TURN of them in one turn. Then the program prints how many there were of each, and how many
//! steps all the histories have.
#![tactic(auto)]

mod load;
mod run;

use load::Load;
use run::run_all;
use std::alloc::Global;
use std::process::ExitCode;
use std::{env, io};

fn main(rt: HostRuntime) -> io::Result<ExitCode> {
    let alloc: Global = rt.alloc();
    let mut args = env::args(&rt)?;
    let _name = args.next();
    let load = Load::read(args.next(), args.next(), args.next(), args.next());
    let Some(load) = load else {
        println!(rt; "usage: bench_turn THREADS DEVICES STEPS IN_TURN")?;
        return Ok(ExitCode::from(2));
    };
    let Load {
        threads,
        devices,
        steps,
        ..
    } = load;
    let Some(entered) = run_all(&rt, alloc, &load) else {
        println!(rt; "out of memory")?;
        return Ok(ExitCode::from(5));
    };
    println!(rt; "threads {threads} devices {devices} steps {steps} entered {entered}")?;
    Ok(ExitCode::from(0))
}
