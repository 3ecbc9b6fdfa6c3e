//! `rcx` extracts the parasitics of routed layouts. All that it does is `rc_cli::run`.
#![tactic(auto)]

mod inputs;

use inputs::Inputs;
use rc_cli::{run, tell_no_memory, tell_usage};
use rc_io::RealSink;
use rc_sweep::CountMeter;
use rc_windows::FreeGate;
use std::process::ExitCode;
use std::rt::Env;
use std::{env, io};

/// The words after the program's name. It fails where one of them isn't text, or for want of memory.
fn words<R: Env + AllocGlobal>(rt: &R) -> io::Result<Vec<String>> {
    let mut words = Vec::new(rt.alloc());
    for word in env::args(rt)?.skip(1) {
        words.push(word)?;
    }
    Ok(words)
}

fn main(rt: HostRuntime) -> ExitCode {
    let mut err = RealSink::new(rt.stderr());
    let status = match words(&rt) {
        Ok(words) => run(
            &rt,
            rt.alloc(),
            &words,
            &mut Inputs::new(&rt),
            &mut RealSink::new(rt.stdout()),
            &mut err,
            &mut CountMeter::new(),
            &FreeGate,
        ),
        Err(error) if error.kind() == io::ErrorKind::OutOfMemory => tell_no_memory(&mut err),
        Err(_) => tell_usage(&mut err),
    };
    ExitCode::from(status)
}
