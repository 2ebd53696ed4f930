//! The tool on the standard streams.
#![tactic(auto)]

use ft_io::{StdSink, StdSource};
use ft_runner::{end_without_memory, run_program};
use std::io::ErrorKind;
use std::process::ExitCode;
use std::rt::Env;
use std::{env, io};

fn main(rt: HostRuntime) -> ExitCode {
    let words = match command_line(&rt) {
        Ok(words) => words,
        Err(error) if error.kind() == ErrorKind::OutOfMemory => {
            return end_without_memory(&mut StdSink::new(rt.stderr()));
        }
        // Words that aren't UTF-8 are no command.
        Err(_) => Vec::new(rt.alloc()),
    };
    run_program(
        &rt,
        rt.alloc(),
        &words,
        &mut StdSource::new(rt.stdin()),
        &mut StdSink::new(rt.stdout()),
        &mut StdSink::new(rt.stderr()),
    )
}

/// The words of the command line, with the program's name first.
fn command_line<R: Env + AllocGlobal>(rt: &R) -> io::Result<Vec<String>> {
    Ok(env::args(rt)?.collect(rt.alloc())?)
}
