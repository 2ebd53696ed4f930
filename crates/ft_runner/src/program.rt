//! The program over its streams. It ends with the status of what is reported.
ghost use Rattle.ft_runner.specs.Reports.{error_line, status_of, IsReport};
ghost use Rattle.ft_runner.specs.Transfers.{Reported};
ghost use Rattle.ft_runner.specs.declared.outcome.Outcome.TheVariants as outcome;
ghost use Rattle.ft_runner.specs.declared.report.Fault.TheVariants as fault;
ghost use Rattle.ft_runner.specs.declared.report.Report.{Report};
ghost use Rattle.std.specs.Prelude.{◌≡◌, map, string_bytes};
ghost use Rattle.std.specs.Process.{exit_status};

use crate::errors::tell;
use crate::outcome::Outcome;
use crate::tool::run_tool;
use ft_io::{Sink, Source};
use ft_run_threads::NoGate;
use std::alloc::Global;
use std::process::ExitCode;
use std::sync::Wait;
use std::thread::Threads;

/// Does what the words of the command line ask, the program's name being the first of them, and
/// answers the number that the program ends with: the report's status.
pub fn run_program<R: Threads + Wait + Sync, S: Source, K: Sink, E: Sink>(
    rt: &R,
    alloc: Global,
    words: &[String],
    source: &mut S,
    sink: &mut K,
    errors: &mut E,
) -> ExitCode
    ensures { (report : Report) × (exit_status result ≡ report.status) × IsReport (map string_bytes words.now)
        (S.stream source.old) (S.stream source.new)
        (K.stream sink.old) (K.stream sink.new)
        (E.stream errors.old) (E.stream errors.new) report }
{
    let report = run_tool(rt, alloc, words, source, sink, errors, &NoGate);
    ExitCode::from(report.status)
}

/// Ends a program for whose command line there was no memory: the errors get the line for that, and
/// the answer is the number of such a report.
pub fn end_without_memory<E: Sink>(errors: &mut E) -> ExitCode
    ensures status { exit_status result ≡ status_of fault.Memory }
    ensures reported { Reported (E.stream errors.old) (error_line outcome.Memory) (E.stream errors.new) }
{
    let outcome = Outcome::Memory;
    tell(errors, &outcome);
    ExitCode::from(outcome.fault().status())
}
