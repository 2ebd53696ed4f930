//! The tool, over any source, sink and place for errors: the call that the program makes, whose
//! contract is the headline.
ghost use Rattle.ft_runner.specs.declared.command.Subcommand.TheVariants as subcommand;
ghost use Rattle.ft_runner.specs.declared.report.Fault.TheVariants as fault;
ghost use Rattle.ft_runner.specs.declared.command.Subcommand.{Subcommand};
ghost use Rattle.std.specs.Prelude.{◌≡◌, ◌≢◌, false, Ok, Option, Some, map, string_bytes, IfErr, IfNone, IfOk, IfSome};
ghost use Rattle.ft_runner.specs.Commands.{command_of};
ghost use Rattle.ft_runner.specs.Transfers.{Reported};
ghost use Rattle.ft_runner.specs.Reports.{closed_of, error_line, fault_of, has_line, history_of, status_of, ComesTo, IsCommandDone, IsReport, MeansRun};

use crate::checking::check_text;
use crate::command::{Subcommand, read_command};
use crate::errors::tell;
use crate::making::{make, make_turns};
use crate::outcome::Outcome;
use crate::reading::{read_all, read_input};
use crate::report::Report;
use crate::running::{put_run, run_threads, run_turns};
use ft_io::{Sink, Source};
use ft_run_threads::Gate;
use ft_script::parse;
use std::alloc::{AllocError, Global};
use std::sync::Wait;
use std::thread::Threads;

/// Does what the words of the command line ask, the program's name being the first of them. `run`
/// calls the gate round each call that a thread makes; no other command calls it.
pub fn run_tool<R: Threads + Wait + Sync, S: Source, K: Sink, E: Sink, G: Gate>(
    rt: &R,
    alloc: Global,
    words: &[String],
    source: &mut S,
    sink: &mut K,
    errors: &mut E,
    gate: &G,
) -> Report
    ensures { IsReport (map string_bytes words.now) (S.stream source.old) (S.stream source.new)
        (K.stream sink.old) (K.stream sink.new) (E.stream errors.old) (E.stream errors.new) result }
{
    match run_still(alloc, words, source, sink, errors) {
        Some(done) => done,
        None => {
            let outcome = run(rt, alloc, source, sink, gate);
            report(alloc, errors, outcome)
        }
    }
}

/// The whole work of the tool for a command that starts no thread. None where the command is
/// `run`, and then nothing is read or written.
pub fn run_still<S: Source, K: Sink, E: Sink>(
    alloc: Global,
    words: &[String],
    source: &mut S,
    sink: &mut K,
    errors: &mut E,
) -> Option<Report>
    ensures report { IfSome result (λ report. IsReport (map string_bytes words.now) (S.stream source.old) (S.stream source.new)
        (K.stream sink.old) (K.stream sink.new) (E.stream errors.old) (E.stream errors.new) report) }
    ensures run { IfNone result (command_of (map string_bytes words.now) ≡ Some subcommand.Run) }
    ensures untouched { IfNone result ((source.new ≡ source.old) × (sink.new ≡ sink.old) × (errors.new ≡ errors.old)) }
    // `run` has a report only where memory ran out before the command was known.
    ensures other { IfSome result (λ report. command_of (map string_bytes words.now) ≡ Some subcommand.Run → report.fault ≡ fault.Memory) }
{
    let outcome = perform(alloc, read_command(alloc, words), source, sink)?;
    Some(report(alloc, errors, outcome))
}

/// Puts the errors' line of what was done, where it has one, and reports it.
fn report<E: Sink>(alloc: Global, errors: &mut E, outcome: Outcome) -> Report
    ensures fault { result.fault ≡ fault_of outcome }
    ensures history { result.history.items ≡ history_of outcome }
    ensures closed { result.closed ≡ closed_of outcome }
    ensures status { result.status ≡ status_of result.fault }
    ensures reported { Reported (E.stream errors.old) (error_line outcome) (E.stream errors.new) }
    ensures untouched { has_line result.fault ≡ false → errors.new ≡ errors.old }
{
    tell(errors, &outcome);
    let fault = outcome.fault();
    let (history, closed) = outcome.into_parts(alloc);
    Report {
        status: fault.status(),
        fault,
        history,
        closed,
    }
}

/// Does what the words ask, but for the errors' line. None where they ask for `run`.
fn perform<S: Source, K: Sink>(
    alloc: Global,
    asked: Result<Option<Subcommand>, AllocError>,
    source: &mut S,
    sink: &mut K,
) -> Option<Outcome>
    ensures done { IfSome result (λ outcome. (command : Option Subcommand) → IfOk asked (λ found. found ≡ command)
        → IsCommandDone command (S.stream source.old) (S.stream source.new) (K.stream sink.old) (K.stream sink.new) outcome) }
    ensures unknown { IfSome result (λ outcome. IfErr asked (λ e. fault_of outcome ≡ fault.Memory)) }
    ensures run { IfNone result (asked ≡ Ok (Some subcommand.Run)) }
    ensures other { IfSome result (λ outcome. asked ≢ Ok (Some subcommand.Run)) }
    ensures untouched { IfNone result ((source.new ≡ source.old) × (sink.new ≡ sink.old)) }
{
    match asked {
        Ok(Some(Subcommand::Run)) => None,
        Ok(Some(Subcommand::Turns)) => Some(turns(alloc, source, sink)),
        Ok(Some(Subcommand::Check)) => Some(check(alloc, source, sink)),
        Ok(Some(Subcommand::Make(calls))) => Some(make(alloc, calls, sink)),
        Ok(Some(Subcommand::MakeTurns(calls))) => Some(make_turns(alloc, calls, sink)),
        Ok(None) => Some(Outcome::Usage),
        Err(AllocError) => Some(Outcome::Memory),
    }
}

/// Reads a script, a line and a transcript, and checks it.
fn check<S: Source, K: Sink>(alloc: Global, source: &mut S, sink: &mut K) -> Outcome
    ensures { IsCommandDone (Some subcommand.Check) (S.stream source.old) (S.stream source.new) (K.stream sink.old) (K.stream sink.new) result }
{
    match read_input(alloc, source) {
        Ok(input) => check_text(alloc, &input.bytes, input.separator, sink),
        Err(fault) => Outcome::stopped(fault),
    }
}

/// Reads a script, and runs it in the order of its turns.
fn turns<S: Source, K: Sink>(alloc: Global, source: &mut S, sink: &mut K) -> Outcome
    ensures { IsCommandDone (Some subcommand.Turns) (S.stream source.old) (S.stream source.new) (K.stream sink.old) (K.stream sink.new) result }
{
    match read_all(alloc, source) {
        Ok(bytes) => turns_text(alloc, &bytes, sink),
        Err(fault) => Outcome::stopped(fault),
    }
}

/// Runs the script that the bytes are in the order of its turns, and writes its history.
fn turns_text<K: Sink>(alloc: Global, bytes: &[u8], sink: &mut K) -> Outcome
    ensures { ComesTo (MeansRun subcommand.Turns bytes.now) (K.stream sink.old) (K.stream sink.new) result }
{
    let script = match parse(alloc, bytes) {
        Ok(script) => script,
        Err(refused) => return Outcome::refused(refused),
    };
    match run_turns(alloc, &script) {
        Ok(run) => put_run(alloc, sink, &script, run),
        Err(AllocError) => Outcome::Memory,
    }
}

/// Reads a script, and runs its threads beside each other.
fn run<R: Threads + Wait + Sync, S: Source, K: Sink, G: Gate>(
    rt: &R,
    alloc: Global,
    source: &mut S,
    sink: &mut K,
    gate: &G,
) -> Outcome
    ensures { IsCommandDone (Some subcommand.Run) (S.stream source.old) (S.stream source.new) (K.stream sink.old) (K.stream sink.new) result }
{
    match read_all(alloc, source) {
        Ok(bytes) => run_text(rt, alloc, &bytes, sink, gate),
        Err(fault) => Outcome::stopped(fault),
    }
}

/// Runs the threads of the script that the bytes are beside each other, and writes their history.
fn run_text<R: Threads + Wait + Sync, K: Sink, G: Gate>(
    rt: &R,
    alloc: Global,
    bytes: &[u8],
    sink: &mut K,
    gate: &G,
) -> Outcome
    ensures { ComesTo (MeansRun subcommand.Run bytes.now) (K.stream sink.old) (K.stream sink.new) result }
{
    let script = match parse(alloc, bytes) {
        Ok(script) => script,
        Err(refused) => return Outcome::refused(refused),
    };
    match run_threads(rt, alloc, &script, gate) {
        Ok(run) => put_run(alloc, sink, &script, run),
        Err(AllocError) => Outcome::Memory,
    }
}
