//! Runs scripts: on this thread in the order of their turns, or with their threads beside each other.
ghost use Rattle.ft_bank.specs.Closings.{shape_in};
ghost use Rattle.ft_engine.specs.Contents.{IsLegalWith};
ghost use Rattle.ft_runner.specs.declared.command.Subcommand.{Subcommand};
ghost use Rattle.ft_runner.specs.declared.command.Subcommand.TheVariants as subcommand;
ghost use Rattle.ft_runner.specs.Internal.ScriptRuns.{IsRunOf};
ghost use Rattle.ft_runner.specs.Reports.{ComesTo, MeansRun};
ghost use Rattle.ft_script.specs.ReadScripts.{read_script};
ghost use Rattle.ft_run_turns.specs.OrderedHistories.{IsOrderRunFor};
ghost use Rattle.ft_run_threads.specs.ClosedHistories.{HasEntriesOf};
ghost use Rattle.ft_run_threads.specs.Workers.{IsBankFor};
ghost use Rattle.std.specs.Prelude.{◌≡◌, ℕ, List, IfOk, Ok};

use crate::outcome::Outcome;
use crate::writing::{WriteFault, write_all};
use ft_bank::Closed;
use ft_history::legal_can_be_told;
use ft_io::Sink;
use ft_model::{Entry, Script, Shown};
use ft_run_threads::{Gate, run_workers};
use ft_run_turns::run_in_turns;
use std::alloc::{AllocError, Global};
use std::sync::Wait;
use std::thread::Threads;

/// What a script has come to: its history, what the containers are shown to have after it, and what
/// is left of the bank.
#[derive(Drop)]
pub(crate) struct ScriptRun {
    pub(crate) history: Vec<Entry>,
    pub(crate) contents: Vec<Shown>,
    pub(crate) closed: Closed,
}

/// Runs a script in the order of its turns.
pub(crate) fn run_turns(alloc: Global, script: &Script) -> Result<ScriptRun, AllocError>
    ensures run { IfOk result (λ run. IsRunOf script.now run) }
    ensures order { IfOk result (λ run. IsOrderRunFor script.now run.history.items) }
{
    let ran = run_in_turns(alloc, script)?;
    Ok(script_run(script, ran.history, ran.contents, ran.closed))
}

/// Runs the threads of a script beside each other.
pub(crate) fn run_threads<R: Threads + Wait + Sync, G: Gate>(
    rt: &R,
    alloc: Global,
    script: &Script,
    gate: &G,
) -> Result<ScriptRun, AllocError>
    ensures { IfOk result (λ run. IsRunOf script.now run) }
{
    let ran = run_workers(rt, alloc, script, gate)?;
    Ok(script_run(script, ran.history, ran.contents, ran.closed))
}

/// What a script has come to whose history is legal, with what plain containers have after its writes.
fn script_run(
    script: &Script,
    history: Vec<Entry>,
    contents: Vec<Shown>,
    closed: Closed,
) -> ScriptRun
    requires legal { IsLegalWith script.now history.items contents.items }
    requires bank { IsBankFor script.now (shape_in closed) }
    requires entries { HasEntriesOf closed history.items }
    ensures run { IsRunOf script.now result }
    ensures history { result.history.items ≡ history.items }
{
    let _ = script;
    legal_can_be_told();
    ScriptRun {
        history,
        contents,
        closed,
    }
}

/// Writes the history and the contents to which a script has come, and answers what it comes to.
pub(crate) fn put_run<K: Sink>(
    alloc: Global,
    sink: &mut K,
    script: &Script,
    run: ScriptRun,
) -> Outcome
    requires read { (bytes : List ℕ) × (read_script bytes ≡ Ok script.now) }
    requires run { IsRunOf script.now run }
    ensures { (command : Subcommand) (bytes : List ℕ) → read_script bytes ≡ Ok script.now
        → (command ≡ subcommand.Turns → IsOrderRunFor script.now run.history.items)
        → ComesTo (MeansRun command bytes) (K.stream sink.old) (K.stream sink.new) result }
{
    match write_all(alloc, sink, script, &run.history, &run.contents) {
        Ok(()) => Outcome::Clean(run.history, Some(run.closed)),
        Err(WriteFault::Failed) => Outcome::Write(run.history, Some(run.closed)),
        Err(WriteFault::Memory) => Outcome::Memory,
    }
}
