//! What a command has come to, before it is reported. A history stands only where one was written,
//! and a limit only in the script's fault that passes it.
ghost use Rattle.std.specs.Prelude.{◌≡◌};
ghost use Rattle.ft_runner.specs.Reports.{closed_of, fault_of, history_of, refusal_of, stopped};

use crate::reading::ReadFault;
use crate::report::Fault;
use ft_bank::Closed;
use ft_model::{Entry, Rule};
use ft_script::ScriptFault;
use std::alloc::Global;

/// What a command has come to.
#[derive(Drop)]
pub(crate) enum Outcome {
    /// All input was read and all output written: the history, which is empty where none is made,
    /// and what is left of the bank, where the containers were in one.
    Clean(Vec<Entry>, Option<Closed>),
    /// The text is no script: its first fault.
    Script(ScriptFault),
    /// The words of the command line aren't a command.
    Usage,
    /// The source failed.
    Read,
    /// The sink failed: the history of which a part was written, empty where none is made, and what
    /// is left of the bank.
    Write(Vec<Entry>, Option<Closed>),
    /// Memory ran out.
    Memory,
    /// More came than a script may have, or than a script and a transcript.
    TooLong,
    /// A transcript isn't legal: the place and the rule that is broken there.
    NotLegal(u64, Rule),
    /// The first line of a transcript that isn't in the grammar.
    Transcript(u32),
}

impl Outcome {
    /// What is reported of it.
    pub(crate) fn fault(&self) -> Fault
        ensures { result ≡ fault_of self.now }
    {
        match self {
            Outcome::Clean(..) => Fault::Clean,
            Outcome::Script(refused) => Fault::Script(refused.line, refused.kind),
            Outcome::Usage => Fault::Usage,
            Outcome::Read => Fault::Read,
            Outcome::Write(..) => Fault::Write,
            Outcome::Memory => Fault::Memory,
            Outcome::TooLong => Fault::TooLong,
            Outcome::NotLegal(place, rule) => Fault::NotLegal(*place, *rule),
            Outcome::Transcript(line) => Fault::Transcript(*line),
        }
    }

    /// The history, which is empty where there is none, and what is left of the bank.
    pub(crate) fn into_parts(self, alloc: Global) -> (Vec<Entry>, Option<Closed>)
        ensures history { result.0.items ≡ history_of self }
        ensures closed { result.1 ≡ closed_of self }
    {
        match self {
            Outcome::Clean(history, closed) => (history, closed),
            Outcome::Write(history, closed) => (history, closed),
            Outcome::Script(_)
            | Outcome::Usage
            | Outcome::Read
            | Outcome::Memory
            | Outcome::TooLong
            | Outcome::NotLegal(..)
            | Outcome::Transcript(_) => (Vec::new(alloc), None),
        }
    }

    /// A text is no script, or memory ran out before that was known.
    pub(crate) fn refused(refused: ScriptFault) -> Outcome
        ensures { result ≡ refusal_of refused }
    {
        if refused.is_memory() {
            Outcome::Memory
        } else {
            Outcome::Script(refused)
        }
    }

    /// Reading has stopped before the end.
    pub(crate) fn stopped(fault: ReadFault) -> Outcome
        ensures { result ≡ stopped fault }
    {
        match fault {
            ReadFault::Failed => Outcome::Read,
            ReadFault::Memory => Outcome::Memory,
            ReadFault::TooLong => Outcome::TooLong,
        }
    }
}
