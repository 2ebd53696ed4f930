//! What the tool answers its caller.
use ft_bank::Closed;
use ft_model::{Entry, Rule};

/// Why a call of the tool ended as it did.
#[derive(Clone, Copy, Debug, PartialEq, Eq, Hash)]
pub enum Fault {
    /// All input was read and all output written.
    Clean,
    /// The text is no script: the line and the kind of its first fault.
    Script(u32, u8),
    /// The words of the command line aren't a command.
    Usage,
    /// The source failed.
    Read,
    /// The sink failed.
    Write,
    /// Memory ran out.
    Memory,
    /// More came than a script may have, or than a script and a transcript.
    TooLong,
    /// A transcript isn't legal: the place and the rule that is broken there.
    NotLegal(u64, Rule),
    /// The first line of a transcript that isn't in the grammar, from 1; line 1 where no line `---`
    /// stands before it.
    Transcript(u32),
}

impl Fault {
    ghost use Rattle.std.specs.Prelude.{◌≡◌};
    ghost use Rattle.ft_runner.specs.Reports.{has_line, status_of};

    /// The status that the program ends with.
    pub fn status(self) -> u8
        ensures { result ≡ status_of self }
    {
        match self {
            Fault::Clean => 0,
            Fault::Script(..) => 1,
            Fault::Usage => 2,
            Fault::Read => 3,
            Fault::Write => 4,
            Fault::Memory => 5,
            Fault::TooLong => 6,
            Fault::NotLegal(..) => 7,
            Fault::Transcript(_) => 8,
        }
    }

    /// Whether it has a line in the errors: all but `Clean` and `NotLegal` have one.
    pub fn has_line(self) -> bool
        ensures { result ≡ has_line self }
    {
        !matches!(self, Fault::Clean | Fault::NotLegal(..))
    }
}

/// What a call of the tool has come to.
#[derive(Drop)]
pub struct Report {
    /// The status that the program ends with, which is the fault's.
    pub status: u8,
    pub fault: Fault,
    /// The history that was written, whole or in part, or summed up; empty where there is none.
    pub history: Vec<Entry>,
    /// What is left of the bank in which the containers were: there is one where a script was run and
    /// its history written, whole or in part, or summed up.
    pub closed: Option<Closed>,
}
