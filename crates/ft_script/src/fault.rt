//! The faults of a script's text.
ghost use Rattle.ft_script.specs.Faults.{no_memory, fault_kind, which_of, fault_at, kind_text, limit_text};
ghost use Rattle.ft_script.specs.declared.fault.LineError.TheVariants.{Memory, Fault as broken};
ghost use Rattle.std.specs.Prelude.{◌≡◌, ◌==◌};

use std::alloc::{AllocError, AllocFailed};
use thiserror::Error;

/// A limit that a script passes.
#[derive(Clone, Copy, Debug, PartialEq, Eq, Hash)]
pub enum Which {
    /// More than 64 threads.
    Threads,
    /// More than 256 containers.
    Containers,
    /// More than 500,000 calls.
    Calls,
    /// More than 65,536 distinct strings.
    Strings,
    /// A string of more than 255 bytes.
    StringBytes,
    /// A class that isn't from 3 to 16.
    Class,
    /// A number of tables that isn't from 1 to 1,024.
    Tables,
    /// A number of heap places that isn't from 64 to 4,096 in steps of 64.
    Heap,
    /// More than 256 cursors of a thread.
    Cursors,
    /// More than 1,000,000 names in the `order` lines.
    Order,
}

/// What is wrong with a line.
#[derive(Clone, Copy)]
pub(crate) enum Fault {
    /// A byte that isn't UTF-8.
    Encoding,
    /// The line's first word isn't one that may stand there.
    UnknownWord,
    /// More or fewer words than the line's form has.
    WordCount,
    /// No integer, key or value where one must stand, or one that is out of 64 bits.
    Number,
    /// A string that isn't in a string's form, or isn't closed in its line.
    String,
    /// A word that isn't of a name's form, or names no container or cursor that stands above.
    Name,
    /// A second declaration of a container or thread, of one class's tables, or of the heap.
    NameTwice,
    /// A call that the container hasn't, or a second container of another kind.
    WrongKind,
    /// `end` where no section is open.
    EndWithoutBegin,
    /// A thread's calls end in an open section.
    BeginWithoutEnd,
    /// A seventeenth open section.
    TooDeep,
    /// A limit is passed.
    Limit(Which),
    /// An `order` line names no thread.
    OrderName,
    /// An `await` names no call of a thread that stands above, or stands in a section.
    Await,
}

/// Why a line isn't read.
#[derive(Clone, Copy)]
pub(crate) enum LineError {
    /// Memory ran out.
    Memory,
    /// The line's first fault.
    Fault(Fault),
}

/// The first fault of a script's text.
#[derive(Clone, Copy, Debug, PartialEq, Eq, Hash, Error)]
#[error("line {line}: fault of kind {kind}")]
pub struct ScriptFault {
    /// The line, from 1. It stands still at the greatest `u32`.
    pub line: u32,
    /// From 1 to 13, or 15, what is wrong with the text, in the order of `text`; 14 for out of
    /// memory.
    pub kind: u8,
    /// The limit that is passed, with kind 12.
    pub which: Option<Which>,
}

impl Fault {
    /// The number that a fault is reported by.
    fn kind(self) -> u8
        ensures { result ≡ fault_kind self }
    {
        match self {
            Fault::Encoding => 1,
            Fault::UnknownWord => 2,
            Fault::WordCount => 3,
            Fault::Number => 4,
            Fault::String => 5,
            Fault::Name => 6,
            Fault::NameTwice => 7,
            Fault::WrongKind => 8,
            Fault::EndWithoutBegin => 9,
            Fault::BeginWithoutEnd => 10,
            Fault::TooDeep => 11,
            Fault::Limit(_) => 12,
            Fault::OrderName => 13,
            Fault::Await => 15,
        }
    }

    /// The fault, reported at a line.
    pub(crate) fn at(self, line: u32) -> ScriptFault
        ensures { result ≡ fault_at line self }
    {
        let which = match self {
            Fault::Limit(which) => Some(which),
            _ => None,
        };
        ScriptFault {
            line,
            kind: self.kind(),
            which,
        }
    }
}

impl Which {
    /// `limit` and the limit's name.
    fn text(self) -> &'static str
        ensures { result.now ≡ limit_text self }
    {
        match self {
            Which::Threads => "limit threads",
            Which::Containers => "limit containers",
            Which::Calls => "limit calls",
            Which::Strings => "limit strings",
            Which::StringBytes => "limit string bytes",
            Which::Class => "limit class",
            Which::Tables => "limit tables",
            Which::Heap => "limit heap",
            Which::Cursors => "limit cursors",
            Which::Order => "limit order",
        }
    }
}

impl ScriptFault {
    /// Memory ran out.
    pub const NO_MEMORY: ScriptFault = ScriptFault {
        line: 1,
        kind: 14,
        which: None,
    };

    /// Whether memory ran out, which says nothing of the text.
    pub fn is_memory(&self) -> bool
        ensures { result ≡ (self.now.kind == 14) }
    {
        self.kind == Self::NO_MEMORY.kind
    }

    /// What the kind says, without the line. It is empty where the kind isn't one of a fault's.
    pub fn text(&self) -> &'static str
        ensures { result.now ≡ kind_text self.now.kind self.now.which }
    {
        match self.kind {
            1 => "not UTF-8",
            2 => "unknown word",
            3 => "wrong count of words",
            4 => "bad number",
            5 => "bad string",
            6 => "name",
            7 => "name twice",
            8 => "wrong kind",
            9 => "end without begin",
            10 => "begin without end",
            11 => "section too deep",
            12 => match self.which {
                Some(which) => which.text(),
                None => "limit",
            },
            13 => "order name",
            14 => "want of memory",
            15 => "await",
            _ => "",
        }
    }
}

impl From<AllocError> for ScriptFault {
    ghost from_gives = { λ _ fault. fault ≡ no_memory };

    fn from(_: AllocError) -> Self {
        ScriptFault::NO_MEMORY
    }
}

impl<T: Drop> From<AllocFailed<T>> for ScriptFault {
    ghost from_gives = { λ _ fault. fault ≡ no_memory };

    fn from(_: AllocFailed<T>) -> Self {
        ScriptFault::NO_MEMORY
    }
}

impl From<AllocError> for LineError {
    ghost from_gives = { λ _ error. error ≡ Memory };

    fn from(_: AllocError) -> Self {
        LineError::Memory
    }
}

impl<T: Drop> From<AllocFailed<T>> for LineError {
    ghost from_gives = { λ _ error. error ≡ Memory };

    fn from(_: AllocFailed<T>) -> Self {
        LineError::Memory
    }
}

impl From<Fault> for LineError {
    ghost from_gives = { λ fault error. error ≡ broken fault };

    fn from(fault: Fault) -> Self {
        LineError::Fault(fault)
    }
}
