//! What an export answers, as a number. The header names the same numbers.

use ft_facade::{OpenFault, Refusal};
use ft_texts::TextFault;

/// How a call from C has ended.
#[derive(Clone, Copy, Debug, PartialEq, Eq)]
pub(crate) enum Status {
    /// It is done.
    Done,
    /// The same call comes next, after a pause.
    Again,
    /// Out of memory.
    NoMemory,
    /// The session is offline.
    Offline,
    /// A container, a cursor or a string that the call names isn't there.
    Names,
    /// The sections don't allow the call.
    Sections,
    /// The session has made all its calls.
    CallsLeft,
    /// Another call of the session is in flight.
    InFlight,
    /// The struct isn't a call.
    NoCall,
    /// The sizes don't keep the limits of an engine.
    Sizes,
    /// The handle is of nothing, or of something else.
    NoHandle,
    /// The bytes aren't UTF-8.
    NotUtf8,
    /// All numbers of texts are given out.
    Full,
    /// There is no text with that number.
    NoText,
    /// The call raised an exception.
    Raised,
}

impl Status {
    /// The number of the status in the header.
    pub(crate) fn number(self) -> u32 {
        match self {
            Status::Done => 0,
            Status::Again => 1,
            Status::NoMemory => 2,
            Status::Offline => 3,
            Status::Names => 4,
            Status::Sections => 5,
            Status::CallsLeft => 6,
            Status::InFlight => 7,
            Status::NoCall => 8,
            Status::Sizes => 9,
            Status::NoHandle => 10,
            Status::NotUtf8 => 11,
            Status::Full => 12,
            Status::NoText => 13,
            Status::Raised => 14,
        }
    }
}

impl From<Refusal> for Status {
    fn from(cause: Refusal) -> Status {
        match cause {
            Refusal::InFlight => Status::InFlight,
            Refusal::CallsLeft => Status::CallsLeft,
            Refusal::Sections => Status::Sections,
            Refusal::Names => Status::Names,
        }
    }
}

impl From<OpenFault> for Status {
    fn from(fault: OpenFault) -> Status {
        match fault {
            OpenFault::Sizes => Status::Sizes,
            OpenFault::Memory => Status::NoMemory,
        }
    }
}

impl From<TextFault> for Status {
    fn from(fault: TextFault) -> Status {
        match fault {
            TextFault::NotUtf8 => Status::NotUtf8,
            TextFault::Full => Status::Full,
            TextFault::Memory => Status::NoMemory,
        }
    }
}
