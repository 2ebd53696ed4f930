//! Writing a history through one buffer; where the sink fails, what was put is a prefix of the
//! text.
ghost use Rattle.std.specs.Prelude.{◌≡◌, true, ◌++◌, length, All, OnOk, OnErr};
ghost use Rattle.ft_model.specs.Parts.{IsEntryOf, IsShownOf};
ghost use Rattle.ft_script.specs.ShownLines.{shown_lines};
ghost use Rattle.ft_script.specs.Texts.{entry_line};
ghost use Rattle.std.specs.List.{flat_map};
ghost use Rattle.ft_runner.specs.Transfers.{PutsPrefix, IsBuffered, PutsText, Writes};

use crate::limits::PIECE;
use ft_io::{Failed, Sink};
use ft_model::{Entry, Script, Shown};
use ft_script::{push_contents, push_entry};
use std::alloc::{AllocError, Global};

/// The buffer goes out when it has this many bytes, so that no line of up to 4,096 bytes makes it grow.
const FULL: usize = PIECE - 4_096;

/// Why a text was not written to its end.
#[derive(Clone, Copy)]
pub(crate) enum WriteFault {
    Failed,
    Memory,
}

impl From<Failed> for WriteFault {
    ghost use Rattle.std.specs.Prelude.{◌≡◌};
    ghost use Rattle.ft_runner.specs.declared.writing.WriteFault.TheVariants as fault;

    ghost from_gives = { λ _ e. e ≡ fault.Failed };

    fn from(_failed: Failed) -> WriteFault {
        WriteFault::Failed
    }
}

impl From<AllocError> for WriteFault {
    ghost use Rattle.std.specs.Prelude.{◌≡◌};
    ghost use Rattle.ft_runner.specs.declared.writing.WriteFault.TheVariants as fault;

    ghost from_gives = { λ _ e. e ≡ fault.Memory };

    fn from(_error: AllocError) -> WriteFault {
        WriteFault::Memory
    }
}

/// Puts the lines of the entries and of the contents, through one buffer.
pub(crate) fn write_all<K: Sink>(
    alloc: Global,
    sink: &mut K,
    script: &Script,
    entries: &[Entry],
    contents: &[Shown],
) -> Result<(), WriteFault>
    requires entries { All (IsEntryOf script.now) entries.now }
    requires contents { All (IsShownOf (length script.now.strings)) contents.now }
    ensures { Writes (K.stream sink.old) (flat_map (entry_line script.now) entries.now ++ shown_lines script.now contents.now) result (K.stream sink.new) }
{
    let mut buffer = Vec::with_capacity(alloc, PIECE)?;
    for entry in entries {
        push_entry(&mut buffer, script, entry)?;
        put_full(sink, &mut buffer)?;
    }
    push_contents(&mut buffer, script, contents)?;
    put_all(sink, &buffer)?;
    Ok(())
}

/// Puts what the buffer has, where it is full, and empties it.
fn put_full<K: Sink>(sink: &mut K, buffer: &mut Vec<u8>) -> Result<(), Failed>
    ensures ok { OnOk result (IsBuffered (K.stream sink.old) (K.stream sink.new) buffer.new.items buffer.old.items) }
    ensures err { OnErr result (PutsPrefix (K.stream sink.old) buffer.old.items true (K.stream sink.new)) }
{
    if buffer.len() >= FULL {
        put_all(sink, buffer)?;
        buffer.clear();
    }
    Ok(())
}

/// Puts all bytes, in order, in as few calls as the sink takes. Nothing is put after a put that failed.
pub(crate) fn put_all<K: Sink>(sink: &mut K, bytes: &[u8]) -> Result<(), Failed>
    ensures { PutsText (K.stream sink.old) bytes.now result (K.stream sink.new) }
{
    let mut done = 0;
    while done < bytes.len() {
        done += sink.put(&bytes[done..])?;
    }
    Ok(())
}
