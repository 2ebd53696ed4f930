//! Reads scripts.
ghost use Rattle.ft_script.specs.Drafts.{empty_draft};
ghost use Rattle.ft_script.specs.Faults.{no_memory};
ghost use Rattle.ft_script.specs.Internal.Outcomes.{reported, draft_of};
ghost use Rattle.ft_script.specs.Lines.{lines_of};
ghost use Rattle.ft_script.specs.ReadScripts.{line_after, read_lines, read_script};
ghost use Rattle.std.specs.Prelude.{◌≡◌, ◌==◌, ◌⊎◌, IfErr, IfOk, IsUtf8, OnOk, Ok, Err, count_by};

use crate::draft::Draft;
use crate::fault::{Fault, LineError, ScriptFault};
use crate::lines::next_line;
use ft_model::Script;
use std::alloc::Global;

/// Reads a script.
pub fn parse(alloc: Global, bytes: &[u8]) -> Result<Script, ScriptFault>
    // The bytes are the text of the script,
    ensures read { IfOk result (λ script. read_script bytes.now ≡ Ok script) }
    // or have this fault first, unless memory ran out.
    ensures fault { IfErr result (λ fault. (fault ≡ no_memory) ⊎ (read_script bytes.now ≡ Err fault)) }
{
    check_encoding(bytes)?;
    let draft = read_lines(alloc, bytes)?;
    Ok(Script::new(draft.into_parts(alloc)?))
}

/// Refuses bytes that aren't UTF-8.
fn check_encoding(bytes: &[u8]) -> Result<(), ScriptFault>
    ensures ok { OnOk result (IsUtf8 bytes.now) }
    ensures fault { IfErr result (λ fault. read_script bytes.now ≡ Err fault) }
{
    match str::from_utf8(bytes) {
        Ok(_) => Ok(()),
        Err(error) => Err(Fault::Encoding.at(bad_line(&bytes[..error.valid_up_to()]))),
    }
}

/// The line after some bytes.
fn bad_line(front: &[u8]) -> u32
    ensures { result ≡ line_after (count_by (λ b. b == 10) front.now) }
{
    let feeds = front.iter().filter(|b| **b == b'\n').count();
    u32::try_from(feeds).unwrap_or(u32::MAX).saturating_add(1)
}

/// The draft after all lines.
fn read_lines(alloc: Global, text: &[u8]) -> Result<Draft, ScriptFault>
    requires { IsUtf8 text.now }
    ensures read { IfOk result (λ draft. read_lines 1 empty_draft (lines_of text.now) ≡ Ok (draft_of draft)) }
    ensures fault { IfErr result (λ fault. (fault ≡ no_memory) ⊎ (read_lines 1 empty_draft (lines_of text.now) ≡ Err fault)) }
{
    let mut draft = Draft::empty(alloc);
    let mut number: u32 = 1;
    let mut rest = text;
    while !rest.is_empty() {
        let (line, below) = next_line(rest);
        reported(draft.read_line(alloc, line), number)?;
        number = number.saturating_add(1);
        rest = below;
    }
    reported(draft.end_thread(alloc), number)?;
    Ok(draft)
}

/// A line's answer, with the line's number.
fn reported(read: Result<(), LineError>, line: u32) -> Result<(), ScriptFault>
    ensures { result ≡ reported read line }
{
    match read {
        Ok(()) => Ok(()),
        Err(LineError::Memory) => Err(ScriptFault::NO_MEMORY),
        Err(LineError::Fault(fault)) => Err(fault.at(line)),
    }
}
