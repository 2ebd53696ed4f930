//! Reads transcripts.
ghost use Rattle.ft_model.specs.Histories.{cursors_of};
ghost use Rattle.ft_model.specs.Parts.{IsEntryOf, IsReplyOf};
ghost use Rattle.ft_model.specs.Landed.{is_landed_call};
ghost use Rattle.ft_model.specs.Scripts.{IsCallOf, IsScript};
ghost use Rattle.ft_script.specs.Internal.Outcomes.{draft_of};
ghost use Rattle.ft_script.specs.Internal.Readers.{AddsContent, AddsEntry, IfFault, IsLine, IsReaderOf, NoContent, NoEntry, but_feed, is_feedless, refused, reported_line};
ghost use Rattle.ft_script.specs.Texts.{entry_line};
ghost use Rattle.ft_script.specs.Internal.Tokens.{tokens_of};
ghost use Rattle.ft_script.specs.Transcripts.{IsContentLine, IsFirstBad, IsReadable, IsTranscript, IsContentReply, IsWideCall, content_line};
ghost use Rattle.ft_script.specs.declared.fault.LineError.TheVariants as error;
ghost use Rattle.ft_script.specs.declared.transcript.TranscriptFault.TheVariants.{Line, Memory};
ghost use Rattle.std.specs.Prelude.{◌≡◌, ◌≤◌, ◌<◌, ◌↔◌, ◌⊎◌, ◌++◌, [], true, ℕ, IfErr, IfOk, IsTrue, MatchBool, MatchOption, OnErr, OnOk, length, map};

use crate::declared::is_call_of;
use crate::entries::{Reader, content_of, numbered_strings};
use crate::fault::{Fault, LineError};
use crate::forms::push_container;
use crate::print::push_entry_line;
use crate::shown::push_reply;
use crate::strings::Strings;
use crate::tokens::tokens_of;
use ft_model::{Entry, Reply, Script, ScriptParts};
use std::alloc::{AllocError, Global};
use thiserror::Error;

/// What a transcript says.
#[derive(Debug, Drop)]
pub struct Transcript {
    /// The entries, in its order.
    pub entries: Vec<Entry>,
    /// The lines of the contents below them, without their line feeds.
    pub world: Vec<Vec<u8>>,
}

/// Why bytes aren't read as a transcript.
#[derive(Clone, Copy, Debug, PartialEq, Eq, Hash, Error)]
pub enum TranscriptFault {
    /// The first line that is none of a transcript's, from 1. It stands still at the greatest `u32`.
    #[error("line {0} is none of a transcript's")]
    Line(u32),
    /// Memory ran out, which says nothing of the bytes.
    #[error("want of memory")]
    Memory,
}

impl From<AllocError> for TranscriptFault {
    ghost from_gives = { λ _ fault. fault ≡ Memory };

    fn from(_: AllocError) -> Self {
        TranscriptFault::Memory
    }
}

/// Reads the transcript of a script: the lines of entries, and then those of contents, each exactly
/// as it is printed.
pub fn read_transcript(
    alloc: Global,
    script: &Script,
    bytes: &[u8],
) -> Result<Transcript, TranscriptFault>
    // The bytes are the lines of the entries, and then those of the contents,
    ensures read { IfOk result (λ transcript. IsTranscript script.now bytes.now transcript.entries.items (map (λ text. text.items) transcript.world.items)) }
    // or this line is the first that is none, unless memory ran out.
    ensures fault { IfErr result (λ fault. (fault ≡ Memory) ⊎ ((number : ℕ) × (fault ≡ Line number) × IsFirstBad script.now bytes.now number)) }
{
    read_lines(alloc, script.parts(), bytes)
}

/// Reads the lines of a script's transcript.
fn read_lines(
    alloc: Global,
    script: &ScriptParts,
    bytes: &[u8],
) -> Result<Transcript, TranscriptFault>
    requires { IsScript script.now }
    ensures read { IfOk result (λ transcript. IsTranscript script.now bytes.now transcript.entries.items (map (λ text. text.items) transcript.world.items)) }
    ensures fault { IfErr result (λ fault. (fault ≡ Memory) ⊎ ((number : ℕ) × (fault ≡ Line number) × IsFirstBad script.now bytes.now number)) }
{
    let strings = numbered_strings(alloc, script.strings.as_slice())?;
    let mut reader = Reader::new(alloc, script)?;
    let mut transcript = Transcript::empty(alloc);
    let mut printed = Vec::new(alloc);
    let mut number: u32 = 1;
    let mut rest = bytes;
    while !rest.is_empty() {
        let Some(parts) = split_line(rest) else {
            return Err(TranscriptFault::Line(number));
        };
        let read = read_line(
            alloc,
            script,
            &strings,
            &mut reader,
            parts.0,
            &mut printed,
            &mut transcript,
        );
        reported(read, number)?;
        number = number.saturating_add(1);
        rest = parts.1;
    }
    Ok(transcript)
}

impl Transcript {
    /// Nothing is said.
    fn empty(alloc: Global) -> Self
        ensures entries { result.entries.items ≡ [] }
        ensures world { result.world.items ≡ [] }
    {
        Transcript {
            entries: Vec::new(alloc),
            world: Vec::new(alloc),
        }
    }
}

/// The first line, with its line feed, and what stands below it.
fn split_line(text: &[u8]) -> Option<(&[u8], &[u8])>
    ensures { MatchOption result (is_feedless text.now ≡ true) (λ parts. (text.now ≡ parts.0.now ++ parts.1.now) × IsLine parts.0.now) }
{
    match text.iter().position(|b| *b == b'\n') {
        Some(feed) => Some((&text[..feed + 1], &text[feed + 1..])),
        None => None,
    }
}

/// A line's answer, with the line's number.
fn reported(read: Result<(), LineError>, number: u32) -> Result<(), TranscriptFault>
    ensures { result ≡ reported_line read number }
{
    match read {
        Ok(()) => Ok(()),
        Err(LineError::Memory) => Err(TranscriptFault::Memory),
        Err(LineError::Fault(_)) => Err(TranscriptFault::Line(number)),
    }
}

/// Adds what a line says, which has its line feed. An `Err` leaves what stood there.
fn read_line(
    alloc: Global,
    script: &ScriptParts,
    strings: &Strings,
    reader: &mut Reader,
    line: &[u8],
    printed: &mut Vec<u8>,
    transcript: &mut Transcript,
) -> Result<(), LineError>
    requires rule { IsScript script.now }
    requires strings { strings.now ≡ script.now.strings }
    requires reader { IsReaderOf script.now (draft_of reader.old.draft) reader.old.cursors.items }
    requires line { IsLine line.now }
    ensures kept { OnOk result (IsReaderOf script.now (draft_of reader.new.draft) reader.new.cursors.items) }
    ensures read { OnOk result (let world = map (λ text. text.items) transcript.old.world.items in let after = map (λ text. text.items) transcript.new.world.items in AddsEntry script.now line.now transcript.old.entries.items world transcript.new.entries.items after ⊎ AddsContent script.now line.now transcript.old.entries.items world transcript.new.entries.items after) }
    ensures entries { OnErr result (transcript.new.entries.items ≡ transcript.old.entries.items) }
    ensures world { OnErr result (transcript.new.world.items ≡ transcript.old.world.items) }
    ensures fault { IfErr result (λ e. IfFault e (NoContent script.now line.now × (transcript.old.world.items ≡ [] → NoEntry script.now line.now))) }
{
    let tokens = tokens_of(alloc, line)?;
    if is_content(alloc, script, strings, &tokens, line, printed)? {
        let text = Vec::from_slice(alloc, &line[..line.len().saturating_sub(1)])?;
        transcript.world.push(text)?;
        return Ok(());
    }
    if !transcript.world.is_empty() {
        return Err(Fault::UnknownWord.into());
    }
    let entry = read_entry(alloc, script, strings, reader, &tokens, line, printed)?;
    transcript.entries.push(entry)?;
    Ok(())
}

/// The entry whose line this is. An `Err` may leave other cursors or strings to the reader.
fn read_entry(
    alloc: Global,
    script: &ScriptParts,
    strings: &Strings,
    reader: &mut Reader,
    tokens: &[&[u8]],
    line: &[u8],
    printed: &mut Vec<u8>,
) -> Result<Entry, LineError>
    requires rule { IsScript script.now }
    requires strings { strings.now ≡ script.now.strings }
    requires reader { IsReaderOf script.now (draft_of reader.old.draft) reader.old.cursors.items }
    requires tokens { map (λ token. token.now) tokens.now ≡ tokens_of line.now }
    ensures kept { OnOk result (IsReaderOf script.now (draft_of reader.new.draft) reader.new.cursors.items) }
    ensures read { IfOk result (λ entry. IsReadable script.now entry × (line.now ≡ entry_line script.now entry)) }
    ensures fault { IfErr result (λ e. IfFault e (NoEntry script.now line.now)) }
{
    let entry = reader.entry_of(alloc, script, strings, tokens)?;
    if !is_readable(script, &entry) {
        return Err(Fault::Name.into());
    }
    let same = prints_entry(script, &entry, line, printed)?;
    if same {
        Ok(entry)
    } else {
        Err(Fault::UnknownWord.into())
    }
}

/// Whether the line is what an entry is printed as.
fn prints_entry(
    script: &ScriptParts,
    entry: &Entry,
    line: &[u8],
    printed: &mut Vec<u8>,
) -> Result<bool, AllocError>
    requires { IsEntryOf script.now entry.now }
    ensures { IfOk result (λ is. IsTrue is ↔ (line.now ≡ entry_line script.now entry.now)) }
{
    printed.clear();
    push_entry_line(printed, script, entry)?;
    Ok(printed.as_slice() == line)
}

/// Whether the call of an entry that was read names what the script declares, is one that a script
/// may have, and has a number.
fn is_readable(script: &ScriptParts, entry: &Entry) -> bool
    requires { entry.now.thread < length script.now.threads }
    ensures call { IsTrue result ↔ ((1 ≤ entry.now.index) × IsCallOf script.now (cursors_of script.now entry.now.thread) entry.now.call × (is_landed_call entry.now.call ≡ true)) }
    ensures wide { IsTrue result → IsWideCall entry.now.call }
{
    let thread = &script.threads.as_slice()[entry.thread as usize];
    entry.index >= 1 && is_call_of(script, thread.cursors.len(), &entry.call)
}

/// Whether this is the line of a content.
fn is_content(
    alloc: Global,
    script: &ScriptParts,
    strings: &Strings,
    tokens: &[&[u8]],
    line: &[u8],
    printed: &mut Vec<u8>,
) -> Result<bool, LineError>
    requires rule { IsScript script.now }
    requires strings { strings.now ≡ script.now.strings }
    requires tokens { map (λ token. token.now) tokens.now ≡ tokens_of line.now }
    requires line { IsLine line.now }
    ensures read { IfOk result (λ is. MatchBool is (IsContentLine script.now (but_feed line.now)) (NoContent script.now line.now)) }
    ensures memory { IfErr result (λ e. e ≡ error.Memory) }
{
    match content_of(alloc, script, strings, tokens) {
        Ok(read) => prints_content(script, read.0, &read.1, line, printed),
        Err(failure) => refused(failure),
    }
}

/// No content was read, unless memory ran out.
fn refused(failure: LineError) -> Result<bool, LineError>
    ensures { result ≡ refused failure }
{
    match failure {
        LineError::Fault(_) => Ok(false),
        LineError::Memory => Err(LineError::Memory),
    }
}

/// Whether the line is what the content of a container is printed as.
fn prints_content(
    script: &ScriptParts,
    container: u32,
    content: &Reply,
    line: &[u8],
    printed: &mut Vec<u8>,
) -> Result<bool, LineError>
    requires container { container < length script.now.containers }
    requires content { IsReplyOf (length script.now.strings) content.now }
    ensures read { IfOk result (λ is. IsTrue is ↔ (IsContentReply content.now × (line.now ≡ content_line script.now container content.now))) }
    ensures memory { IfErr result (λ e. e ≡ error.Memory) }
{
    if !is_whole(content) {
        return Ok(false);
    }
    printed.clear();
    push_content_line(printed, script, container, content)?;
    Ok(printed.as_slice() == line)
}

/// Whether the reply is what a container of any kind has.
fn is_whole(reply: &Reply) -> bool
    ensures { IsTrue result ↔ IsContentReply reply.now }
{
    matches!(reply, Reply::Dict(_) | Reply::List(_) | Reply::Set(_))
}

/// Adds the line of a content.
fn push_content_line(
    out: &mut Vec<u8>,
    script: &ScriptParts,
    container: u32,
    content: &Reply,
) -> Result<(), AllocError>
    requires container { container < length script.now.containers }
    requires content { IsReplyOf (length script.now.strings) content.now }
    ensures { OnOk result (out.new.items ≡ out.old.items ++ content_line script.now container content.now) }
{
    push_container(out, script, container)?;
    out.extend_from_slice(b" = ")?;
    push_reply(out, script, content)?;
    out.push(b'\n')?;
    Ok(())
}
