//! Checks transcripts.
ghost use Rattle.std.specs.Prelude.{◌≡◌, ◌≤◌, ◌↔◌, ℕ, ◌∷◌, ◌++◌, List, [], All, IsTrue, Some, length, map, slice_get, MatchOption, IfErr, IfOk, IfSome};
ghost use Rattle.ft_model.specs.Parts.{IsEntryOf, IsWorldOf};
ghost use Rattle.ft_runner.specs.Checking.{IsSeparatorOf};
ghost use Rattle.ft_runner.specs.Findings.{broken_line, given_lines, rule_word, world_lines, IsFirstDifference, IsFound, IsVerdictOn};
ghost use Rattle.ft_io.specs.Streams.{Stream};
ghost use Rattle.ft_runner.specs.Reports.{ComesTo, MeansChecked};
ghost use Rattle.ft_runner.specs.Transfers.{PutsText};

use crate::errors::put_number;
use crate::outcome::Outcome;
use crate::separator::{after_separator, before_separator};
use crate::writing::put_all;
use ft_history::{Verdict, judge_with_world};
use ft_io::{Failed, Sink};
use ft_model::{Entry, Rule, Script, ScriptParts, Storage, World};
use ft_script::{TranscriptFault, parse, push_world_line, read_transcript};
use std::alloc::{AllocError, Global};

/// How the containers of histories are stored: on tables.
pub(crate) const STORED: Storage = Storage::Tables;

/// Checks the script and the transcript that the bytes are, the line that parts them beginning at
/// the separator, and writes what is found.
pub(crate) fn check_text<K: Sink>(
    alloc: Global,
    bytes: &[u8],
    separator: Option<usize>,
    sink: &mut K,
) -> Outcome
    requires { IsSeparatorOf bytes.now separator }
    ensures { ComesTo (MeansChecked bytes.now) (K.stream sink.old) (K.stream sink.new) result }
{
    match find(alloc, bytes, separator) {
        Ok(verdict) => put_verdict(alloc, sink, verdict),
        Err(outcome) => outcome,
    }
}

/// What is found of the transcript that the bytes have, or what they come to where they have none.
fn find(alloc: Global, bytes: &[u8], separator: Option<usize>) -> Result<Verdict, Outcome>
    requires { IsSeparatorOf bytes.now separator }
    ensures found { IfOk result (λ found. IsFound bytes.now found) }
    ensures refused { IfErr result (λ ended. (sink : Stream) → ComesTo (MeansChecked bytes.now) sink sink ended) }
{
    let script = match parse(alloc, before_separator(bytes, separator)) {
        Ok(script) => script,
        Err(refused) => return Err(Outcome::refused(refused)),
    };
    let Some(place) = separator else {
        return Err(Outcome::Transcript(1));
    };
    let transcript = match read_transcript(alloc, &script, after_separator(bytes, place)) {
        Ok(transcript) => transcript,
        Err(TranscriptFault::Line(line)) => return Err(Outcome::Transcript(line)),
        Err(TranscriptFault::Memory) => return Err(Outcome::Memory),
    };
    match verdict_on(alloc, &script, &transcript.entries, &transcript.world) {
        Ok(verdict) => Ok(verdict),
        Err(AllocError) => Err(Outcome::Memory),
    }
}

/// The first rule that the entries break, or else the first place at which the lines, which have no
/// line feeds, aren't those of the contents that they leave.
fn verdict_on(
    alloc: Global,
    script: &Script,
    entries: &[Entry],
    lines: &[Vec<u8>],
) -> Result<Verdict, AllocError>
    requires { All (IsEntryOf script.now) entries.now }
    ensures { IfOk result (λ found. IsVerdictOn script.now entries.now (map (λ text. text.items) lines.now) found) }
{
    let judged = judge_with_world(alloc, STORED, script, entries)?;
    if let Verdict::Not(..) = judged.verdict {
        return Ok(judged.verdict);
    }
    match first_difference(alloc, script.parts(), &judged.world, lines)? {
        None => Ok(Verdict::Legal),
        Some(line) => Ok(Verdict::Not(entries.len() as u64 + 1 + line as u64, Rule::World)),
    }
}

/// The first place at which the lines, which have no line feeds, aren't those of the contents.
fn first_difference(
    alloc: Global,
    script: &ScriptParts,
    world: &World,
    lines: &[Vec<u8>],
) -> Result<Option<usize>, AllocError>
    requires { IsWorldOf script.now world.now }
    ensures found { IfOk result (λ found. MatchOption found
        (given_lines (map (λ text. text.items) lines.now) ≡ world_lines script.now world.now)
        (IsFirstDifference (given_lines (map (λ text. text.items) lines.now)) (world_lines script.now world.now))) }
    ensures within { IfOk result (λ found. IfSome found (λ place. place ≤ length lines.now)) }
{
    let mut text = Vec::new(alloc);
    let mut place = 0;
    for (container, content) in script.containers.as_slice().iter().zip(world.contents()) {
        text.clear();
        push_world_line(&mut text, script, container, content)?;
        if !has_line(lines, place, &text) {
            return Ok(Some(place));
        }
        place += 1;
    }
    Ok(if place < lines.len() {
        Some(place)
    } else {
        None
    })
}

/// Whether a text, which has a line feed, is the line at a place, where there is one.
fn has_line(lines: &[Vec<u8>], place: usize, text: &[u8]) -> bool
    ensures { IsTrue result ↔ (slice_get (given_lines (map (λ line. line.items) lines.now)) place ≡ Some text.now) }
{
    match lines.get(place) {
        Some(line) => is_fed(text, line),
        None => false,
    }
}

/// Whether a text is the line with a line feed.
fn is_fed(text: &[u8], line: &[u8]) -> bool
    ensures { IsTrue result ↔ (line.now ++ 10 ∷ [] ≡ text.now) }
{
    match text.split_last() {
        Some((last, front)) => *last == b'\n' && front == line,
        None => false,
    }
}

/// Puts the line of a verdict, and answers what it comes to. A sink that fails changes nothing of what
/// is reported where a rule is broken.
fn put_verdict<K: Sink>(alloc: Global, sink: &mut K, verdict: Verdict) -> Outcome
    ensures { (bytes : List ℕ) → IsFound bytes verdict → ComesTo (MeansChecked bytes) (K.stream sink.old) (K.stream sink.new) result }
{
    match verdict {
        Verdict::Legal => match put_all(sink, b"legal\n") {
            Ok(()) => Outcome::Clean(Vec::new(alloc), None),
            Err(Failed) => Outcome::Write(Vec::new(alloc), None),
        },
        Verdict::Not(place, rule) => {
            let _ = put_broken(sink, place, rule);
            Outcome::NotLegal(place, rule)
        }
    }
}

/// Puts the line of a broken rule.
fn put_broken<K: Sink>(sink: &mut K, place: u64, rule: Rule) -> Result<(), Failed>
    ensures { PutsText (K.stream sink.old) (broken_line place rule) result (K.stream sink.new) }
{
    put_number(sink, b"not legal at ", place, b": ")?;
    put_all(sink, rule_word(rule).as_bytes())?;
    put_all(sink, b"\n")
}

/// What a rule is called.
fn rule_word(rule: Rule) -> &'static str
    ensures { result.now ≡ rule_word rule }
{
    match rule {
        Rule::Whole => "whole",
        Rule::Stamp => "stamp",
        Rule::Order => "order",
        Rule::Reply => "reply",
        Rule::Await => "await",
        Rule::Mark => "mark",
        Rule::Kept => "kept",
        Rule::Suspended => "suspended",
        Rule::Memory => "memory",
        Rule::Missing => "missing",
        Rule::World => "world",
    }
}
