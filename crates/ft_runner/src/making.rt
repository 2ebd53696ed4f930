//! Makes scripts, and sums up what comes of running one. Nothing is read, and the whole text is there
//! before any of it is put.
ghost use Rattle.std.specs.Prelude.{◌≡◌, ◌++◌, IfOk, OnOk, count_by, Some};
ghost use Rattle.std.specs.List.{flat_map};
ghost use Rattle.ft_io.specs.Streams.{Stream};
ghost use Rattle.ft_runner.specs.declared.command.Subcommand.TheVariants as subcommand;
ghost use Rattle.ft_runner.specs.Internal.Summaries.{is_counted, shown_length_in};
ghost use Rattle.ft_runner.specs.Making.{row_text, summary_text, IsSummary};
ghost use Rattle.ft_runner.specs.Reports.{ComesTo, IsCommandDone, MeansMade};

use crate::outcome::Outcome;
use crate::running::run_turns;
use crate::writing::put_all;
use ft_bank::Closed;
use ft_io::{Failed, Sink};
use ft_model::{Entry, Raise, Reply, Shown};
use ft_script::{make_script, parse};
use itoa::Buffer;
use std::alloc::{AllocError, Global};

/// What is counted of a history.
#[derive(Clone, Copy)]
enum Counted {
    Writes,
    KeyErrors,
    IndexErrors,
    MemoryErrors,
}

/// The summary of a made script, with the history of its turns and what is left of the bank.
#[derive(Drop)]
struct MadeSummary {
    text: Vec<u8>,
    history: Vec<Entry>,
    closed: Closed,
}

/// Writes the script of that many calls.
pub(crate) fn make<K: Sink>(alloc: Global, calls: u32, sink: &mut K) -> Outcome
    ensures { (source : Stream) → IsCommandDone (Some (subcommand.Make calls)) source source (K.stream sink.old) (K.stream sink.new) result }
{
    match make_script(alloc, calls) {
        Ok(text) => put_made(&text, sink, Vec::new(alloc), None),
        Err(AllocError) => Outcome::Memory,
    }
}

/// Runs the script of that many calls in the order of its turns, and writes what it came to as a
/// summary. The history and what is left of the bank are reported.
pub(crate) fn make_turns<K: Sink>(alloc: Global, calls: u32, sink: &mut K) -> Outcome
    ensures { (source : Stream) → IsCommandDone (Some (subcommand.MakeTurns calls)) source source (K.stream sink.old) (K.stream sink.new) result }
{
    match summary(alloc, calls) {
        Ok(
            MadeSummary {
                text,
                history,
                closed,
            },
        ) => put_made(&text, sink, history, Some(closed)),
        Err(AllocError) => Outcome::Memory,
    }
}

/// Puts a text that was made, and answers what it comes to, with the history and the closed bank that
/// are reported.
fn put_made<K: Sink>(
    text: &[u8],
    sink: &mut K,
    history: Vec<Entry>,
    closed: Option<Closed>,
) -> Outcome
    ensures { ComesTo (MeansMade (λ entries left made. (made ≡ text.now) × (entries ≡ history.items) × (left ≡ closed)))
        (K.stream sink.old) (K.stream sink.new) result }
{
    match put_all(sink, text) {
        Ok(()) => Outcome::Clean(history, closed),
        Err(Failed) => Outcome::Write(history, closed),
    }
}

/// The script of that many calls, run in the order of its turns, and its summary.
fn summary(alloc: Global, calls: u32) -> Result<MadeSummary, AllocError>
    ensures { IfOk result (λ made. IsSummary calls made.history.items (Some made.closed) made.text.items) }
{
    let made = make_script(alloc, calls)?;
    // What was made is a script, so it is refused only where memory runs out.
    let Ok(script) = parse(alloc, &made) else {
        return Err(AllocError);
    };
    let run = run_turns(alloc, &script)?;
    let text = summary_of(alloc, calls, &run.history, &run.contents)?;
    Ok(MadeSummary {
        text,
        history: run.history,
        closed: run.closed,
    })
}

/// The summary of a history and of the contents that it leaves.
fn summary_of(
    alloc: Global,
    calls: u32,
    entries: &[Entry],
    contents: &[Shown],
) -> Result<Vec<u8>, AllocError>
    ensures { IfOk result (λ text. text.items ≡ summary_text calls entries.now (shown_length_in contents.now)) }
{
    let rows = [
        ("calls", u64::from(calls)),
        ("writes", count(entries, Counted::Writes)),
        ("KeyError", count(entries, Counted::KeyErrors)),
        ("IndexError", count(entries, Counted::IndexErrors)),
        ("MemoryError", count(entries, Counted::MemoryErrors)),
        ("d", length_in(contents, 0)),
        ("l", length_in(contents, 1)),
        ("s", length_in(contents, 2)),
    ];
    let mut text = Vec::new(alloc);
    push_rows(&mut text, &rows)?;
    Ok(text)
}

/// How many entries are of a kind.
fn count(entries: &[Entry], kind: Counted) -> u64
    ensures { result ≡ count_by (is_counted kind) entries.now }
{
    entries
        .iter()
        .filter(|entry| is_counted(kind, entry))
        .count() as u64
}

/// Whether an entry is of a kind.
fn is_counted(kind: Counted, entry: &Entry) -> bool
    ensures { result ≡ is_counted kind entry.now }
{
    match kind {
        Counted::Writes => entry.wrote,
        Counted::KeyErrors => matches!(entry.reply, Reply::Raised(Raise::NoKey)),
        Counted::IndexErrors => matches!(entry.reply, Reply::Raised(Raise::NoIndex)),
        Counted::MemoryErrors => matches!(
            entry.reply,
            Reply::Raised(Raise::Memory(_) | Raise::Over | Raise::Heap)
        ),
    }
}

/// How many pairs, items or elements a container is shown to have.
fn length_in(contents: &[Shown], container: usize) -> u64
    ensures { result ≡ shown_length_in contents.now container }
{
    match contents.get(container) {
        Some(Shown::Dict(pairs)) => pairs.as_slice().len() as u64,
        Some(Shown::List(items)) => items.as_slice().len() as u64,
        Some(Shown::Set(elements)) => elements.as_slice().len() as u64,
        None => 0,
    }
}

/// Adds a line for each word and its number.
fn push_rows(out: &mut Vec<u8>, rows: &[(&str, u64)]) -> Result<(), AllocError>
    ensures { OnOk result (out.new.items ≡ out.old.items ++ flat_map (λ row. row_text (row.0.now, row.1)) rows.now) }
{
    for (word, number) in rows {
        push_row(out, word, *number)?;
    }
    Ok(())
}

/// Adds the line of a word and its number.
fn push_row(out: &mut Vec<u8>, word: &str, number: u64) -> Result<(), AllocError>
    ensures { OnOk result (out.new.items ≡ out.old.items ++ row_text (word.now, number)) }
{
    out.extend_from_slice(word.as_bytes())?;
    out.push(b' ')?;
    out.extend_from_slice(Buffer::new().format(number).as_bytes())?;
    out.push(b'\n')?;
    Ok(())
}
