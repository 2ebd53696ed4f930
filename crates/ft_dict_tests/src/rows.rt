//! Two dicts and two sets of a bank, for tests that make calls on them in the order of a table, and what a row of
//! such a table wants.
ghost use Rattle.std.specs.Prelude.{◌≡◌, [], ◌∷◌, true, IfOk, map};
ghost use Rattle.ft_model.specs.declared.reply.Reply.{Reply};
ghost use Rattle.ft_model.specs.declared.script.Kind.TheVariants as kind;
ghost use Rattle.ft_bank.specs.Passes.{shape_of};
ghost use Rattle.ft_section.specs.declared.answers.Stamp.{Stamp};
ghost use Rattle.ft_section.specs.declared.answers.Step.TheVariants as steps;
ghost use Rattle.ft_section.specs.Ready.{IsReady};
ghost use Rattle.ft_model.specs.Worlds.{start_as};

use crate::opened::only;
use ft_bank::{Bank, Pass, Shape};
use ft_model::{Key, Kind, Raise, Reply, Value};
use ft_section::{Stamp, Step, new_passes_are_ready};
use std::alloc::{AllocError, Global};
use std::test::Fail;

/// What a call is to reply. Its integers and lists of integers stand as they are, so that a constant can hold it.
#[derive(Clone, Copy, Debug)]
pub enum Said {
    /// It was done, and has nothing to show.
    Done,
    /// This integer.
    Value(i64),
    /// The pair of these integers.
    Pair(i64, i64),
    /// Whether it is so.
    Truth(bool),
    /// How many.
    Count(u64),
    /// This exception.
    Raised(Raise),
    /// All pairs of a dict, in order.
    Pairs(&'static [(i64, i64)]),
    /// All elements of a set, in order.
    Elements(&'static [i64]),
}

/// What a call is to do.
#[derive(Clone, Copy, Debug)]
pub enum Wanted {
    /// It writes, as the write of this number.
    Writes(Said, u64),
    /// It writes nothing, after that many writes.
    Reads(Said, u64),
}

/// Two dicts, 0 and 1, and two sets, 2 and 3; that many tables of class 3, and that many of each greater class; one pass
/// with fifty thousand calls.
///
/// # Errors
///
/// An `AllocError` where memory runs out.
fn four(alloc: Global, least: u32, greater: u32) -> Result<Shape, AllocError>
    ensures { IfOk result (λ s. (s.kinds.items ≡ kind.Dict ∷ kind.Dict ∷ kind.Set ∷ kind.Set ∷ [])
        × (s.passes ≡ 1) × (s.calls ≡ 50000)) }
{
    let mut tables = vec![in alloc; least]?;
    for _ in 0u32..13 {
        tables.push(greater)?;
    }
    Ok(Shape {
        kinds: vec![in alloc; Kind::Dict, Kind::Dict, Kind::Set, Kind::Set]?,
        texts: Vec::new(alloc),
        tables,
        heap: 64,
        passes: 1,
        calls: 50_000,
    })
}

/// A new bank of two dicts and two sets with that many tables of class 3 and of each greater class, and its pass,
/// between two calls.
///
/// # Errors
///
/// A `Fail` where no bank may have that many tables, or memory runs out.
pub(crate) fn open_four(alloc: Global, least: u32, greater: u32) -> Result<(Bank, Pass), Fail>
    ensures kinds { IfOk result (λ made. (shape_of made.0).starts ≡ map start_as (kind.Dict ∷ kind.Dict ∷ kind.Set ∷ kind.Set ∷ [])) }
    ensures ready { IfOk result (λ made. IsReady made.0 made.1) }
{
    let shape = four(alloc, least, greater)?;
    if !shape.fits() {
        return Err(Fail::from("a small shape fits"));
    }
    let Ok((bank, passes)) = Bank::new(alloc, shape) else {
        return Err(Fail::from("there is memory"));
    };
    let Some(pass) = only(&bank, passes) else {
        return Err(Fail::from("there is a pass"));
    };
    new_passes_are_ready(&bank, &pass);
    Ok((bank, pass))
}

/// Whether these are the pairs.
fn are_pairs(found: &[(Key, Value)], wanted: &[(i64, i64)]) -> bool {
    if found.len() != wanted.len() {
        return false;
    }
    for place in 0..wanted.len() {
        let (key, value) = wanted[place];
        if found[place] != (Key::Int(key), Value::Int(value)) {
            return false;
        }
    }
    true
}

/// Whether these are the elements.
fn are_elements(found: &[Key], wanted: &[i64]) -> bool {
    if found.len() != wanted.len() {
        return false;
    }
    for place in 0..wanted.len() {
        if found[place] != Key::Int(wanted[place]) {
            return false;
        }
    }
    true
}

/// Whether the reply is as it was to be.
fn is_said(found: &Reply, wanted: &Said) -> bool {
    match (found, wanted) {
        (Reply::Done, Said::Done) => true,
        (Reply::Value(value), Said::Value(of)) => *value == Value::Int(*of),
        (Reply::Pair(key, value), Said::Pair(first, second)) => {
            *key == Key::Int(*first) && *value == Value::Int(*second)
        }
        (Reply::Truth(truth), Said::Truth(of)) => truth == of,
        (Reply::Count(count), Said::Count(of)) => count == of,
        (Reply::Raised(raise), Said::Raised(of)) => raise == of,
        (Reply::Dict(pairs), Said::Pairs(of)) => are_pairs(pairs.as_slice(), of),
        (Reply::Set(keys), Said::Elements(of)) => are_elements(keys.as_slice(), of),
        _ => false,
    }
}

/// Whether a reply and its stamp are as they were to be.
fn is_done(found: &Reply, stamp: &Stamp, wanted: &Wanted) -> bool {
    match wanted {
        Wanted::Writes(said, number) => {
            stamp.wrote && stamp.number == *number && is_said(found, said)
        }
        Wanted::Reads(said, number) => {
            !stamp.wrote && stamp.number == *number && is_said(found, said)
        }
    }
}

/// Whether a call was made as it was to be.
pub(crate) fn is_made(step: &Step, wanted: &Wanted) -> bool
    ensures { result ≡ true → (said : Reply) × (stamp : Stamp) × (step.now ≡ steps.Done said stamp) }
{
    match step {
        Step::Done(said, stamp) => is_done(said, stamp, wanted),
        _ => false,
    }
}
