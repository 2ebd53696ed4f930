//! How large an engine is, for whoever opens one: its containers by kind, its threads and its tables.
ghost use Rattle.std.specs.Prelude.{◌≡◌, ◌<◌, ◌+◌, ◌⊎◌, IfErr, IfOk, length};
ghost use Rattle.ft_facade.specs.declared.session.OpenFault.TheVariants as fault;
ghost use Rattle.ft_facade.specs.Sizes.{kinds_of};

use crate::session::OpenFault;
use ft_bank::Shape;
use ft_model::Kind;
use std::alloc::{AllocError, Global};

/// How many containers an engine has at most (profile).
const MOST_CONTAINERS: u64 = 256;
/// How many strings an engine has at most (profile).
const MOST_TEXTS: u32 = 65536;
/// How many cursors a session has at most: the room for them is taken when it is opened.
pub const MOST_CURSORS: u32 = 65536;

/// How large an engine is. Its containers are numbered from 0: the dicts first, then the lists, then the sets.
#[derive(Drop)]
pub struct Sizes {
    /// How many dicts; with the lists and the sets at most 256.
    pub dicts: u32,
    /// How many lists.
    pub lists: u32,
    /// How many sets.
    pub sets: u32,
    /// How many sessions, 1 to 64.
    pub threads: u32,
    /// How many calls each session may make.
    pub calls: u32,
    /// How many cursors each session has room for, at most 65,536. They are numbered from 0.
    pub cursors: u32,
    /// How many strings may be keys, at most 65,536. They are numbered from 0; a value may be any string.
    pub texts: u32,
    /// How many places for boxed values each session has, 64 to 4,096 in steps of 64: an integer outside -5..256 or a string
    /// takes one as a value, from when the session stores it until no container has it any more.
    pub heap: u32,
    /// How many tables of each class from 3 to 16, 1 to 1,024 of each.
    pub tables: Vec<u32>,
}

/// The kinds of so many dicts, lists and sets, by their numbers.
fn kinds(alloc: Global, dicts: u32, lists: u32, sets: u32) -> Result<Vec<Kind>, AllocError>
    ensures { IfOk result (λ kinds. kinds.items ≡ kinds_of dicts lists sets) }
{
    let mut kinds = Vec::from_elem(alloc, Kind::Dict, dicts as usize)?;
    let mut more = Vec::from_elem(alloc, Kind::List, lists as usize)?;
    kinds.append(&mut more)?;
    let mut last = Vec::from_elem(alloc, Kind::Set, sets as usize)?;
    kinds.append(&mut last)?;
    Ok(kinds)
}

/// The hash of each string: its number, as the hash of an integer is the integer (Python manual, Hashing of numeric
/// types). So strings that were numbered one after the other never meet in a table that has room for all.
fn hashes(alloc: Global, texts: u32) -> Result<Vec<u64>, AllocError>
    ensures { IfOk result (λ hashes. length hashes.items ≡ texts) }
{
    let mut hashes = Vec::with_capacity(alloc, texts as usize)?;
    for number in 0..texts {
        hashes.push(u64::from(number))?;
    }
    Ok(hashes)
}

impl Sizes {
    /// The shape of a bank of these sizes.
    ///
    /// # Errors
    ///
    /// `Sizes` where there are more than 256 containers, 65,536 strings or 65,536 cursors; `open` refuses the rest.
    /// `Memory`.
    pub fn into_shape(self, alloc: Global) -> Result<Shape, OpenFault>
        ensures kinds { IfOk result (λ shape. shape.kinds.items ≡ kinds_of self.dicts self.lists self.sets) }
        ensures texts { IfOk result (λ shape. length shape.texts.items ≡ self.texts) }
        ensures heap { IfOk result (λ shape. shape.heap ≡ self.heap) }
        ensures passes { IfOk result (λ shape. shape.passes ≡ self.threads) }
        ensures calls { IfOk result (λ shape. shape.calls ≡ self.calls) }
        ensures tables { IfOk result (λ shape. shape.tables.items ≡ self.tables.items) }
        ensures cause { IfErr result (λ why. why ≡ fault.Sizes →
            (256 < self.dicts + self.lists + self.sets) ⊎ ((65536 < self.texts) ⊎ (65536 < self.cursors))) }
    {
        let Sizes {
            dicts,
            lists,
            sets,
            threads,
            calls,
            cursors,
            texts,
            heap,
            tables,
        } = self;
        let containers = u64::from(dicts) + u64::from(lists) + u64::from(sets);
        if containers > MOST_CONTAINERS || texts > MOST_TEXTS || cursors > MOST_CURSORS {
            return Err(OpenFault::Sizes);
        }
        Ok(Shape {
            kinds: kinds(alloc, dicts, lists, sets)?,
            texts: hashes(alloc, texts)?,
            tables,
            heap,
            passes: threads,
            calls,
        })
    }
}
