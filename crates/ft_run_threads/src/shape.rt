//! The bank of a script.
ghost use Rattle.std.specs.Prelude.{◌≡◌, All, IfOk, map};
ghost use Rattle.ft_bank.specs.Shapes.{IsShape, plan};
ghost use Rattle.ft_hash.specs.Hashes.{text_hash};
ghost use Rattle.ft_model.specs.Names.{IsString};
ghost use Rattle.ft_run_threads.specs.Workers.{IsBankFor};

use ft_bank::Shape;
use ft_hash::hash_text;
use ft_model::{Declaration, Kind, MOST_CALLS, Script, Text};
use std::alloc::{AllocError, Global};
use std::str;

/// The kinds of the containers.
fn kinds(alloc: Global, containers: &[Declaration]) -> Result<Vec<Kind>, AllocError>
    ensures { IfOk result (λ kinds. kinds.items ≡ map (λ declaration. declaration.start.kind) containers.now) }
{
    containers
        .iter()
        .map(|declaration| declaration.start.kind)
        .collect(alloc)
}

/// The hashes of the strings.
fn texts(alloc: Global, strings: &[Text]) -> Result<Vec<u64>, AllocError>
    requires { All IsString strings.now }
    ensures { IfOk result (λ texts. texts.items ≡ map text_hash strings.now) }
{
    let mut texts = Vec::with_capacity(alloc, strings.len())?;
    for string in strings {
        let Ok(text) = str::from_utf8(string.as_slice()) else {
            unreachable!();
        };
        texts.push(hash_text(text))?;
    }
    Ok(texts)
}

/// How many tables there are of each class.
fn tables(alloc: Global, counts: &[u32]) -> Result<Vec<u32>, AllocError>
    ensures { IfOk result (λ tables. tables.items ≡ counts.now) }
{
    counts.iter().copied().collect(alloc)
}

/// The shape of the script's bank: a pass for each thread, one at least, and for each as many calls as a script has at
/// most.
pub fn shape_for(alloc: Global, script: &Script) -> Result<Shape, AllocError>
    ensures shape { IfOk result (λ shape. IsShape shape) }
    ensures bank { IfOk result (λ shape. IsBankFor script.now (plan shape)) }
{
    let parts = script.parts();
    Ok(Shape {
        kinds: kinds(alloc, parts.containers.as_slice())?,
        texts: texts(alloc, parts.strings.as_slice())?,
        tables: tables(alloc, parts.tables.as_slice())?,
        heap: parts.heap,
        passes: (parts.threads.len() as u32).max(1),
        calls: MOST_CALLS,
    })
}
