//! The words of a bank at its start: no write was made, no pass is online, all tables are free, and all
//! containers have nothing.
ghost use Rattle.std.specs.Prelude.{◌≡◌, ◌≤◌, ◌<◌, ◌-◌, ◌*◌, ◌%◌, ◌^◌, ◌++◌, length, IfOk, OnOk, replicate};
ghost use Rattle.ft_layout.specs.Starts.{AreTables};
ghost use Rattle.ft_trace.specs.Addresses.{opening, extent, free_counts, free_words, heap_first, heap_words, listed};
ghost use Rattle.ft_trace.specs.Bits.{full};
ghost use Rattle.ft_bank.specs.Shapes.{IsShape, plan};
ghost use Rattle.ft_bank.specs.TableNames.{starts_from, sizes_from};

use crate::shape::Shape;
use ft_layout::{bank_size, heap_start, table_size, table_start};
use std::alloc::{AllocError, Global};

/// How many words of bits there are for the free tables of all classes.
const FREE_WORDS: u32 = 224;
/// How many places one word of bits tells of.
const BITS: u64 = 64;
/// How many words a box has.
const BOX: u64 = 4;
/// The shared word of a box that is dead.
const DEAD: u64 = 3;
/// How many words there are for the announced numbers.
const ANNOUNCED: usize = 64;

/// All words of a bank of this shape.
pub(crate) fn opening_words(alloc: Global, shape: &Shape) -> Result<Vec<u64>, AllocError>
    requires { IsShape shape.now }
    ensures words { IfOk result (λ v. v.items ≡ opening (plan shape.now)) }
    ensures low { IfOk result (λ v. extent (plan shape.now) < 2 ^ 33) }
{
    let containers = shape.kinds.len() as u32;
    let size = bank_size(
        containers,
        shape.heap,
        shape.passes,
        shape.tables.as_slice(),
    );
    let size = size as usize;
    let mut words = vec![in alloc; 0, 1]?;
    // (so that they are made once: a vector that grows has its items twice)
    words.reserve(size - 2)?;
    fill_up(&mut words, 2 + ANNOUNCED)?;
    push_counts(&mut words, shape.tables.as_slice())?;
    push_free(&mut words, shape.tables.as_slice())?;
    let heaps = heap_start(containers, shape.heap, 0);
    fill_up(&mut words, heaps as usize)?;
    push_heaps(&mut words, shape)?;
    fill_up(&mut words, size)?;
    Ok(words)
}

/// Adds zeros up to this many words.
fn fill_up(words: &mut Vec<u64>, size: usize) -> Result<(), AllocError>
    requires { length words.old.items ≤ size }
    ensures { OnOk result (words.new.items ≡ words.old.items ++ replicate (size - length words.old.items) 0) }
{
    words.resize(size, 0)?;
    Ok(())
}

/// The count of each class.
fn push_counts(words: &mut Vec<u64>, tables: &[u32]) -> Result<(), AllocError>
    requires { AreTables tables.now }
    ensures { OnOk result (words.new.items ≡ words.old.items ++ free_counts tables.now 3 14) }
{
    for class in 0..14usize {
        words.push(u64::from(tables[class]))?;
    }
    Ok(())
}

/// The free words of each class, a bit for each table.
fn push_free(words: &mut Vec<u64>, tables: &[u32]) -> Result<(), AllocError>
    requires { AreTables tables.now }
    ensures { OnOk result (words.new.items ≡ words.old.items ++ free_words tables.now 0 224) }
{
    for word in 0..FREE_WORDS {
        let count = tables[(word / 16) as usize];
        let more = count.saturating_sub(64 * (word % 16));
        words.push(ones(more.min(64)))?;
    }
    Ok(())
}

/// The words of the heaps of all passes: all places are free, and each box is dead.
fn push_heaps(words: &mut Vec<u64>, shape: &Shape) -> Result<(), AllocError>
    requires { IsShape shape.now }
    ensures { OnOk result (words.new.items ≡ words.old.items
        ++ listed (λ i. heap_first (plan shape.now) (i % heap_words (plan shape.now))) 0
        ((plan shape.now).passes * heap_words (plan shape.now))) }
{
    let containers = shape.kinds.len() as u32;
    let heap = u64::from(shape.heap);
    let each = heap / BITS + BOX * heap;
    let first = heap_start(containers, shape.heap, 0);
    let all = heap_start(containers, shape.heap, shape.passes) - first;
    for at in 0..all {
        words.push(heap_word(shape, at % each))?;
    }
    Ok(())
}

/// A word of a heap, by its place there.
fn heap_word(shape: &Shape, at: u64) -> u64
    ensures { result ≡ heap_first (plan shape.now) at }
{
    let bits = u64::from(shape.heap) / BITS;
    if at < bits {
        return u64::MAX;
    }
    if (at - bits) % BOX == 0 { DEAD } else { 0 }
}

/// The word whose first bits are ones.
fn ones(count: u32) -> u64
    requires { count ≤ 64 }
    ensures { result ≡ full count }
{
    if count == 64 {
        return u64::MAX;
    }
    (1 << count) - 1
}

/// Where the tables of each class begin, class 3 first.
pub(crate) fn class_starts(alloc: Global, shape: &Shape) -> Result<Vec<u64>, AllocError>
    requires { IsShape shape.now }
    ensures { IfOk result (λ v. v.items ≡ starts_from (plan shape.now) 3 14) }
{
    let containers = shape.kinds.len() as u32;
    let mut starts = Vec::new(alloc);
    for class in 0..14u32 {
        let tables = shape.tables.as_slice();
        starts.push(table_start(containers, shape.heap, shape.passes, tables, 3 + class, 0))?;
    }
    Ok(starts)
}

/// How many words the tables of each class have, class 3 first.
pub(crate) fn class_sizes(alloc: Global) -> Result<Vec<u64>, AllocError>
    ensures { IfOk result (λ v. v.items ≡ sizes_from 3 14) }
{
    let mut sizes = Vec::new(alloc);
    for class in 0..14u32 {
        sizes.push(table_size(3 + class))?;
    }
    Ok(sizes)
}
