//! The stream of numbers of a thread, and the operations that it stands for.

use crate::operation::Operation;
use crate::workload::Workload;
use std::alloc::{AllocError, Global};

/// How many operations are made beforehand; a thread walks round them.
const OPERATIONS: u32 = 16_384;

/// The number that comes after this one in a stream.
fn next_of(number: u64) -> u64 {
    number
        .wrapping_mul(6_364_136_223_846_793_005)
        .wrapping_add(1_442_695_040_888_963_407)
}

/// The operation that a number of a stream stands for: the key, below 1,000, and what is done by it.
fn operation_of(workload: Workload, number: u64) -> Operation {
    let high = number >> 33;
    let key = (high / 8 % 1000) as u32;
    let part = (high / 8000 % 100) as u32;
    match workload {
        Workload::Dict(sets) | Workload::Boxes(sets) if part < sets => Operation::Set(key),
        Workload::Dict(_) | Workload::Boxes(_) => Operation::Get(key),
        Workload::Growth(_) => Operation::Get(key % 8),
        Workload::List(appends) if part < appends => Operation::Append(key),
        Workload::List(_) => Operation::Item(key),
        Workload::Set(adds) if part < adds => Operation::Add(key),
        Workload::Set(adds) if part < adds.saturating_mul(2) => Operation::Discard(key),
        Workload::Set(_) | Workload::Script => Operation::Has(key),
    }
}

/// The operations of a thread.
pub(crate) fn operations(
    alloc: Global,
    workload: Workload,
    thread: u32,
) -> Result<Vec<Operation>, AllocError> {
    let mut made = Vec::new(alloc);
    let mut number = u64::from(thread) + 1;
    for _ in 0..OPERATIONS {
        number = next_of(number);
        made.push(operation_of(workload, number))?;
    }
    Ok(made)
}
