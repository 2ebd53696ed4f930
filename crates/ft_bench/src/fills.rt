//! The calls that a run begins with, and those that each round of it begins with. They aren't timed.

use crate::operation::{Operation, call_of, on_dict, on_list};
use crate::workload::Workload;
use ft_model::{Call, DictCall, ListCall};
use std::alloc::{AllocError, Global};

/// The list that has the items which a round begins with.
const ITEMS: u32 = 1;

/// The call that puts the integer into what a run begins with, if it is to be there.
fn fill_of(workload: Workload, key: u32) -> Option<Call> {
    match workload {
        Workload::Dict(_) | Workload::Boxes(_) => {
            Some(call_of(Operation::Set(key), &workload.values(), 0))
        }
        Workload::Growth(_) => None,
        Workload::List(_) => match call_of(Operation::Append(key), &workload.values(), 0) {
            Call::List { call, .. } => Some(Call::List {
                container: ITEMS,
                call,
            }),
            _ => None,
        },
        Workload::Set(_) if key % 2 == 0 => {
            Some(call_of(Operation::Add(key), &workload.values(), 0))
        }
        Workload::Set(_) | Workload::Script => None,
    }
}

/// The calls that a run begins with: the containers get what is to be in them.
pub(crate) fn fills(alloc: Global, workload: Workload) -> Result<Vec<Call>, AllocError> {
    let mut calls = Vec::new(alloc);
    for key in 0..1000 {
        if let Some(call) = fill_of(workload, key) {
            calls.push(call)?;
        }
    }
    Ok(calls)
}

/// The calls that each round begins with: what grew in the round before is as it was at its start.
pub(crate) fn freshens(alloc: Global, workload: Workload) -> Result<Vec<Call>, AllocError> {
    let mut calls = Vec::new(alloc);
    match workload {
        Workload::Growth(_) => {
            calls.push(on_dict(DictCall::Clear))?;
            for key in 0..8 {
                calls.push(call_of(Operation::Set(key), &workload.values(), 0))?;
            }
        }
        Workload::List(_) => {
            calls.push(on_list(ListCall::Clear))?;
            calls.push(on_list(ListCall::Extend { other: ITEMS }))?;
        }
        Workload::Dict(_) | Workload::Boxes(_) | Workload::Set(_) | Workload::Script => {}
    }
    Ok(calls)
}
