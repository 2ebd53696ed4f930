//! The order of a history, and one history of the lists that threads made, for whoever gathers these
//! when the threads are done.
ghost use Rattle.std.specs.Prelude.{◌≡◌, IfOk, List, map};
ghost use Rattle.std.specs.List.{flat_map};
ghost use Rattle.std.specs.List.Sorted.{IsSorted, IsPermutation};
ghost use Rattle.ft_model.specs.declared.call.Call.{Call};
ghost use Rattle.ft_model.specs.declared.entry.Storage.{Storage};
ghost use Rattle.ft_model.specs.declared.script.ScriptParts.{ScriptParts};
ghost use Rattle.ft_model.specs.Histories.{history_cmp};
ghost use Rattle.ft_model.specs.Scripts.{IsScript};
ghost use Rattle.ft_model.specs.Numbers.{AreNumberedLists, AreDone, IsHistoryOf};

use ft_model::Entry;
use std::alloc::{AllocError, Global};
use std::cmp::Ordering;

/// The order of a history: by stamp, reads before the write of that number, then by thread and by
/// index.
pub fn history_order(a: &Entry, b: &Entry) -> Ordering
    ensures { result ≡ history_cmp a.now b.now }
{
    a.stamp
        .cmp(&b.stamp)
        .then(a.wrote.cmp(&b.wrote))
        .then(a.thread.cmp(&b.thread))
        .then(a.index.cmp(&b.index))
}

/// One history of the entries that each thread made: every entry of the lists, each as often as it
/// stands there, in the order of a history. Where the lists are those of the threads of a script, all
/// done and each entry right by the numbers of the writes, it is a legal history with those writes. It
/// takes n log n comparisons for n entries.
pub fn merge(alloc: Global, lists: Vec<Vec<Entry>>) -> Result<Vec<Entry>, AllocError>
    ensures entries { IfOk result (λ history. IsPermutation (flat_map (λ list. list.items) lists.items) history.items) }
    ensures order { IfOk result (λ history. IsSorted history_cmp history.items) }
    ensures legal { IfOk result (λ history. (storage : Storage) (script : ScriptParts) (calls : List Call) → IsScript script → AreNumberedLists storage script calls (map (λ list. list.items) lists.items) → AreDone script calls (map (λ list. list.items) lists.items) → IsHistoryOf storage script calls history.items) }
{
    let mut history = concat(alloc, lists)?;
    history.sort_by(history_order)?;
    Ok(history)
}

/// The entries of the lists, one list after the other.
fn concat(alloc: Global, lists: Vec<Vec<Entry>>) -> Result<Vec<Entry>, AllocError>
    ensures { IfOk result (λ all. all.items ≡ flat_map (λ list. list.items) lists.items) }
{
    lists.into_iter().flatten().collect(alloc)
}
