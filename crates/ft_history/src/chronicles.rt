//! From the order in which answers were fixed to the order of a history.
ghost use Rattle.std.specs.Prelude.{IfOk, List};
ghost use Rattle.std.specs.List.Sorted.{IsPermutation, IsSorted, IsStableBy};
ghost use Rattle.std.specs.Ordering.{is_lt};
ghost use Rattle.ft_model.specs.declared.entry.Entry.{Entry};
ghost use Rattle.ft_model.specs.declared.entry.Storage.{Storage};
ghost use Rattle.ft_model.specs.declared.script.ScriptParts.{ScriptParts};
ghost use Rattle.ft_model.specs.Histories.{history_cmp, IsChronicle, IsLegal};
ghost use Rattle.ft_model.specs.Scripts.{IsScript};

use crate::merging::history_order;
use ft_model::Entry;
use std::alloc::AllocError;

/// A chronicle of a script, put in the order of a history, is a legal history. The function does nothing: its
/// contract is the law.
pub fn sorted_chronicles_are_legal()
    ensures { (storage : Storage) (script : ScriptParts) (chronicle history : List Entry) → IsScript script → IsChronicle storage script chronicle → IsPermutation chronicle history → IsSorted history_cmp history → IsLegal storage script history }
{}

/// The same entries in the order of a history: by stamp, reads before the write of that number, then
/// by thread and by index; entries that are alike in all of these stay as they stood. Of a chronicle,
/// entries in the order in which their answers were fixed, it makes a legal history of the script. It takes n log n
/// comparisons for n entries.
pub fn put_in_order(entries: Vec<Entry>) -> Result<Vec<Entry>, AllocError>
    ensures entries { IfOk result (λ history. IsPermutation entries.items history.items) }
    ensures order { IfOk result (λ history. IsSorted history_cmp history.items) }
    ensures ties { IfOk result (λ history. IsStableBy (λ one other. is_lt (history_cmp one other)) entries.items history.items) }
    ensures legal { IfOk result (λ history. (storage : Storage) (script : ScriptParts) → IsScript script → IsChronicle storage script entries.items → IsLegal storage script history.items) }
{
    let mut history = entries;
    history.sort_by(history_order)?;
    Ok(history)
}
