//! How many words tables have and where in a table its fields are, for whoever reads or writes one. No
//! other crate computes the place of a word.

ghost use Rattle.std.specs.Prelude.{◌≡◌, ◌<◌, ◌≤◌, ◌^◌};
ghost use Rattle.ft_model.specs.Classes.{IsClass};
ghost use Rattle.ft_layout.specs.Sizes.{table_size};
ghost use Rattle.ft_layout.specs.Tables.{index_at, entry_at, item_at};

use ft_model::{dict_entries, list_items};

/// How many words the header of a table has.
const HEADER: u64 = 2;
/// How many words an entry has.
const ENTRY: u64 = 8;
/// How many words an item has.
const ITEM: u64 = 4;

/// How many words a table of this class has: its header, a word for each index slot, and the entries
/// that a dict has in it. A list has as many items as there are slots.
#[tactic(auto, using(crate::proofs::Powers::slots_range))]
pub fn table_size(class: u32) -> u64
    requires { IsClass class }
    ensures is { result ≡ table_size class }
    ensures most { result ≤ 415058 }
{
    HEADER + list_items(class) + ENTRY * dict_entries(class)
}

/// Which word of a table is this index slot.
pub fn index_at(slot: u64) -> u64
    requires { slot < 2 ^ 16 }
    ensures { result ≡ index_at slot }
{
    HEADER + slot
}

/// Which word of a table whose last index slot is `mask` is this word of an entry.
pub fn entry_at(mask: u64, place: u64, word: u64) -> u64
    requires mask { mask < 2 ^ 16 }
    requires place { place ≤ mask }
    requires word { word < 8 }
    ensures { result ≡ entry_at mask place word }
{
    HEADER + mask + 1 + ENTRY * place + word
}

/// Which word of a table is this word of an item.
pub fn item_at(place: u64, word: u64) -> u64
    requires place { place < 2 ^ 16 }
    requires word { word < 4 }
    ensures { result ≡ item_at place word }
{
    HEADER + ITEM * place + word
}
