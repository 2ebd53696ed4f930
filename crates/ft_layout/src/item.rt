//! Items of lists as four words, for writers and readers of lists' tables: what `item_words` makes,
//! `item_of` reads back, and it refuses every other kind or payload.

ghost use Rattle.std.specs.Prelude.{◌≡◌, ◌↔◌, Some, slice_index};
ghost use Rattle.ft_layout.specs.declared.slot.Stored.{Stored};
ghost use Rattle.ft_layout.specs.Words.{item_words, FitsStored, IsItem};

use crate::slot::Stored;
use crate::stored::{stored_kind_of, stored_of, stored_payload_of};

/// The four words of an item that stores this.
pub fn item_words(value: Stored) -> [u64; 4]
    requires { FitsStored value }
    ensures { result ≡ item_words value }
{
    [0, stored_kind_of(value), stored_payload_of(value), 0]
}

/// What the words of an item store. `None` exactly where the kind or the payload is one that no item
/// has. The first word and the last are not looked at.
#[inline(always)]
pub fn item_of(words: &[u64; 4]) -> Option<Stored>
    ensures says { (stored : Stored) → IsItem (slice_index words.now) stored ↔ (result ≡ Some stored) }
    ensures reads_back { (stored : Stored) → FitsStored stored → words.now ≡ item_words stored → result ≡ Some stored }
{
    let [_, kind, payload, _] = *words;
    stored_of(kind, payload)
}
