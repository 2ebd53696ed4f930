//! Entries of dicts and sets as eight words. Writers and readers of tables go by one pair of functions:
//! what `entry_words` makes of a pair, `entry_of` reads back, and it refuses every other kind or payload.

ghost use Rattle.std.specs.Prelude.{◌≡◌, ◌↔◌, ℕ, List, Some, slice_index};
ghost use Rattle.ft_layout.specs.declared.slot.Pair.{Pair};
ghost use Rattle.ft_layout.specs.declared.slot.Slot.{Slot};
ghost use Rattle.ft_layout.specs.declared.slot.Slot.TheVariants.{Live};
ghost use Rattle.ft_layout.specs.Words.{entry_words, FitsStored, FitsPair, IsEntry, HasParts};

use crate::key::{GONE_INT, GONE_TEXT, INT, NEVER, TEXT, gone_key_of, key_of, kind_of, payload_of};
use crate::slot::{Pair, Slot, Stored};
use crate::stored::{stored_kind_of, stored_of, stored_payload_of};

/// The eight words of an entry with this pair.
pub fn entry_words(pair: &Pair) -> [u64; 8]
    requires { FitsStored pair.now.value }
    ensures { result ≡ entry_words pair.now }
{
    let value = pair.value;
    [
        0,
        pair.hash,
        kind_of(pair.key),
        payload_of(pair.key),
        stored_kind_of(value),
        stored_payload_of(value),
        pair.serial,
        0,
    ]
}

/// What the words of an entry say: that it was never used, its pair, or the key that was deleted.
/// `None` exactly where a kind or a payload is one that no entry has. The first word and the last are
/// not looked at.
pub fn entry_of(words: &[u64; 8]) -> Option<Slot>
    ensures says { (slot : Slot) → IsEntry (slice_index words.now) slot ↔ (result ≡ Some slot) }
    ensures reads_back { (pair : Pair) → FitsPair pair → words.now ≡ entry_words pair → result ≡ Some (Live pair) }
{
    let [_, hash, kind, payload, value_kind, value_payload, serial, _] = *words;
    let value = stored_of(value_kind, value_payload)?;
    slot_of(hash, kind, payload, value, serial)
}

/// The same, where it is known what is stored.
fn slot_of(hash: u64, kind: u64, payload: u64, value: Stored, serial: u64) -> Option<Slot>
    ensures { (word : ℕ → ℕ) → HasParts word hash kind payload value serial →
        (slot : Slot) → IsEntry word slot ↔ (result ≡ Some slot) }
{
    match kind {
        NEVER if payload == 0 && value == Stored::Empty => Some(Slot::Never),
        INT | TEXT => Some(Slot::Live(Pair {
            hash,
            key: key_of(kind, payload)?,
            value,
            serial,
        })),
        GONE_INT | GONE_TEXT => Some(Slot::Gone(gone_key_of(kind, payload)?, serial)),
        _ => None,
    }
}
