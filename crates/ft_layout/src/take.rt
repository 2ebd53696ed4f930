//! Readers that take the words of an entry or an item one at a time, for whoever reads without a lock.
//! Others may write between two takings, so nothing is promised of one list of words: what is
//! promised holds of any words that are as each was at its own taking.

ghost use Rattle.std.specs.Prelude.{◌≡◌, ◌↔◌, ℕ, ◌+◌, ◌^◌, ◌<◌, ◌≤◌, Some};
ghost use Rattle.ft_layout.specs.declared.slot.Slot.{Slot};
ghost use Rattle.ft_layout.specs.declared.slot.Stored.{Stored};
ghost use Rattle.ft_layout.specs.Words.{IsEntry, IsItem};
ghost use Rattle.ft_layout.specs.TakenWords.{ShowsWords, entry_addresses, item_addresses};

use crate::entry::entry_of;
use crate::item::item_of;
use crate::slot::{Slot, Stored};
use crate::word::{entry_word, item_word};

/// Words that are taken one at a time. The trait promises no list of words: only which taking gave
/// which word.
pub trait Take {
    ghost use Rattle.std.specs.Prelude.{◌≡◌, ℕ, ◌<◌};

    // Words may be taken.
    ghost can: { Self → Type 0 };

    // How many words there are.
    ghost size: { Self → ℕ };

    // From the first state the word at this address was taken and was this, which led to the second.
    ghost gave: { Self → ℕ → ℕ → Self → Type 0 };

    /// The word at an address, as it is now.
    fn word(&mut self, at: u64) -> u64
        requires can { can self.old }
        requires at { at < size self.old }
        ensures can { can self.new × (size self.new ≡ size self.old) }
        ensures gave { gave self.old at result self.new };
}

/// What the words of the entry say that begins at an address, taken in their order: that it was never
/// used, its pair, or the key that was deleted. `None` exactly where a kind or a payload is one that no
/// entry has, as it may be where the words were not all taken between the same two writes.
pub fn read_entry<T: Take>(from: &mut T, start: u64) -> Option<Slot>
    requires can { T.can from.old }
    requires start { (start + 8 ≤ T.size from.old) × (start < 2 ^ 63) }
    ensures can { T.can from.new × (T.size from.new ≡ T.size from.old) }
    ensures shows { ShowsWords T.gave from.old from.new (entry_addresses start)
        (λ word. (slot : Slot) → IsEntry (λ i. word (start + i)) slot ↔ (result ≡ Some slot)) }
{
    let hash = from.word(start + entry_word::HASH);
    let kind = from.word(start + entry_word::KEY_KIND);
    let payload = from.word(start + entry_word::KEY);
    let value_kind = from.word(start + entry_word::VALUE_KIND);
    let value = from.word(start + entry_word::VALUE);
    let serial = from.word(start + entry_word::SERIAL);
    entry_of(&[0, hash, kind, payload, value_kind, value, serial, 0])
}

/// What the words of the item store that begins at an address, taken in their order. `None` exactly
/// where the kind or the payload is one that no item has.
pub fn read_item<T: Take>(from: &mut T, start: u64) -> Option<Stored>
    requires can { T.can from.old }
    requires start { (start + 4 ≤ T.size from.old) × (start < 2 ^ 63) }
    ensures can { T.can from.new × (T.size from.new ≡ T.size from.old) }
    ensures shows { ShowsWords T.gave from.old from.new (item_addresses start)
        (λ word. (stored : Stored) → IsItem (λ i. word (start + i)) stored ↔ (result ≡ Some stored)) }
{
    let kind = from.word(start + item_word::VALUE_KIND);
    let payload = from.word(start + item_word::VALUE);
    item_of(&[0, kind, payload, 0])
}
