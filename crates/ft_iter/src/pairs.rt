//! The pair of the entry that a walk gives next, read from the words of a table.
ghost use Rattle.std.specs.Prelude.{◌≡◌, ◌↔◌, ℕ, ◌<◌, ◌≤◌, List, Some, slice_index};
ghost use Rattle.ft_layout.specs.declared.slot.Pair.{Pair};
ghost use Rattle.ft_layout.specs.declared.slot.Slot.TheVariants.{Live};
ghost use Rattle.ft_layout.specs.Tables.{dict_room};
ghost use Rattle.ft_layout.specs.Words.{IsEntry};
ghost use Rattle.ft_keys.specs.declared.words.Access.{Access};
ghost use Rattle.ft_keys.specs.Accesses.{Runs, AreLoads, AreAnswered};
ghost use Rattle.ft_iter.specs.Seeking.{HasEntry, FindsWords};

use crate::seeking::seek;
use ft_keys::{Steps, Words};
use ft_layout::entry_word::{HASH, KEY, KEY_KIND, SERIAL, VALUE, VALUE_KIND};
use ft_layout::{Pair, Slot, entry_of};
use std::sync::ledger::Ledger;

/// The words of an entry that say its pair, as they stand there: the value may be in a box that they name.
#[derive(Clone, Copy)]
pub(crate) struct PairWords {
    /// The hash of the key.
    pub(crate) hash: u64,
    /// The kind of the key.
    pub(crate) key_kind: u64,
    /// The payload of the key.
    pub(crate) key: u64,
    /// The kind of the value.
    pub(crate) value_kind: u64,
    /// The payload of the value.
    pub(crate) value: u64,
    /// The serial.
    pub(crate) serial: u64,
}

/// The pair that is there, if one is.
fn pair_of(slot: Slot) -> Option<Pair>
    ensures { (pair : Pair) → (slot ≡ Live pair) ↔ (result ≡ Some pair) }
{
    match slot {
        Slot::Live(pair) => Some(pair),
        Slot::Never | Slot::Gone(..) => None,
    }
}

/// The pair that the words of an entry say, if it is there.
pub(crate) fn live_pair(entry: &[u64; 8]) -> Option<Pair>
    ensures { (pair : Pair) → IsEntry (slice_index entry.now) (Live pair) ↔ (result ≡ Some pair) }
{
    match entry_of(entry) {
        Some(slot) => pair_of(slot),
        None => None,
    }
}

/// The words of the entry at a place that say its pair.
fn read_words<W: Words>(words: &mut W, place: u64) -> PairWords
    requires can { W.can words.old }
    requires place { place < dict_room (W.mask words.old) }
    ensures can { W.can words.new × (W.may_put words.old → W.may_put words.new) × (W.mask words.new ≡ W.mask words.old) }
    ensures reads { (calls : List Access) × Runs W.gave words.old calls words.new × AreLoads calls
        × ((ws : List ℕ) → AreAnswered (W.mask words.old) calls ws → HasEntry (W.mask words.old) ws place result) }
{
    let hash = words.entry(place, HASH);
    let key_kind = words.entry(place, KEY_KIND);
    let key = words.entry(place, KEY);
    let value_kind = words.entry(place, VALUE_KIND);
    let value = words.entry(place, VALUE);
    let serial = words.entry(place, SERIAL);
    PairWords {
        hash,
        key_kind,
        key,
        value_kind,
        value,
        serial,
    }
}

/// The words of the live entry with the least serial that is greater than `after`, where nothing was given
/// yet the least of all: `None` exactly where there is none. `fill` is how many entries of the table were used.
pub(crate) fn seek_words<W: Words, L: Ledger>(
    words: &mut W,
    fill: u64,
    after: Option<u64>,
    steps: &mut Steps<L>,
) -> Option<PairWords>
    requires can { W.can words.old }
    requires fill { fill ≤ dict_room (W.mask words.old) }
    ensures can { W.can words.new × (W.may_put words.old → W.may_put words.new) × (W.mask words.new ≡ W.mask words.old) }
    ensures finds { (calls : List Access) × Runs W.gave words.old calls words.new × AreLoads calls
        × ((ws : List ℕ) → AreAnswered (W.mask words.old) calls ws → FindsWords (W.mask words.old) ws fill after result) }
{
    match seek(words, fill, after, steps) {
        Some(place) => Some(read_words(words, place)),
        None => None,
    }
}
