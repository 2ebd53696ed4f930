//! Loads of a table's words by a reader without the lock: single words of an entry, all of them between two
//! loads of its version, the counter, and the root again. Each says what the pass has loaded. A value in a box is read
//! while the pass holds a reference for the box.
ghost use Rattle.std.specs.Prelude.{◌≡◌, ◌≢◌, ◌⊎◌, ℕ, suc, ◌+◌, ◌%◌, ◌<◌, ◌≤◌, List, [], ◌∷◌, ◌++◌, IsTrue, IsFalse};
ghost use Rattle.ft_layout.specs.Tables.{dict_room};
ghost use Rattle.ft_trace.specs.declared.Act.{Act};
ghost use Rattle.ft_trace.specs.declared.Act.TheVariants.{ReadRoot, ReadTable, ReadCounter};
ghost use Rattle.ft_trace.specs.Acts.{announces};
ghost use Rattle.ft_trace.specs.Addresses.{class_of, slots, IsTableName};
ghost use Rattle.ft_trace.specs.ContainerStates.{kind_in};
ghost use Rattle.ft_trace.specs.Kinds.{rows};
ghost use Rattle.ft_trace.specs.Pictures.{entry_offset};
ghost use Rattle.ft_trace.specs.LoggedLookUps.{IsNew};
ghost use Rattle.ft_bank.specs.Passes.{shape_of, view};
ghost use Rattle.ft_bank.specs.Series.{DidAll};
ghost use Rattle.ft_bank.specs.TableNames.{table_id};
ghost use Rattle.ft_search.specs.LookSteps.{CanLook, InRound};
ghost use Rattle.ft_search.specs.TableWords.{CanLoad, SamePlace};
ghost use Rattle.ft_search.specs.Rounds.{boxed_acts, NamesBox, SeesEntry};
ghost use Rattle.ft_search.specs.SearchCosts.{LoadsNoIndex};

use crate::boxed::BOX_KIND;
use crate::raising::{SeenBox, see_in_box};
use crate::words::TableWords;
use ft_keys::Words;
use ft_layout::entry_word::{KEY_KIND, VALUE, VALUE_KIND, VERSION};

/// What was read of an entry, between two loads of its version.
#[derive(Clone, Copy)]
pub(crate) struct SeenEntry {
    /// The version at first.
    pub(crate) opened: u64,
    /// The kind of the key.
    pub(crate) key_kind: u64,
    /// The kind of the value, read in its box where it has one.
    pub(crate) kind: u64,
    /// The payload of the value, read there too.
    pub(crate) value: u64,
    /// The counter.
    pub(crate) number: u64,
    /// The version at last.
    pub(crate) closed: u64,
}

/// What reading an entry came to.
#[derive(Clone, Copy)]
pub(crate) enum EntryRead {
    /// It was read.
    Whole(SeenEntry),
    /// Its value stands in a box, and its version, or the shared word of the box, was found to be the first number and then
    /// the second; or both are the shared word of a dead box.
    Stopped(u64, u64),
}

impl SeenEntry {
    /// Whether the version was even, and the same both times: nobody wrote the entry meanwhile.
    pub(crate) fn stood(&self) -> bool
        ensures yes { IsTrue result → (self.now.closed ≡ self.now.opened) × (self.now.opened % 2 ≡ 0) }
        ensures no { IsFalse result → (self.now.opened % 2 ≢ 0) ⊎ (self.now.closed ≢ self.now.opened) }
    {
        if self.closed != self.opened {
            return false;
        }
        self.opened % 2 == 0
    }
}

impl<'a> TableWords<'a> {
    /// Loads the counter.
    pub(crate) fn stamp(&mut self) -> u64
        requires can { CanLook self.old }
        ensures can { CanLook self.new }
        ensures same { SamePlace self.old self.new }
        ensures did { DidAll (ReadCounter result ∷ []) self.old.pass.now self.new.pass.now }
    {
        self.bank.stamp(self.pass)
    }

    /// Loads the index word of a slot.
    #[inline(always)]
    pub(crate) fn slot_word(&mut self, slot: u64) -> u64
        requires can { CanLook self.old }
        requires slot { slot ≤ self.old.mask }
        ensures can { CanLook self.new }
        ensures same { SamePlace self.old self.new }
        ensures did { DidAll (ReadTable (table_id self.old.table) slot result ∷ []) self.old.pass.now self.new.pass.now }
    {
        self.index(slot)
    }

    /// Loads a word of an entry.
    pub(crate) fn word(&mut self, place: u64, word: u64) -> u64
        requires can { CanLook self.old }
        requires place { (place < dict_room self.old.mask) × (word < 8) }
        ensures can { CanLook self.new }
        ensures same { SamePlace self.old self.new }
        ensures did { DidAll (ReadTable (table_id self.old.table)
            (entry_offset (slots (class_of (table_id self.old.table))) place word) result ∷ []) self.old.pass.now self.new.pass.now }
    {
        self.entry(place, word)
    }

    /// Reads the value in the box that an entry names, whose version, key's kind and payload were read before, in this order.
    #[inline(always)]
    fn read_boxed(&mut self, place: u64, opened: u64, key_kind: u64, payload: u64) -> EntryRead
        requires can { CanLook self.old }
        requires place { place < dict_room self.old.mask }
        requires row { place < rows (kind_in (shape_of self.old.bank.now).starts self.old.o) (class_of (table_id self.old.table)) }
        requires named { NamesBox self.old.o (table_id self.old.table) place opened key_kind payload (view self.old.pass.now).log }
        ensures can { CanLook self.new }
        ensures same { SamePlace self.old self.new }
        ensures looks { (acts : List Act) × InRound acts self.old.pass.now self.new.pass.now
            × DidAll acts self.old.pass.now self.new.pass.now × LoadsNoIndex acts
            × SeesEntry (table_id self.old.table) place (acts ++ boxed_acts (table_id self.old.table) place opened key_kind payload) result }
    {
        let version = 8 * place + VERSION + self.mask + 1;
        match see_in_box(self.bank, self.pass, self.table, version, opened, payload) {
            SeenBox::Read(found) => EntryRead::Whole(SeenEntry {
                opened,
                key_kind,
                kind: found.kind,
                value: found.value,
                number: found.number,
                closed: found.closed,
            }),
            SeenBox::Stopped(first, found) => EntryRead::Stopped(first, found),
        }
    }

    /// Reads an entry between two loads of its version.
    #[inline(always)]
    pub(crate) fn read_between(&mut self, place: u64) -> EntryRead
        requires can { CanLook self.old }
        requires place { place < dict_room self.old.mask }
        requires row { place < rows (kind_in (shape_of self.old.bank.now).starts self.old.o) (class_of (table_id self.old.table)) }
        ensures can { CanLook self.new }
        ensures same { SamePlace self.old self.new }
        ensures looks { (acts : List Act) × InRound acts self.old.pass.now self.new.pass.now
            × DidAll acts self.old.pass.now self.new.pass.now × LoadsNoIndex acts
            × SeesEntry (table_id self.old.table) place acts result }
    {
        let opened = self.word(place, VERSION);
        let key_kind = self.word(place, KEY_KIND);
        let kind = self.word(place, VALUE_KIND);
        let value = self.word(place, VALUE);
        if kind == BOX_KIND {
            return self.read_boxed(place, opened, key_kind, value);
        }
        let number = self.stamp();
        let closed = self.word(place, VERSION);
        EntryRead::Whole(SeenEntry {
            opened,
            key_kind,
            kind,
            value,
            number,
            closed,
        })
    }

    /// Reads the root of the container.
    pub(crate) fn root(&mut self) -> u64
        requires can { CanLook self.old }
        requires online { 0 < announces (view self.old.pass.now).log }
        ensures can { CanLoad self.new }
        ensures same { SamePlace self.old self.new }
        ensures did { DidAll (ReadRoot self.old.o result ∷ []) self.old.pass.now self.new.pass.now }
        ensures table { (t : ℕ) → result ≡ suc t → IsTableName (shape_of self.old.bank.now) t }
        ensures changed { IsNew self.old.o result (view self.old.pass.now).log }
    {
        self.bank.read_root(self.pass, self.o)
    }
}
