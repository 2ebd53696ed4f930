//! The steps on boxes: a pass takes a place of its own heap, puts a box there and publishes it. Each reference is
//! counted once, by the maker in the local count while the box is in the default state, and by all others in the
//! shared count (PEP 703, "Biased Reference Counting"). Who brings a merged box to its end gives the place back.
ghost use Rattle.std.specs.Prelude.{◌≡◌, ◌≢◌, ◌⊎◌, ℕ, ◌+◌, ◌-◌, ◌*◌, ◌/◌, ◌%◌, ◌^◌, ◌<◌, ◌≤◌, true, false};
ghost use Rattle.ft_layout.specs.Starts.{box_size, shared_word, kind_word, payload_word, local_word};
ghost use Rattle.ft_trace.specs.declared.Act.TheVariants.{ReadFreePlaces, TakePlace, PutBox, PublishBox, ReadBox, RaiseLocal, DropLocal, ClearLocal, MergeCounts, RaiseShared, RaiseKept, DropShared, GivePlace};
ghost use Rattle.ft_trace.specs.Acts.{is_writing};
ghost use Rattle.ft_trace.specs.Addresses.{at, extent, box_word, heap_bits, maker_of, place_word_of, place_bit_of};
ghost use Rattle.ft_trace.specs.Bits.{bit};
ghost use Rattle.ft_trace.specs.Boxes.{made_state, local_count, taken_out, place_to_give, references_held, known_box_word, knows_box_word, HasPutValue, KeepsBox, state_making, state_default};
ghost use Rattle.ft_trace.specs.BoxWords.{count_unit, merged_bits, dead_word};
ghost use Rattle.ft_trace.specs.SeenBoxes.{SawBox};
ghost use Rattle.ft_bank.specs.BoxSteps.{box_id, IsBoxIn, IsMaking, IsOwn, IsShared, HasFoundFree};
ghost use Rattle.ft_bank.specs.Whole.{OnlyBoxed, OnlyLoaded};

use crate::bank::Bank;
use crate::pass::Pass;
use ft_layout::Ref;
use std::marker::Brand;

/// How many bits a word has.
const BITS: u32 = 64;
/// How many words a box has.
const BOX: u64 = 4;
/// The step between the names of two passes' first boxes.
const NAMES: u32 = 65536;
/// The shared count, the local count: which words of a box they are.
const SHARED: u64 = 0;

const LOCAL: u64 = 3;
/// What the shared word has for one reference, and the bits that say that the box was merged.
const UNIT: u64 = 4;

const MERGED: u64 = 3;

/// The name that traces have for a box: the payload of a value that stands in it.
fn name_of(b: Ref) -> u32
    requires maker { b.pass < 64 }
    requires place { b.place < 4096 }
    ensures { result ≡ box_id b }
{
    NAMES * b.pass + b.place
}

impl Bank {
    ghost use Rattle.ft_bank.specs.Passes.{shape_of, view, IsPassOf, Did};

    /// How many places for boxes each pass has.
    pub fn heap(&self) -> u32
        ensures { result ≡ (shape_of self.now).heap }
    {
        self.shape.heap
    }

    /// Where a word of a box lies.
    fn box_at(&self, b: Ref, word: u64) -> u64
        requires name { IsBoxIn (shape_of self.now) b }
        requires word { word < box_size }
        ensures is { result ≡ at (shape_of self.now) (box_word (box_id b) word) }
        ensures low { result < extent (shape_of self.now) }
    {
        self.boxes + u64::from(b.pass) * self.heap_words + BOX * u64::from(b.place) + word
    }

    /// Where a word of the bits of a heap lies.
    fn heap_at(&self, maker: u32, word: u32) -> u64
        requires maker { maker < (shape_of self.now).passes }
        requires word { word < (shape_of self.now).heap / 64 }
        ensures is { result ≡ at (shape_of self.now) (heap_bits maker word) }
        ensures low { result < extent (shape_of self.now) }
    {
        self.heaps + u64::from(maker) * self.heap_words + u64::from(word)
    }

    /// Loads a word of the bits of a pass's heap: a bit is set where the place is free.
    pub fn read_free_places(&self, pass: &mut Pass, maker: u32, word: u32) -> u64
        requires pass { IsPassOf self.now pass.old }
        requires maker { maker < (shape_of self.now).passes }
        requires word { word < (shape_of self.now).heap / 64 }
        ensures did { Did (ReadFreePlaces maker word result) pass.old pass.new }
        ensures only { OnlyLoaded (view pass.old) (view pass.new) }
    {
        let at = self.heap_at(maker, word);
        self.load_as::<Brand>(pass, at, maker, 0, u64::from(word))
    }

    /// Clears the bit of a place of the pass's own heap, in which it keeps no box that wasn't merged, and answers the
    /// word of bits as it was. A place that the pass has found free is taken. It writes no container meanwhile.
    pub fn take_place(&self, pass: &mut Pass, b: Ref) -> u64
        requires pass { IsPassOf self.now pass.old }
        requires name { IsBoxIn (shape_of self.now) b }
        requires maker { (view pass.old).number ≡ b.pass + 1 }
        requires apart { (made_state (box_id b) (view pass.old).log ≢ state_making)
            × (made_state (box_id b) (view pass.old).log ≢ state_default) }
        requires idle { (o : ℕ) → is_writing o (view pass.old).log ≡ false }
        ensures did { Did (TakePlace (box_id b) result) pass.old pass.new }
        ensures took { HasFoundFree (box_id b) (view pass.old).log → bit (place_bit_of (box_id b)) result ≡ 1 }
        ensures only { OnlyBoxed (view pass.old) (view pass.new) }
    {
        let at = self.heap_at(b.pass, b.place / BITS);
        let mask = !(1 << (b.place % BITS));
        self.mask_as::<Brand>(pass, at, mask, u64::from(name_of(b)))
    }

    /// Puts the kind, the payload or the local count of a box that the pass is making.
    pub fn put_box(&self, pass: &mut Pass, b: Ref, word: u64, value: u64)
        requires pass { IsPassOf self.now pass.old }
        requires name { IsBoxIn (shape_of self.now) b }
        requires word { (word < box_size) × (word ≢ shared_word) }
        requires making { IsMaking b (view pass.old) }
        ensures did { Did (PutBox (box_id b) word value) pass.old pass.new }
        ensures only { OnlyBoxed (view pass.old) (view pass.new) }
    {
        let at = self.box_at(b, word);
        self.store_as::<Brand>(pass, at, value, name_of(b), 0, word);
    }

    /// Puts 0 into the shared word of a box that the pass has made, with a value and local count 1: until then every
    /// raise of another pass finds a dead box. The pass holds the box's one reference.
    pub fn publish_box(&self, pass: &mut Pass, b: Ref)
        requires pass { IsPassOf self.now pass.old }
        requires name { IsBoxIn (shape_of self.now) b }
        requires making { IsMaking b (view pass.old) }
        requires counted { local_count (box_id b) (view pass.old).log ≡ 1 }
        requires few { references_held (shape_of self.now) (box_id b) (view pass.old).log + 1 < 2 ^ 32 }
        requires value { HasPutValue (shape_of self.now) (box_id b) (view pass.old).log }
        ensures did { Did (PublishBox (box_id b)) pass.old pass.new }
        ensures only { OnlyBoxed (view pass.old) (view pass.new) }
    {
        let at = self.box_at(b, SHARED);
        self.store_as::<Brand>(pass, at, 0, name_of(b), 0, 0);
    }

    /// Loads a word of a box. It is the word that the pass knows, where it knows one, and the local count of a box
    /// that it made, which is at most 2^60. The low bits of the shared word tell the pass of this heap whether it has
    /// the box in the default state; no other pass has it so.
    pub fn read_box(&self, pass: &mut Pass, b: Ref, word: u64) -> u64
        requires pass { IsPassOf self.now pass.old }
        requires name { IsBoxIn (shape_of self.now) b }
        requires word { word < box_size }
        ensures did { Did (ReadBox (box_id b) word result) pass.old pass.new }
        ensures known { (word ≡ kind_word) ⊎ (word ≡ payload_word) →
            knows_box_word (shape_of self.now) (box_id b) word (view pass.old).log ≡ true →
            result ≡ known_box_word (shape_of self.now) (box_id b) word (view pass.old).log }
        ensures local { word ≡ local_word → IsOwn b (view pass.old) →
            (result ≡ local_count (box_id b) (view pass.old).log) × (result ≤ 2 ^ 60) }
        ensures state { word ≡ shared_word → (view pass.old).number ≡ b.pass + 1 →
            (result % count_unit ≡ 0 → IsOwn b (view pass.old)) × (result % count_unit ≢ 0 → IsShared b (view pass.old)) }
        ensures other { (view pass.old).number ≢ b.pass + 1 → IsShared b (view pass.old) }
        ensures only { OnlyLoaded (view pass.old) (view pass.new) }
    {
        let at = self.box_at(b, word);
        self.load_as::<Brand>(pass, at, name_of(b), 0, word)
    }

    /// Raises the local count of a box that the pass made, which is this, and of which no merge is under way.
    pub fn raise_local(&self, pass: &mut Pass, b: Ref, count: u64)
        requires pass { IsPassOf self.now pass.old }
        requires name { IsBoxIn (shape_of self.now) b }
        requires own { IsOwn b (view pass.old) }
        requires count { (count ≡ local_count (box_id b) (view pass.old).log) × (count < 2 ^ 60) }
        requires whole { taken_out (box_id b) (view pass.old).log ≡ 0 }
        requires few { references_held (shape_of self.now) (box_id b) (view pass.old).log + 1 < 2 ^ 32 }
        ensures did { Did (RaiseLocal (box_id b) (count + 1)) pass.old pass.new }
        ensures only { OnlyBoxed (view pass.old) (view pass.new) }
    {
        let at = self.box_at(b, LOCAL);
        self.store_as::<Brand>(pass, at, count + 1, name_of(b), 0, 0);
    }

    /// Lowers the local count of a box that the pass made, which is this: it holds one reference less.
    pub fn drop_local(&self, pass: &mut Pass, b: Ref, count: u64)
        requires pass { IsPassOf self.now pass.old }
        requires name { IsBoxIn (shape_of self.now) b }
        requires own { IsOwn b (view pass.old) }
        requires count { (count ≡ local_count (box_id b) (view pass.old).log) × (0 < count) }
        requires held { 0 < references_held (shape_of self.now) (box_id b) (view pass.old).log }
        ensures did { Did (DropLocal (box_id b) (count - 1)) pass.old pass.new }
        ensures only { OnlyBoxed (view pass.old) (view pass.new) }
    {
        let at = self.box_at(b, LOCAL);
        self.store_as::<Brand>(pass, at, count - 1, name_of(b), 0, 0);
    }

    /// Puts 0 into the local count of a box that the pass made, which begins a merge.
    pub fn clear_local(&self, pass: &mut Pass, b: Ref)
        requires pass { IsPassOf self.now pass.old }
        requires name { IsBoxIn (shape_of self.now) b }
        requires own { IsOwn b (view pass.old) }
        requires whole { taken_out (box_id b) (view pass.old).log ≡ 0 }
        ensures did { Did (ClearLocal (box_id b)) pass.old pass.new }
        ensures only { OnlyBoxed (view pass.old) (view pass.new) }
    {
        let at = self.box_at(b, LOCAL);
        self.store_as::<Brand>(pass, at, 0, name_of(b), 0, 0);
    }

    /// Adds to the shared word of a box that the pass made what it has taken out of the local count, and the bits that
    /// say that the box was merged; answers the word as it was.
    pub fn merge_counts(&self, pass: &mut Pass, b: Ref, taken: u64) -> u64
        requires pass { IsPassOf self.now pass.old }
        requires name { IsBoxIn (shape_of self.now) b }
        requires own { IsOwn b (view pass.old) }
        requires cleared { local_count (box_id b) (view pass.old).log ≡ 0 }
        requires taken { (taken ≡ taken_out (box_id b) (view pass.old).log) × (taken ≤ 2 ^ 60) }
        ensures did { Did (MergeCounts (box_id b) (count_unit * taken + merged_bits) result) pass.old pass.new }
        ensures only { OnlyBoxed (view pass.old) (view pass.new) }
    {
        let at = self.box_at(b, SHARED);
        self.raise_as::<Brand>(pass, at, UNIT * taken + MERGED, name_of(b))
    }

    /// Raises the shared count of a box, whose name the pass has read in a container, where its word is this, which
    /// isn't that of a dead box; answers what it was. Where it was this the pass holds one reference more.
    pub fn raise_shared(&self, pass: &mut Pass, b: Ref, old: u64) -> u64
        requires pass { IsPassOf self.now pass.old }
        requires name { IsBoxIn (shape_of self.now) b }
        requires shared { IsShared b (view pass.old) }
        requires live { old ≢ dead_word }
        requires few { references_held (shape_of self.now) (box_id b) (view pass.old).log + 1 < 2 ^ 32 }
        requires saw { SawBox (shape_of self.now) (box_id b) (view pass.old).log }
        ensures did { Did (RaiseShared (box_id b) old result) pass.old pass.new }
        ensures only { OnlyBoxed (view pass.old) (view pass.new) }
    {
        let at = self.box_at(b, SHARED);
        self.exchange_as::<Brand>(pass, at, old, old.wrapping_add(UNIT), name_of(b))
    }

    /// Raises the shared count of a box for which the pass holds a reference, or that a container names whose lock it
    /// has, and answers the word as it was.
    pub fn raise_kept(&self, pass: &mut Pass, b: Ref) -> u64
        requires pass { IsPassOf self.now pass.old }
        requires name { IsBoxIn (shape_of self.now) b }
        requires shared { IsShared b (view pass.old) }
        requires kept { KeepsBox (shape_of self.now) (box_id b) (view pass.old).log }
        requires few { references_held (shape_of self.now) (box_id b) (view pass.old).log + 1 < 2 ^ 32 }
        ensures did { Did (RaiseKept (box_id b) result) pass.old pass.new }
        ensures only { OnlyBoxed (view pass.old) (view pass.new) }
    {
        let at = self.box_at(b, SHARED);
        self.raise_as::<Brand>(pass, at, UNIT, name_of(b))
    }

    /// Lowers the shared count of a box for which the pass holds a reference, and answers the word as it was. Where the
    /// box is dead then, the pass has its place to give back.
    pub fn drop_shared(&self, pass: &mut Pass, b: Ref) -> u64
        requires pass { IsPassOf self.now pass.old }
        requires name { IsBoxIn (shape_of self.now) b }
        requires shared { IsShared b (view pass.old) }
        requires held { 0 < references_held (shape_of self.now) (box_id b) (view pass.old).log }
        ensures did { Did (DropShared (box_id b) result) pass.old pass.new }
        ensures only { OnlyBoxed (view pass.old) (view pass.new) }
    {
        let at = self.box_at(b, SHARED);
        self.lower_as::<Brand>(pass, at, UNIT, name_of(b))
    }

    /// Sets the bit of the place of a box that the pass has brought to its end.
    pub fn give_place(&self, pass: &mut Pass, b: Ref)
        requires pass { IsPassOf self.now pass.old }
        requires name { IsBoxIn (shape_of self.now) b }
        requires due { place_to_give (box_id b) (view pass.old).log ≡ 1 }
        ensures did { Did (GivePlace (box_id b)) pass.old pass.new }
        ensures only { OnlyBoxed (view pass.old) (view pass.new) }
    {
        let at = self.heap_at(b.pass, b.place / BITS);
        self.set_as::<Brand>(pass, at, 1 << (b.place % BITS), name_of(b));
    }
}
