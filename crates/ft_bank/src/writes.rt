//! The steps of a write: by a pass with the lock, from an odd version over its puts and the counter, which
//! is the write, to an even version.
ghost use Rattle.std.specs.Prelude.{◌≡◌, ◌≢◌, ◌⊎◌, ℕ, suc, ◌<◌, ◌≤◌, ◌+◌, true, false, Some, slice_index, slice_set};
ghost use Rattle.ft_trace.specs.declared.Act.TheVariants.{StartWrite, PutBlock, PutRoot, PutTable, PutFresh, Commit, StopWrite};
ghost use Rattle.ft_trace.specs.declared.Snap.{Snap};
ghost use Rattle.ft_trace.specs.Addresses.{container_count, class_of, size};
ghost use Rattle.ft_trace.specs.Acts.{has_lock, is_writing, has_committed, seen_writes, stage};
ghost use Rattle.ft_trace.specs.Pictures.{root_in, Represents};
ghost use Rattle.ft_trace.specs.Boxes.{names_box, references_held};
ghost use Rattle.ft_trace.specs.BoxWords.{box_kind};
ghost use Rattle.ft_trace.specs.ContainerStates.{kind_in};
ghost use Rattle.ft_trace.specs.Holds.{held_words, held_unboxed, known_state, in_hand, hand_unboxed};
ghost use Rattle.ft_trace.specs.WholeWrites.{IsNoValue};
ghost use Rattle.ft_bank.specs.BoxSteps.{kind_read, payload_read, value_acts, HasReferenceFor, IsOpenValue};
ghost use Rattle.ft_bank.specs.SameBoxes.{HoldsFew, MovesReferences, SameBoxes, SameReferences};
ghost use Rattle.ft_bank.specs.Series.{DidAll};
ghost use Rattle.ft_bank.specs.Whole.{OnlyPut};
ghost use Rattle.ft_bank.specs.WriteSteps.{Committed, MayCommit, MayPutRoot, IsCareful, IsShut, KeepsUnwritten, with_block, with_root, with_unboxed_root, with_table};
ghost use Rattle.ft_bank.specs.declared.table.Table.{Table};
ghost use Rattle.ft_bank.specs.TableNames.{table_id, root_for, IsPlaceOf, IsTableIn};

use crate::bank::Bank;
use crate::pass::Pass;
use crate::table::{Table, root_value};
use ft_model::{Call, Reply};
use std::marker::Brand;

/// The kind of a value that stands in a box.
const BOX_KIND: u64 = 4;

impl Bank {
    ghost use Rattle.ft_bank.specs.Passes.{shape_of, view, IsPassOf, Did};

    /// Makes the version of a container odd, and answers what it was. A pass writes one container at a time.
    pub fn start_write(&self, pass: &mut Pass, o: u32) -> u64
        requires pass { IsPassOf self.now pass.old }
        requires container { o < container_count (shape_of self.now) }
        requires locked { has_lock o (view pass.old).log ≡ true }
        requires even { (p : ℕ) → is_writing p (view pass.old).log ≡ false }
        ensures { Did (StartWrite o result) pass.old pass.new }
    {
        let word = self.block_of(o) + 1;
        self.add_as::<Brand>(pass, word, o)
    }

    /// Puts a word of a container's block that isn't its root, one of words 3 to 7, which are counted from
    /// 1 on.
    pub fn put_block(&self, pass: &mut Pass, o: u32, word: u64, value: u64)
        requires pass { IsPassOf self.now pass.old }
        requires container { o < container_count (shape_of self.now) }
        requires odd { is_writing o (view pass.old).log ≡ true }
        requires word { (word ≢ 0) × (word < 6) }
        ensures did { Did (PutBlock o word value) pass.old pass.new }
        ensures held { held_words o (view pass.new) ≡ with_block (held_words o (view pass.old)) word value }
        ensures unboxed { held_unboxed o (view pass.new) ≡ with_block (held_unboxed o (view pass.old)) word value }
        ensures boxes { SameBoxes (view pass.old) (view pass.new) }
        ensures moves { MovesReferences o (view pass.old) (view pass.new) }
        ensures keeps { KeepsUnwritten (view pass.old) (view pass.new) }
    {
        let start = self.block_of(o) + 2;
        self.store_as::<Brand>(pass, start + word, value, o, 0, word);
    }

    /// Puts a root: that of a table which is fresh in hand and as it must be for readers, or 0 before
    /// the commit. The table that the root named is then the pass's, to be retired.
    pub fn put_root(&self, pass: &mut Pass, o: u32, root: Option<Table>)
        requires pass { IsPassOf self.now pass.old }
        requires container { o < container_count (shape_of self.now) }
        requires table { (t : Table) → root ≡ Some t → IsTableIn (shape_of self.now) t }
        requires may { MayPutRoot (view pass.old) o root }
        ensures did { Did (PutRoot o (root_for root) (root_in (held_words o (view pass.old)))) pass.old pass.new }
        ensures held { held_words o (view pass.new) ≡ with_root (held_words o (view pass.old)) root (view pass.old) }
        ensures unboxed { held_unboxed o (view pass.new) ≡ with_unboxed_root (held_unboxed o (view pass.old)) o root (view pass.old) }
        ensures moves { MovesReferences o (view pass.old) (view pass.new) }
        ensures keeps { KeepsUnwritten (view pass.old) (view pass.new) }
    {
        let word = self.block_of(o) + 2;
        let value = root_value(root);
        self.store_as::<Brand>(pass, word, value, o, value, 0);
    }

    /// Puts a word of the table that the root of a container names, counted from its header on, with
    /// care for those who read it without the lock.
    pub fn put_table(&self, pass: &mut Pass, o: u32, t: Table, word: u64, value: u64)
        requires pass { IsPassOf self.now pass.old }
        requires container { o < container_count (shape_of self.now) }
        requires table { IsTableIn (shape_of self.now) t }
        requires word { word < size (class_of (table_id t)) }
        requires odd { is_writing o (view pass.old).log ≡ true }
        requires root { root_in (held_words o (view pass.old)) ≡ suc (table_id t) }
        requires care { IsCareful (view pass.old) o (table_id t) word value }
        ensures did { Did (PutTable o (table_id t) word value) pass.old pass.new }
        ensures held { held_words o (view pass.new) ≡ with_table (held_words o (view pass.old)) word value }
        ensures unboxed { IsNoValue (kind_in (shape_of self.now).starts o) (class_of (table_id t)) word →
            held_unboxed o (view pass.new) ≡ with_table (held_unboxed o (view pass.old)) word value }
        ensures moves { MovesReferences o (view pass.old) (view pass.new) }
        ensures same { IsNoValue (kind_in (shape_of self.now).starts o) (class_of (table_id t)) word →
            SameReferences (view pass.old) (view pass.new) }
        ensures keeps { KeepsUnwritten (view pass.old) (view pass.new) }
    {
        let start = self.cell_of(t);
        self.put_word(pass, o, t, start, word, value);
    }

    /// Puts a word of a table as [`Bank::put_table`] does, for whoever keeps where the table's words lie.
    #[inline(always)]
    pub fn put_word(&self, pass: &mut Pass, o: u32, t: Table, start: u64, word: u64, value: u64)
        requires pass { IsPassOf self.now pass.old }
        requires container { o < container_count (shape_of self.now) }
        requires table { IsTableIn (shape_of self.now) t }
        requires place { IsPlaceOf (shape_of self.now) t start }
        requires word { word < size (class_of (table_id t)) }
        requires odd { is_writing o (view pass.old).log ≡ true }
        requires root { root_in (held_words o (view pass.old)) ≡ suc (table_id t) }
        requires care { IsCareful (view pass.old) o (table_id t) word value }
        ensures did { Did (PutTable o (table_id t) word value) pass.old pass.new }
        ensures held { held_words o (view pass.new) ≡ with_table (held_words o (view pass.old)) word value }
        ensures unboxed { IsNoValue (kind_in (shape_of self.now).starts o) (class_of (table_id t)) word →
            held_unboxed o (view pass.new) ≡ with_table (held_unboxed o (view pass.old)) word value }
        ensures moves { MovesReferences o (view pass.old) (view pass.new) }
        ensures same { IsNoValue (kind_in (shape_of self.now).starts o) (class_of (table_id t)) word →
            SameReferences (view pass.old) (view pass.new) }
        ensures keeps { KeepsUnwritten (view pass.old) (view pass.new) }
    {
        self.store_as::<Brand>(pass, start + word, value, o, t.name(), word);
    }

    /// Puts the value of an entry or item whose version is odd, whose kind lies at this word of the table and whose
    /// payload at the next: the value itself, or what names the box in which it stands, for which the pass holds a
    /// reference and whose value it knows. That reference is the words' then, and that of a box which they named before
    /// is the pass's. The two words are put in an order in which they name no box by accident, each in a step of its
    /// own. `start` is where the table's words lie.
    pub fn put_value(
        &self,
        pass: &mut Pass,
        o: u32,
        t: Table,
        start: u64,
        word: u64,
        kind: u64,
        payload: u64,
    )
        requires pass { IsPassOf self.now pass.old }
        requires container { o < container_count (shape_of self.now) }
        requires table { IsTableIn (shape_of self.now) t }
        requires place { IsPlaceOf (shape_of self.now) t start }
        requires odd { is_writing o (view pass.old).log ≡ true }
        requires root { root_in (held_words o (view pass.old)) ≡ suc (table_id t) }
        requires value { IsOpenValue (view pass.old) o (table_id t) word }
        requires reference { HasReferenceFor (view pass.old) kind payload }
        requires few { HoldsFew (view pass.old) }
        ensures did { DidAll (value_acts o (table_id t) word kind payload) pass.old pass.new }
        ensures held { held_words o (view pass.new) ≡
            with_table (with_table (held_words o (view pass.old)) word kind) (word + 1) payload }
        ensures unboxed { held_unboxed o (view pass.new) ≡
            with_table (with_table (held_unboxed o (view pass.old)) word (kind_read (view pass.old) kind payload))
            (word + 1) (payload_read (view pass.old) kind payload) }
        ensures references { (b : ℕ) →
            references_held (shape_of self.now) b (view pass.new).log + names_box b kind payload ≡
            references_held (shape_of self.now) b (view pass.old).log
            + names_box b (slice_index (held_words o (view pass.old)).table word)
            (slice_index (held_words o (view pass.old)).table (word + 1)) }
        ensures only { OnlyPut o (view pass.old) (view pass.new) }
        ensures keeps { KeepsUnwritten (view pass.old) (view pass.new) }
    {
        let next = word + 1;
        if kind == BOX_KIND {
            self.put_word(pass, o, t, start, next, payload);
            self.put_word(pass, o, t, start, word, kind);
        } else {
            self.put_word(pass, o, t, start, word, kind);
            self.put_word(pass, o, t, start, next, payload);
        }
    }

    /// Puts the payload alone of the value of an entry or item whose version is odd, where its kind, which lies at this
    /// word of the table, names no box. `start` is where the table's words lie.
    pub fn put_payload(
        &self,
        pass: &mut Pass,
        o: u32,
        t: Table,
        start: u64,
        word: u64,
        payload: u64,
    )
        requires pass { IsPassOf self.now pass.old }
        requires container { o < container_count (shape_of self.now) }
        requires table { IsTableIn (shape_of self.now) t }
        requires place { IsPlaceOf (shape_of self.now) t start }
        requires odd { is_writing o (view pass.old).log ≡ true }
        requires root { root_in (held_words o (view pass.old)) ≡ suc (table_id t) }
        requires value { IsOpenValue (view pass.old) o (table_id t) word }
        requires plain { slice_index (held_words o (view pass.old)).table word ≢ box_kind }
        requires few { HoldsFew (view pass.old) }
        ensures did { Did (PutTable o (table_id t) (word + 1) payload) pass.old pass.new }
        ensures held { held_words o (view pass.new) ≡ with_table (held_words o (view pass.old)) (word + 1) payload }
        ensures unboxed { held_unboxed o (view pass.new) ≡ with_table (held_unboxed o (view pass.old)) (word + 1) payload }
        ensures same { SameReferences (view pass.old) (view pass.new) }
        ensures only { OnlyPut o (view pass.old) (view pass.new) }
        ensures keeps { KeepsUnwritten (view pass.old) (view pass.new) }
    {
        let next = word + 1;
        self.put_word(pass, o, t, start, next, payload);
    }

    /// Puts a word of a table that is fresh in hand, counted from its header on.
    pub fn put_fresh(&self, pass: &mut Pass, t: Table, word: u64, value: u64)
        requires pass { IsPassOf self.now pass.old }
        requires table { IsTableIn (shape_of self.now) t }
        requires word { word < size (class_of (table_id t)) }
        requires fresh { stage (table_id t) (view pass.old).log ≡ 1 }
        ensures did { Did (PutFresh (table_id t) word value) pass.old pass.new }
        ensures fresh { in_hand (table_id t) (view pass.new) ≡
            slice_set (in_hand (table_id t) (view pass.old)) word value }
        ensures unboxed { (o : ℕ) → IsNoValue (kind_in (shape_of self.now).starts o) (class_of (table_id t)) word →
            hand_unboxed o (table_id t) (view pass.new) ≡
            slice_set (hand_unboxed o (table_id t) (view pass.old)) word value }
        ensures moves { (o : ℕ) → o < container_count (shape_of self.now) → has_lock o (view pass.old).log ≡ true →
            MovesReferences o (view pass.old) (view pass.new) }
        ensures keeps { KeepsUnwritten (view pass.old) (view pass.new) }
    {
        let start = self.cell_of(t);
        self.put_fresh_word(pass, t, start, word, value);
    }

    /// Puts a word of a table as [`Bank::put_fresh`] does, for whoever keeps where the table's words lie.
    #[inline(always)]
    pub fn put_fresh_word(&self, pass: &mut Pass, t: Table, start: u64, word: u64, value: u64)
        requires pass { IsPassOf self.now pass.old }
        requires table { IsTableIn (shape_of self.now) t }
        requires place { IsPlaceOf (shape_of self.now) t start }
        requires word { word < size (class_of (table_id t)) }
        requires fresh { stage (table_id t) (view pass.old).log ≡ 1 }
        ensures did { Did (PutFresh (table_id t) word value) pass.old pass.new }
        ensures fresh { in_hand (table_id t) (view pass.new) ≡
            slice_set (in_hand (table_id t) (view pass.old)) word value }
        ensures unboxed { (o : ℕ) → IsNoValue (kind_in (shape_of self.now).starts o) (class_of (table_id t)) word →
            hand_unboxed o (table_id t) (view pass.new) ≡
            slice_set (hand_unboxed o (table_id t) (view pass.old)) word value }
        ensures moves { (o : ℕ) → o < container_count (shape_of self.now) → has_lock o (view pass.old).log ≡ true →
            MovesReferences o (view pass.old) (view pass.new) }
        ensures keeps { KeepsUnwritten (view pass.old) (view pass.new) }
    {
        self.store_as::<Brand>(pass, start + word, value, 0, t.name(), word);
    }

    /// Raises the counter, which is the write, and answers its number: at least all writes that the pass had
    /// seen. A box that no write of the pass had stored is stored by this one.
    pub fn commit(&self, pass: &mut Pass, call: &Call, reply: &Reply) -> u64
        requires pass { IsPassOf self.now pass.old }
        requires may { MayCommit (view pass.old) call.now reply.now }
        ensures did { (s : Snap) × Did (Commit call.now reply.now result s) pass.old pass.new }
        ensures committed { Committed (view pass.old) (view pass.new) call.now }
        ensures seen { seen_writes (view pass.old) ≤ result }
    {
        self.commit_as::<Brand>(pass, call, reply)
    }

    /// Makes the version of a container even again, whose words stand for what the pass knows of it.
    pub fn stop_write(&self, pass: &mut Pass, o: u32) -> u64
        requires pass { IsPassOf self.now pass.old }
        requires container { o < container_count (shape_of self.now) }
        requires odd { is_writing o (view pass.old).log ≡ true }
        requires committed { has_committed o (view pass.old).log ≡ true }
        requires stands { Represents (shape_of self.now).texts (held_unboxed o (view pass.old)) (known_state o (view pass.old)) }
        requires shut { IsShut o (view pass.old) }
        ensures { Did (StopWrite o result) pass.old pass.new }
    {
        let word = self.block_of(o) + 1;
        self.add_as::<Brand>(pass, word, o)
    }
}
