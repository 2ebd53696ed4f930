//! Loads of the bank's words, and the entries of calls that only read.
ghost use Rattle.std.specs.Prelude.{◌≡◌, ◌≤◌, ℕ, suc, ◌<◌, ◌+◌, true, false, slice_index};
ghost use Rattle.ft_trace.specs.declared.Act.TheVariants.{Version, ReadBlock, ReadRoot, ReadTable, ReadCounter, Answer, AnswerCursor};
ghost use Rattle.ft_trace.specs.Addresses.{container_count, class_of, size, IsTableName};
ghost use Rattle.ft_trace.specs.Acts.{has_lock, announces, seen_writes, stage};
ghost use Rattle.ft_trace.specs.LoggedLookUps.{IsNew};
ghost use Rattle.ft_trace.specs.Holds.{held_words, in_hand};
ghost use Rattle.ft_trace.specs.Pictures.{root_in};
ghost use Rattle.ft_bank.specs.Reads.{IsShown, IsCursorShown};
ghost use Rattle.ft_bank.specs.TableNames.{table_id, IsPlaceOf, IsTableIn};

use crate::bank::Bank;
use crate::pass::Pass;
use crate::table::Table;
use ft_layout::COUNTER;
use ft_model::{Call, Cursor, Reply};
use std::marker::Brand;

impl Bank {
    ghost use Rattle.ft_bank.specs.Passes.{shape_of, view, cursor_under, IsPassOf, Did};

    /// Loads the version of a container.
    pub fn seq(&self, pass: &mut Pass, o: u32) -> u64
        requires pass { IsPassOf self.now pass.old }
        requires container { o < container_count (shape_of self.now) }
        ensures { Did (Version o result) pass.old pass.new }
    {
        let word = self.block_of(o) + 1;
        self.load_as::<Brand>(pass, word, o, 0, 0)
    }

    /// Loads a word of a container's block, one of words 2 to 7, which are counted from 0 on. With the
    /// lock it is the word that the pass knows. Word 0 is the root, which names a table of the bank.
    pub fn read_block(&self, pass: &mut Pass, o: u32, word: u64) -> u64
        requires pass { IsPassOf self.now pass.old }
        requires container { o < container_count (shape_of self.now) }
        requires word { word < 6 }
        ensures did { Did (ReadBlock o word result) pass.old pass.new }
        ensures held { has_lock o (view pass.old).log ≡ true →
            result ≡ slice_index (held_words o (view pass.old)).block word }
        ensures table { (t : ℕ) → word ≡ 0 → result ≡ suc t → IsTableName (shape_of self.now) t }
    {
        let start = self.block_of(o) + 2;
        self.load_as::<Brand>(pass, start + word, o, 0, word)
    }

    /// Loads the root of a container, to search without the lock in the table that it names; the pass
    /// is online. A root other than the one that the pass read before names a table that it hasn't
    /// found since it last announced.
    pub fn read_root(&self, pass: &mut Pass, o: u32) -> u64
        requires pass { IsPassOf self.now pass.old }
        requires container { o < container_count (shape_of self.now) }
        requires online { 0 < announces (view pass.old).log }
        ensures did { Did (ReadRoot o result) pass.old pass.new }
        ensures table { (t : ℕ) → result ≡ suc t → IsTableName (shape_of self.now) t }
        ensures changed { IsNew o result (view pass.old).log }
    {
        let word = self.block_of(o) + 2;
        self.load_as::<Brand>(pass, word, o, 0, 0)
    }

    /// Loads a word of a table, counted from its header on. It is the word that the pass knows, where
    /// the table is fresh in its hand, or that of a container whose lock it has, or one that the pass
    /// took out of a root and has not retired.
    pub fn read_table(&self, pass: &mut Pass, t: Table, word: u64) -> u64
        requires pass { IsPassOf self.now pass.old }
        requires table { IsTableIn (shape_of self.now) t }
        requires word { word < size (class_of (table_id t)) }
        ensures did { Did (ReadTable (table_id t) word result) pass.old pass.new }
        ensures held { (o : ℕ) → o < container_count (shape_of self.now) → has_lock o (view pass.old).log ≡ true →
            root_in (held_words o (view pass.old)) ≡ suc (table_id t) →
            result ≡ slice_index (held_words o (view pass.old)).table word }
        ensures fresh { stage (table_id t) (view pass.old).log ≡ 1 →
            result ≡ slice_index (in_hand (table_id t) (view pass.old)) word }
        ensures taken { stage (table_id t) (view pass.old).log ≡ 3 →
            result ≡ slice_index (in_hand (table_id t) (view pass.old)) word }
    {
        let start = self.cell_of(t);
        self.read_word(pass, t, start, word)
    }

    /// Loads a word of a table as [`Bank::read_table`] does, for whoever keeps where the table's words lie.
    pub fn read_word(&self, pass: &mut Pass, t: Table, start: u64, word: u64) -> u64
        requires pass { IsPassOf self.now pass.old }
        requires table { IsTableIn (shape_of self.now) t }
        requires place { IsPlaceOf (shape_of self.now) t start }
        requires word { word < size (class_of (table_id t)) }
        ensures did { Did (ReadTable (table_id t) word result) pass.old pass.new }
        ensures held { (o : ℕ) → o < container_count (shape_of self.now) → has_lock o (view pass.old).log ≡ true →
            root_in (held_words o (view pass.old)) ≡ suc (table_id t) →
            result ≡ slice_index (held_words o (view pass.old)).table word }
        ensures fresh { stage (table_id t) (view pass.old).log ≡ 1 →
            result ≡ slice_index (in_hand (table_id t) (view pass.old)) word }
        ensures taken { stage (table_id t) (view pass.old).log ≡ 3 →
            result ≡ slice_index (in_hand (table_id t) (view pass.old)) word }
    {
        self.load_as::<Brand>(pass, start + word, 0, t.name(), word)
    }

    /// Loads the counter: how many writes there were, at least all that the pass had seen.
    pub fn stamp(&self, pass: &mut Pass) -> u64
        requires pass { IsPassOf self.now pass.old }
        ensures did { Did (ReadCounter result) pass.old pass.new }
        ensures seen { seen_writes (view pass.old) ≤ result }
    {
        self.load_as::<Brand>(pass, COUNTER, 0, 0, 0)
    }

    /// Adds the entry of a call that isn't a write: its reply, and as its stamp a number that a load of
    /// the counter gave since the pass's last entry.
    pub fn answer(&self, pass: &mut Pass, call: &Call, reply: &Reply, number: u64)
        requires pass { IsPassOf self.now pass.old }
        requires shown { IsShown (view pass.old) call.now reply.now number }
        ensures { Did (Answer call.now reply.now number) pass.old pass.new }
    {
        self.answer_as::<Brand>(pass, call, reply, number);
    }

    /// Adds the entry of an `iter` or a `next` (Python manual, Iterator Types): its reply, as its stamp a
    /// number that a load of the counter gave since the pass's last entry, and the cursor that it leaves
    /// under its number, which is the pass's from then on.
    pub fn answer_cursor(
        &self,
        pass: &mut Pass,
        call: &Call,
        reply: &Reply,
        stamp: u64,
        number: u32,
        cursor: &Cursor,
    )
        requires pass { IsPassOf self.now pass.old }
        requires shown { IsCursorShown (view pass.old) call.now reply.now stamp number cursor.now }
        ensures { Did (AnswerCursor call.now reply.now stamp number (cursor_under pass.old number) cursor.now) pass.old pass.new }
    {
        self.answer_cursor_as::<Brand>(pass, call, reply, stamp, number, cursor);
    }
}
