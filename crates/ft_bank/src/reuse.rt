//! The steps of delayed reuse, for `ft_qsbr` alone: the write number, the numbers that passes announce,
//! tables that are retired, their goals in their headers, and giving them back.
ghost use Rattle.std.specs.Prelude.{◌≡◌, ℕ, suc, ◌+◌, ◌*◌, ◌/◌, ◌%◌, ◌<◌, ◌≤◌, ◌==◌, [], ◌∷◌, true, cond};
ghost use Rattle.ft_trace.specs.declared.Act.TheVariants.{PutHeader, ReadHeader, Retire, Announce, ReadAnnounced, WriteNumber, GiveTable, RaiseCount};
ghost use Rattle.ft_trace.specs.Acts.{announces, clear, debt, flight, goal, has_goal, owes, stage};
ghost use Rattle.ft_trace.specs.Addresses.{free_word_of, free_bit_of};
ghost use Rattle.ft_trace.specs.Bits.{bit};
ghost use Rattle.ft_bank.specs.Reuse.{MayAnnounce};
ghost use Rattle.ft_bank.specs.Retired.{table_of_bit};
ghost use Rattle.ft_bank.specs.SameBoxes.{SameBoxes};
ghost use Rattle.ft_bank.specs.Takings.{Each, KeepsBut, KeepsHeld, NotTable};
ghost use Rattle.ft_bank.specs.TableNames.{table_id, IsTableIn};

use crate::bank::Bank;
use crate::pass::Pass;
use crate::table::Table;
use ft_layout::{WRITE_NUMBER, announced_word};
use std::marker::Brand;

impl Pass {
    ghost use Rattle.ft_bank.specs.Passes.{view};

    /// A word of the bits of the tables that the pass keeps retired: a bit that is set is that of such a
    /// table, and each of them whose bit lies in this word has it set.
    pub fn retired(&self, word: u32) -> u64
        requires word { word < 224 }
        ensures some { (b : ℕ) → b < 64 → bit b result ≡ 1 →
            IsTableIn (view self.now).shape (table_of_bit word b)
            × (has_goal (table_id (table_of_bit word b)) (view self.now).log ≡ true) }
        ensures all { (t : Table) → IsTableIn (view self.now).shape t → free_word_of (table_id t) ≡ word →
            has_goal (table_id t) (view self.now).log ≡ true → bit (free_bit_of (table_id t)) result ≡ 1 }
    {
        self.retired[word as usize]
    }
}

impl Bank {
    ghost use Rattle.ft_bank.specs.Passes.{shape_of, view, IsPassOf, Did};
    ghost use Rattle.ft_bank.specs.Series.{DidAll};

    /// How many passes the bank has.
    pub fn passes(&self) -> u32
        ensures { result ≡ (shape_of self.now).passes }
    {
        self.shape.passes
    }

    /// Loads the write number, which is 1 at the start.
    pub fn write_number(&self, pass: &mut Pass) -> u64
        requires pass { IsPassOf self.now pass.old }
        ensures did { Did (WriteNumber result) pass.old pass.new }
        ensures some { 0 < result }
        ensures keeps { KeepsBut Each (view pass.old) (view pass.new) }
    {
        self.load_as::<Brand>(pass, WRITE_NUMBER, 0, 0, 0)
    }

    /// Puts the pass's own announced number: 0 for offline, or what it loaded of the write number.
    pub fn announce(&self, pass: &mut Pass, number: u64)
        requires pass { IsPassOf self.now pass.old }
        requires may { MayAnnounce number (view pass.old).log }
        ensures did { Did (Announce (view pass.old).number number) pass.old pass.new }
        ensures keeps { KeepsHeld Each (view pass.old) (view pass.new) }
        ensures debt { debt (view pass.new).log ≡ debt (view pass.old).log }
        ensures boxes { SameBoxes (view pass.old) (view pass.new) }
    {
        let word = announced_word(pass.number);
        let own = u64::from(pass.number) + 1;
        self.store_as::<Brand>(pass, word, number, 0, own, 0);
    }

    /// Loads the announced number of a pass, which may be this one.
    pub fn announced(&self, pass: &mut Pass, other: u32) -> u64
        requires pass { IsPassOf self.now pass.old }
        requires other { other < (shape_of self.now).passes }
        ensures did { Did (ReadAnnounced (other + 1) result) pass.old pass.new }
        ensures keeps { KeepsBut Each (view pass.old) (view pass.new) }
    {
        let word = announced_word(other);
        self.load_as::<Brand>(pass, word, 0, u64::from(other) + 1, 0)
    }

    /// Retires a table that the pass took out of a root: the write number is raised by one, and the new
    /// number is the table's goal.
    pub fn retire(&self, pass: &mut Pass, table: Table) -> u64
        requires pass { IsPassOf self.now pass.old }
        requires table { IsTableIn (shape_of self.now) table }
        requires out { stage (table_id table) (view pass.old).log ≡ 3 }
        requires debt { 0 < debt (view pass.old).log }
        ensures did { (n : ℕ) × (result ≡ n + 1) × Did (Retire (table_id table) n) pass.old pass.new }
        ensures keeps { KeepsHeld (NotTable table) (view pass.old) (view pass.new) }
        ensures announces { announces (view pass.new).log ≡ announces (view pass.old).log }
        ensures boxes { SameBoxes (view pass.old) (view pass.new) }
    {
        let name = table.name() as u32;
        self.add_as::<Brand>(pass, WRITE_NUMBER, name) + 1
    }

    /// Puts the goal of a table that the pass retired into the table's header; the pass keeps the table
    /// from then on until it gives it back.
    pub fn put_goal(&self, pass: &mut Pass, table: Table, number: u64)
        requires pass { IsPassOf self.now pass.old }
        requires table { IsTableIn (shape_of self.now) table }
        requires retired { stage (table_id table) (view pass.old).log ≡ 4 }
        requires goal { number ≡ goal (table_id table) (view pass.old).log }
        ensures did { Did (PutHeader (table_id table) number) pass.old pass.new }
        ensures keeps { KeepsBut Each (view pass.old) (view pass.new) }
    {
        let word = self.cell_of(table) - 1;
        self.goal_as::<Brand>(pass, word, number, table);
    }

    /// Loads the goal of a table that the pass keeps retired.
    pub fn goal(&self, pass: &mut Pass, table: Table) -> u64
        requires pass { IsPassOf self.now pass.old }
        requires table { IsTableIn (shape_of self.now) table }
        requires kept { has_goal (table_id table) (view pass.old).log ≡ true }
        ensures did { Did (ReadHeader (table_id table) result) pass.old pass.new }
        ensures is { result ≡ goal (table_id table) (view pass.old).log }
        ensures stage { stage (table_id table) (view pass.old).log ≡ 4 }
        ensures keeps { KeepsBut Each (view pass.old) (view pass.new) }
    {
        let word = self.cell_of(table) - 1;
        self.load_as::<Brand>(pass, word, 0, table.name(), 0)
    }

    /// Gives back a table that the pass retired, where it has found each pass offline or at least at the
    /// goal since then.
    pub fn give_retired(&self, pass: &mut Pass, table: Table)
        requires pass { IsPassOf self.now pass.old }
        requires table { IsTableIn (shape_of self.now) table }
        requires retired { stage (table_id table) (view pass.old).log ≡ 4 }
        requires clear { (p : ℕ) → 0 < p → p ≤ (shape_of self.now).passes → clear (table_id table) p (view pass.old).log ≡ true }
        requires idle { flight (view pass.old).log ≡ 0 }
        ensures pass { IsPassOf self.now pass.new }
        ensures did { (n : ℕ) × DidAll (RaiseCount table.class n ∷ GiveTable (table_id table) ∷ []) pass.old pass.new }
        ensures given { stage (table_id table) (view pass.new).log ≡ 0 }
        ensures owes { owes (view pass.new).log ≡ cond (owes (view pass.old).log == suc table.class) 0 (owes (view pass.old).log) }
        ensures idle { flight (view pass.new).log ≡ 0 }
        ensures keeps { KeepsBut (NotTable table) (view pass.old) (view pass.new) }
    {
        self.set_bit(pass, table);
        self.raise_count(pass, table.class);
    }
}
