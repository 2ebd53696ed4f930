//! Takings and givings of tables, for whoever changes the table of a container. How many tables of a class
//! are free stands in a count word. A taking lowers it before it looks for a table's bit, and a giving raises
//! it once it has set the bit, so at no moment does it say more than there are bits; a taking that comes away
//! with no bit raises it again.
ghost use Rattle.std.specs.Prelude.{◌≡◌, ◌⊎◌, ℕ, suc, ◌+◌, ◌*◌, ◌<◌, ◌==◌, [], ◌∷◌, List, cond, true};
ghost use Rattle.ft_model.specs.Classes.{IsClass};
ghost use Rattle.ft_trace.specs.declared.Act.{Act};
ghost use Rattle.ft_trace.specs.declared.Act.TheVariants.{LowerCount, RaiseCount, ReadCount, ReadFree, TakeTable, GiveTable};
ghost use Rattle.ft_trace.specs.declared.Snap.{Snap};
ghost use Rattle.ft_trace.specs.Acts.{flight, owes, stage};
ghost use Rattle.ft_trace.specs.Addresses.{free_bit_of};
ghost use Rattle.ft_trace.specs.Bits.{bit};
ghost use Rattle.ft_bank.specs.Takings.{Each, HasNotMoved, HasTook, IsSearch, IsTaking, KeepsBut, NotTable, StaysIn, HasFound, StaysInSearch, IsBitCleared, IsShutIn, IsUnclaimed, MayGive, word_of_class};
ghost use Rattle.ft_bank.specs.TableNames.{table_id, IsTableIn};

use crate::bank::Bank;
use crate::pass::Pass;
use crate::table::Table;
use ft_layout::{free_count_word, free_word};
use ft_model::LEAST_CLASS;
use std::marker::Brand;

/// How many free words a class has.
const WORDS: u32 = 16;
/// How many bits a word has.
const BITS: u32 = 64;

/// What a taking of a table answers.
#[derive(Clone, Copy, Debug, PartialEq, Eq)]
pub enum Took {
    /// The table is the pass's now. It has the words that its last user left.
    Taken(Table),
    /// The count of the class was 0.
    AllTaken,
    /// Other passes took or gave tables of the class meanwhile: its count or a free word was the first
    /// number and then the second; or its count was the first number and each free word was 0 at its
    /// load, and the second is 0.
    Moved(u64, u64),
}

/// What a search for a set bit of a class answers.
#[derive(Clone, Copy, Debug, PartialEq, Eq)]
pub(crate) enum Search {
    /// The table whose bit it cleared.
    Found(Table),
    /// A word had a set bit, which another pass cleared first: the word at the load, and afterwards.
    Lost(u64, u64),
    /// Each word was 0.
    Nothing,
}

impl Bank {
    ghost use Rattle.ft_bank.specs.Passes.{shape_of, view, IsPassOf, Did};
    ghost use Rattle.ft_bank.specs.Series.{DidAll};

    /// Tries to take a table of a class. The pass has lowered no count since its last commit that it
    /// hasn't raised again, and is in the midst of no taking or giving. A table that was used before has
    /// its old words: who puts it into a root writes it whole first.
    pub fn take_table(&self, pass: &mut Pass, class: u32) -> Took
        requires pass { IsPassOf self.now pass.old }
        requires class { IsClass class }
        requires idle { flight (view pass.old).log ≡ 0 }
        requires none { owes (view pass.old).log ≡ 0 }
        ensures pass { IsPassOf self.now pass.new }
        ensures did { (acts : List Act) × DidAll acts pass.old pass.new × IsTaking class result acts }
        ensures has { HasTook (shape_of self.now) class result (view pass.old) (view pass.new) }
        ensures floor { (view pass.old).has_floor ≡ true → HasNotMoved result }
        ensures idle { flight (view pass.new).log ≡ 0 }
        ensures keeps { KeepsBut (StaysIn result) (view pass.old) (view pass.new) }
    {
        let count = self.read_count(pass, class);
        if count == 0 {
            return Took::AllTaken;
        }
        let found = self.lower_count(pass, class, count);
        if found != count {
            return Took::Moved(count, found);
        }
        match self.search(pass, class) {
            Search::Found(table) => Took::Taken(table),
            Search::Lost(loaded, found) => {
                self.raise_count(pass, class);
                Took::Moved(loaded, found)
            }
            Search::Nothing => {
                self.raise_count(pass, class);
                Took::Moved(count, 0)
            }
        }
    }

    /// Gives back a table that the pass took, that has stood in no root since and that has no odd version.
    pub fn give_table(&self, pass: &mut Pass, table: Table)
        requires pass { IsPassOf self.now pass.old }
        requires table { IsTableIn (shape_of self.now) table }
        requires fresh { stage (table_id table) (view pass.old).log ≡ 1 }
        requires shut { IsShutIn (table_id table) (view pass.old) }
        requires idle { flight (view pass.old).log ≡ 0 }
        ensures pass { IsPassOf self.now pass.new }
        ensures did { (n : ℕ) × DidAll (RaiseCount table.class n ∷ GiveTable (table_id table) ∷ []) pass.old pass.new }
        ensures given { stage (table_id table) (view pass.new).log ≡ 0 }
        ensures owes { owes (view pass.new).log ≡ cond (owes (view pass.old).log == suc table.class) 0 (owes (view pass.old).log) }
        ensures idle { flight (view pass.new).log ≡ 0 }
        ensures keeps { KeepsBut (NotTable table) (view pass.old) (view pass.new) }
    {
        self.set_bit(pass, table);
        self.raise_count(pass, table.class);
    }

    /// Looks in the free words of a class whose count the pass has lowered, one after the other, and clears
    /// the lowest bit of the first that isn't 0.
    fn search(&self, pass: &mut Pass, class: u32) -> Search
        requires pass { IsPassOf self.now pass.old }
        requires class { IsClass class }
        requires lowered { flight (view pass.old).log ≡ 2 * class + 1 }
        ensures pass { IsPassOf self.now pass.new }
        ensures did { (acts : List Act) × DidAll acts pass.old pass.new × IsSearch class result acts }
        ensures has { HasFound (shape_of self.now) class result (view pass.old) (view pass.new) }
        ensures keeps { KeepsBut (StaysInSearch result) (view pass.old) (view pass.new) }
    {
        for word in 0..WORDS {
            let free = self.read_free(pass, class, word);
            if free != 0 {
                let table = Table {
                    class,
                    number: BITS * word + free.trailing_zeros(),
                };
                return self.clear_bit(pass, table, free);
            }
        }
        Search::Nothing
    }

    /// Clears the bit of a table that was set in this word at its load, where it is still set.
    fn clear_bit(&self, pass: &mut Pass, table: Table, loaded: u64) -> Search
        requires pass { IsPassOf self.now pass.old }
        requires table { IsTableIn (shape_of self.now) table }
        requires set { bit (free_bit_of (table_id table)) loaded ≡ 1 }
        requires apart { stage (table_id table) (view pass.old).log ≡ 0 }
        requires lowered { flight (view pass.old).log ≡ 2 * table.class + 1 }
        ensures pass { IsPassOf self.now pass.new }
        ensures did { (found : ℕ) × (s : Snap) × Did (TakeTable (table_id table) found s) pass.old pass.new
            × IsBitCleared table loaded found result }
        ensures has { HasFound (shape_of self.now) table.class result (view pass.old) (view pass.new) }
        ensures keeps { KeepsBut (StaysInSearch result) (view pass.old) (view pass.new) }
    {
        let word = free_word(table.class, table.number / BITS);
        let bit = table.number % BITS;
        let found = self.mask_as::<Brand>(pass, word, !(1 << bit), table.name());
        if (found >> bit) % 2 == 1 {
            Search::Found(table)
        } else {
            Search::Lost(loaded, found)
        }
    }

    /// Sets the bit of a table that may be given back.
    pub(crate) fn set_bit(&self, pass: &mut Pass, table: Table)
        requires pass { IsPassOf self.now pass.old }
        requires table { IsTableIn (shape_of self.now) table }
        requires may { MayGive (table_id table) (view pass.old) }
        requires idle { flight (view pass.old).log ≡ 0 }
        ensures did { Did (GiveTable (table_id table)) pass.old pass.new }
        ensures keeps { KeepsBut (NotTable table) (view pass.old) (view pass.new) }
    {
        let word = free_word(table.class, table.number / BITS);
        let bit = table.number % BITS;
        self.give_as::<Brand>(pass, word, 1 << bit, table);
    }

    /// Loads the count of a class.
    fn read_count(&self, pass: &mut Pass, class: u32) -> u64
        requires pass { IsPassOf self.now pass.old }
        requires class { IsClass class }
        ensures did { Did (ReadCount class result) pass.old pass.new }
        ensures keeps { KeepsBut Each (view pass.old) (view pass.new) }
    {
        let word = free_count_word(class);
        self.load_as::<Brand>(pass, word, class, 0, 0)
    }

    /// Lowers the count of a class by one where it is this, and answers what it was.
    fn lower_count(&self, pass: &mut Pass, class: u32, count: u64) -> u64
        requires pass { IsPassOf self.now pass.old }
        requires class { IsClass class }
        requires some { 0 < count }
        requires idle { flight (view pass.old).log ≡ 0 }
        requires none { owes (view pass.old).log ≡ 0 }
        ensures did { Did (LowerCount class count result) pass.old pass.new }
        ensures keeps { KeepsBut Each (view pass.old) (view pass.new) }
    {
        let word = free_count_word(class);
        self.exchange_as::<Brand>(pass, word, count, count - 1, class)
    }

    /// Raises the count of a class by one, at the end of a giving, or of a taking that found no bit.
    pub(crate) fn raise_count(&self, pass: &mut Pass, class: u32)
        requires pass { IsPassOf self.now pass.old }
        requires class { IsClass class }
        requires flight { (flight (view pass.old).log ≡ 2 * class + 1) ⊎ (flight (view pass.old).log ≡ 2 * class + 2) }
        ensures did { (n : ℕ) × Did (RaiseCount class n) pass.old pass.new }
        ensures keeps { KeepsBut Each (view pass.old) (view pass.new) }
    {
        let word = free_count_word(class);
        self.add_as::<Brand>(pass, word, class);
    }

    /// Loads a free word of a class. Each bit that is set in it is that of a table which the pass hasn't.
    fn read_free(&self, pass: &mut Pass, class: u32, word: u32) -> u64
        requires pass { IsPassOf self.now pass.old }
        requires class { IsClass class }
        requires word { word < 16 }
        ensures did { Did (ReadFree (word_of_class class word) result) pass.old pass.new }
        ensures free { (n : ℕ) → n < 64 → bit n result ≡ 1 →
            IsUnclaimed (shape_of self.now) (record { class = class; number = 64 * word + n }) (view pass.new) }
        ensures keeps { KeepsBut Each (view pass.old) (view pass.new) }
    {
        let number = u64::from((class - LEAST_CLASS) * WORDS + word);
        self.load_as::<Brand>(pass, free_word(class, word), 0, number, 0)
    }
}
