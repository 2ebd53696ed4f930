//! The words of a table that is fresh in a pass's hand, which no other pass reads, and those of the table that
//! it is to take the place of, for `ft_keys::rebuild`. The new one gets the words of values as they stand, so that it
//! names the same boxes; or values that stand in boxes are read there, and it gets them in place.
ghost use Rattle.std.specs.Prelude.{◌≡◌, ℕ, suc, ◌+◌, ◌<◌, true, slice_index};
ghost use Rattle.ft_trace.specs.Acts.{has_lock};
ghost use Rattle.ft_trace.specs.Addresses.{container_count, class_of};
ghost use Rattle.ft_trace.specs.Boxes.{value_at};
ghost use Rattle.ft_trace.specs.ContainerStates.{kind_in};
ghost use Rattle.ft_trace.specs.Holds.{held_words, held_unboxed};
ghost use Rattle.ft_trace.specs.Kinds.{rows};
ghost use Rattle.ft_trace.specs.Pictures.{root_in};
ghost use Rattle.ft_bank.specs.Passes.{shape_of, view, IsPassOf};
ghost use Rattle.ft_bank.specs.PassSections.{stack_of};
ghost use Rattle.ft_bank.specs.TableNames.{table_id, IsTableIn};
ghost use Rattle.ft_bank.specs.Whole.{OnlyLoaded};
ghost use Rattle.ft_boxes.specs.References.{KeepsValues};

use ft_bank::{Bank, Pass, Table};
use ft_keys::{Move as TableMove, Words};
use ft_layout::entry_word::{VALUE, VALUE_KIND};
use ft_search::{named_boxes_are_known, read_value};

/// What a value of a container's table reads, whose kind lies at this word: its kind and its payload, those in its box
/// where it names one. The pass has the container's lock.
pub fn read_stored(bank: &Bank, pass: &mut Pass, o: u32, table: Table, word: u64) -> (u64, u64)
    requires pass { IsPassOf bank.now pass.old }
    requires container { o < container_count (shape_of bank.now) }
    requires locked { has_lock o (view pass.old).log ≡ true }
    requires table { IsTableIn (shape_of bank.now) table }
    requires root { root_in (held_words o (view pass.old)) ≡ suc (table_id table) }
    requires value { (row : ℕ) × (row < rows (kind_in (shape_of bank.now).starts o) (class_of (table_id table)))
        × (word ≡ value_at (kind_in (shape_of bank.now).starts o) (class_of (table_id table)) row) }
    ensures pass { IsPassOf bank.now pass.new }
    ensures stack { stack_of pass.new ≡ stack_of pass.old }
    ensures only { OnlyLoaded (view pass.old) (view pass.new) }
    ensures values { KeepsValues (view pass.old) (view pass.new) }
    ensures kind { result.0 ≡ slice_index (held_unboxed o (view pass.old)).table word }
    ensures payload { result.1 ≡ slice_index (held_unboxed o (view pass.old)).table (word + 1) }
{
    let _ = o;
    let kind = bank.read_table(pass, table, word);
    let payload = bank.read_table(pass, table, word + 1);
    named_boxes_are_known(pass);
    read_value(bank, pass, kind, payload)
}

/// The words of a fresh table, and of the one that a container has.
#[derive(Drop)]
pub struct FreshWords<'a> {
    /// The bank.
    pub bank: &'a Bank,
    /// The pass that makes the steps.
    pub pass: &'a mut Pass,
    /// The container.
    pub o: u32,
    /// Its table.
    pub old: Table,
    /// The last slot of that one's index.
    pub old_mask: u64,
    /// Where its words lie.
    pub old_start: u64,
    /// The fresh table.
    pub table: Table,
    /// Where its words lie.
    pub start: u64,
    /// The last slot of its index.
    pub mask: u64,
    /// Whether the fresh table gets values in place that stand in boxes in the other one; else it names the boxes.
    pub in_place: bool,
}

impl<'a> Words for FreshWords<'a> {
    ghost use Rattle.std.specs.Prelude.{⊤};
    ghost use Rattle.ft_new_keys.specs.Fresh.{CanFill, FreshMade};

    ghost can = { CanFill };

    ghost may_put = { λ words. ⊤ };

    ghost may = { λ words access. ⊤ };

    ghost mask = { λ words. words.mask };

    ghost gave = { FreshMade };

    #[tactic(auto, using(crate::proofs::FreshSteps::keeps_load))]
    fn index(&mut self, slot: u64) -> u64 {
        self.bank.read_word(self.pass, self.table, self.start, slot)
    }

    #[tactic(auto, using(crate::proofs::FreshSteps::keeps_load))]
    fn entry(&mut self, place: u64, word: u64) -> u64 {
        let at = 8 * place + word + self.mask + 1;
        self.bank.read_word(self.pass, self.table, self.start, at)
    }

    #[tactic(auto, using(crate::proofs::FreshSteps::keeps_fresh))]
    fn put_index(&mut self, slot: u64, value: u64) {
        self.bank
            .put_fresh_word(self.pass, self.table, self.start, slot, value);
    }

    #[tactic(auto, using(crate::proofs::FreshSteps::keeps_fresh))]
    fn put_entry(&mut self, place: u64, word: u64, value: u64) {
        let at = 8 * place + word + self.mask + 1;
        self.bank
            .put_fresh_word(self.pass, self.table, self.start, at, value);
    }
}

impl<'a> TableMove for FreshWords<'a> {
    ghost use Rattle.ft_new_keys.specs.Fresh.{old_entries};
    ghost use Rattle.ft_trace.specs.Addresses.{class_of};
    ghost use Rattle.ft_trace.specs.ContainerStates.{kind_in};
    ghost use Rattle.ft_trace.specs.Kinds.{rows};
    ghost use Rattle.ft_bank.specs.Passes.{shape_of};
    ghost use Rattle.ft_bank.specs.TableNames.{table_id};

    ghost old_room = { old_entries };

    fn old_entry(&mut self, place: u64, word: u64) -> u64 {
        let at = 8 * place + self.old_mask + 1;
        if !self.in_place {
            return self
                .bank
                .read_word(self.pass, self.old, self.old_start, at + word);
        }
        if word == VALUE_KIND {
            return read_stored(self.bank, self.pass, self.o, self.old, at + VALUE_KIND).0;
        }
        if word == VALUE {
            return read_stored(self.bank, self.pass, self.o, self.old, at + VALUE_KIND).1;
        }
        self.bank
            .read_word(self.pass, self.old, self.old_start, at + word)
    }

    ghost room_stays = { λ before after access gave. λ i. rows (kind_in (shape_of (gave.bank i).now).starts (gave.o i))
        (class_of (table_id (gave.old i))) };
}
