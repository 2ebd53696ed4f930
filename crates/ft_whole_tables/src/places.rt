//! The first and the last entry of a table that is there.
ghost use Rattle.std.specs.Prelude.{◌≡◌};
ghost use Rattle.ft_trace.specs.ContainerStates.{kind_in};
ghost use Rattle.ft_trace.specs.Kinds.{IsKeyed};
ghost use Rattle.ft_bank.specs.Passes.{shape_of, IsPassOf};
ghost use Rattle.ft_bank.specs.PassSections.{stack_of};
ghost use Rattle.ft_bank.specs.TableNames.{table_id, IsTableIn};
ghost use Rattle.ft_reads.specs.Reads.{Reads};
ghost use Rattle.ft_whole_tables.specs.TableEntries.{OfUsed};
ghost use Rattle.ft_whole_tables.specs.Places.{IsFirst, IsLast};

use crate::entries::key_at;
use ft_bank::{Bank, Pass, Table};
use ft_section::Object;

/// The place of the first entry that is there, of as many as were used.
pub fn first_place(bank: &Bank, pass: &mut Pass, o: Object, table: Table, fill: u64) -> Option<u64>
    requires pass { IsPassOf bank.now pass.old }
    requires keyed { IsKeyed (kind_in (shape_of bank.now).starts o) }
    requires table { IsTableIn (shape_of bank.now) table }
    ensures pass { IsPassOf bank.now pass.new }
    ensures stack { stack_of pass.new ≡ stack_of pass.old }
    ensures reads { Reads (shape_of bank.now) o (OfUsed (shape_of bank.now) (table_id table) (IsFirst fill result))
        pass.old pass.new }
{
    for place in 0..fill {
        if key_at(bank, pass, o, table, place).is_some() {
            return Some(place);
        }
    }
    None
}

/// The place of the last entry that is there, of as many as were used.
pub fn last_place(bank: &Bank, pass: &mut Pass, o: Object, table: Table, fill: u64) -> Option<u64>
    requires pass { IsPassOf bank.now pass.old }
    requires keyed { IsKeyed (kind_in (shape_of bank.now).starts o) }
    requires table { IsTableIn (shape_of bank.now) table }
    ensures pass { IsPassOf bank.now pass.new }
    ensures stack { stack_of pass.new ≡ stack_of pass.old }
    ensures reads { Reads (shape_of bank.now) o (OfUsed (shape_of bank.now) (table_id table) (IsLast fill result))
        pass.old pass.new }
{
    for place in (0..fill).rev() {
        if key_at(bank, pass, o, table, place).is_some() {
            return Some(place);
        }
    }
    None
}
