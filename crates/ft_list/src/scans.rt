//! Loops over the items of a list: by a pass without the list's lock, whose loads show all that they went
//! through where no write came between them, and by one with the lock.
ghost use Rattle.std.specs.Prelude.{◌≡◌, ◌<◌};
ghost use Rattle.ft_model.specs.Lists.{index_of, count_of};
ghost use Rattle.ft_trace.specs.Addresses.{container_count};
ghost use Rattle.ft_trace.specs.ContainerStates.{kind_in};
ghost use Rattle.ft_model.specs.declared.script.Kind.TheVariants as kind;
ghost use Rattle.ft_bank.specs.Passes.{shape_of, IsPassOf};
ghost use Rattle.ft_reads.specs.Reads.{Reads};
ghost use Rattle.ft_list.specs.Scans.{IsOfItems};

use crate::locked::LENGTH;
use crate::reads::read_item;
use ft_bank::{Bank, Pass};
use ft_model::Value;
use ft_section::Object;

/// The place of the first item that is equal to a value, or `None` where there is none.
pub(crate) fn first_equal(bank: &Bank, pass: &mut Pass, l: Object, value: Value) -> Option<u64>
    requires pass { IsPassOf bank.now pass.old }
    requires container { l < container_count (shape_of bank.now) }
    requires list { kind_in (shape_of bank.now).starts l ≡ kind.List }
    ensures pass { IsPassOf bank.now pass.new }
    ensures reads { Reads (shape_of bank.now) l (IsOfItems (shape_of bank.now) (λ items. result ≡ index_of items value))
        pass.old pass.new }
{
    let count = bank.read_block(pass, l, LENGTH);
    for place in 0..count {
        let found = read_item(bank, pass, l, place);
        if found == Some(value) {
            return Some(place);
        }
    }
    None
}

/// How many items are equal to a value.
pub(crate) fn count_equal(bank: &Bank, pass: &mut Pass, l: Object, value: Value) -> u64
    requires pass { IsPassOf bank.now pass.old }
    requires container { l < container_count (shape_of bank.now) }
    requires list { kind_in (shape_of bank.now).starts l ≡ kind.List }
    ensures pass { IsPassOf bank.now pass.new }
    ensures reads { Reads (shape_of bank.now) l (IsOfItems (shape_of bank.now) (λ items. result ≡ count_of items value))
        pass.old pass.new }
{
    let count = bank.read_block(pass, l, LENGTH);
    let mut equal = 0;
    for place in 0..count {
        let found = read_item(bank, pass, l, place);
        if found == Some(value) {
            equal += 1;
        }
    }
    equal
}
