//! The call on a set that adds an element: where the element is there the set stays as it is, and where it isn't
//! it gets an entry for it, and another table if its own has no room.
ghost use Rattle.std.specs.Prelude.{◌≡◌, false};
ghost use Rattle.ft_model.specs.declared.call.Call.TheVariants as call;
ghost use Rattle.ft_model.specs.declared.call.SetCall.TheVariants as set;
ghost use Rattle.ft_model.specs.declared.reply.Reply.TheVariants as reply;
ghost use Rattle.ft_model.specs.declared.script.Kind.TheVariants as kind;
ghost use Rattle.ft_trace.specs.Acts.{flight, used};
ghost use Rattle.ft_trace.specs.ContainerStates.{kind_in};
ghost use Rattle.ft_bank.specs.KeyHashes.{IsKeyIn};
ghost use Rattle.ft_bank.specs.Passes.{shape_of, view, IsPassOf};
ghost use Rattle.ft_bank.specs.PassSections.{stack_of};
ghost use Rattle.ft_search.specs.OneEntryWrites.{MayWriteEntries};
ghost use Rattle.ft_new_keys.specs.KeyGrowth.{PutsKey};

use ft_bank::{Bank, Pass};
use ft_keys::Way;
use ft_layout::Stored;
use ft_model::{Call, Key, Reply, SetCall};
use ft_new_keys::add_key;
use ft_search::{Spot, seek_key, write_nothing, written};
use ft_section::Object;
use ft_table_calls::Added;

/// `s.add(k)` (Python manual, Set Types), by a pass that has the set's lock.
///
/// # Errors
///
/// Those of [`add_key`], where the element isn't there.
pub fn add_by(bank: &Bank, pass: &mut Pass, s: Object, key: Key) -> Added
    requires pass { IsPassOf bank.now pass.old }
    requires may { MayWriteEntries (shape_of bank.now) s (view pass.old) }
    requires used { used (view pass.old).log ≡ false }
    requires idle { flight (view pass.old).log ≡ 0 }
    requires set { kind_in (shape_of bank.now).starts s ≡ kind.Set }
    requires key { IsKeyIn (shape_of bank.now) key }
    ensures pass { IsPassOf bank.now pass.new }
    ensures stack { stack_of pass.new ≡ stack_of pass.old }
    ensures added { PutsKey (shape_of bank.now) s key (call.Set s (set.Add key)) reply.Done (view pass.old)
        (view pass.new) result }
{
    let called = Call::Set {
        container: s,
        call: SetCall::Add { key },
    };
    let said = Reply::Done;
    match seek_key(bank, pass, s, Way::Set, key) {
        Spot::At(_, _, _, _) => {
            let number = write_nothing(bank, pass, s, &called, &said);
            Added::Made(written(number))
        }
        Spot::Free(table, slot) => add_key(
            bank,
            pass,
            s,
            Way::Set,
            Some(table),
            slot,
            key,
            Stored::Empty,
            &called,
            &said,
        ),
        Spot::Bare => add_key(
            bank,
            pass,
            s,
            Way::Set,
            None,
            0,
            key,
            Stored::Empty,
            &called,
            &said,
        ),
    }
}
