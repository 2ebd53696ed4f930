//! Calls on a set whose lock the pass has that take an element out: each is one whole write, or none where it
//! raises a KeyError.
ghost use Rattle.std.specs.Prelude.{◌≡◌, None};
ghost use Rattle.ft_layout.specs.Words.{FitsKey};
ghost use Rattle.ft_model.specs.declared.call.Call.TheVariants as call;
ghost use Rattle.ft_model.specs.declared.call.SetCall.TheVariants as set;
ghost use Rattle.ft_model.specs.declared.script.Kind.TheVariants as kind;
ghost use Rattle.ft_trace.specs.Holds.{known_state};
ghost use Rattle.ft_trace.specs.ContainerStates.{kind_in};
ghost use Rattle.ft_bank.specs.KeyHashes.{IsKeyIn};
ghost use Rattle.ft_bank.specs.Passes.{shape_of, view, IsPassOf};
ghost use Rattle.ft_bank.specs.PassSections.{stack_of};
ghost use Rattle.ft_search.specs.MadeCalls.{MadeAs};
ghost use Rattle.ft_search.specs.Held.{IsHeldAt};
ghost use Rattle.ft_search.specs.OneEntryWrites.{MayWriteEntries};

use ft_bank::{Bank, Pass};
use ft_keys::Way;
use ft_model::{Call, Key, Raise, Reply, SetCall};
use ft_search::{Spot, answer_made, delete_entry, seek_key, write_nothing, written};
use ft_section::{Object, Stamp};

/// `s.discard(k)` where the element is not there: a write that leaves the set as it is.
fn discard_none(bank: &Bank, pass: &mut Pass, s: Object, key: Key) -> (Reply, Stamp)
    requires pass { IsPassOf bank.now pass.old }
    requires may { MayWriteEntries (shape_of bank.now) s (view pass.old) }
    requires set { kind_in (shape_of bank.now).starts s ≡ kind.Set }
    requires key { FitsKey key }
    requires none { IsHeldAt (known_state s (view pass.old)).content key None }
    ensures pass { IsPassOf bank.now pass.new }
    ensures stack { stack_of pass.new ≡ stack_of pass.old }
    ensures made { MadeAs (call.Set s (set.Discard key)) result.0 result.1 (view pass.old) (view pass.new) }
{
    let called = Call::Set {
        container: s,
        call: SetCall::Discard { key },
    };
    let said = Reply::Done;
    let number = write_nothing(bank, pass, s, &called, &said);
    (said, written(number))
}

/// `s.discard(k)`: removes the element if it is present (Python manual, Set Types); under the lock.
pub fn discard_locked(bank: &Bank, pass: &mut Pass, s: Object, key: Key) -> (Reply, Stamp)
    requires pass { IsPassOf bank.now pass.old }
    requires may { MayWriteEntries (shape_of bank.now) s (view pass.old) }
    requires set { kind_in (shape_of bank.now).starts s ≡ kind.Set }
    requires key { IsKeyIn (shape_of bank.now) key }
    ensures pass { IsPassOf bank.now pass.new }
    ensures stack { stack_of pass.new ≡ stack_of pass.old }
    ensures made { MadeAs (call.Set s (set.Discard key)) result.0 result.1 (view pass.old) (view pass.new) }
{
    let called = Call::Set {
        container: s,
        call: SetCall::Discard { key },
    };
    match seek_key(bank, pass, s, Way::Set, key) {
        Spot::At(table, place, _, _) => {
            let said = Reply::Done;
            let number = delete_entry(bank, pass, s, table, place, key, &called, &said);
            (said, written(number))
        }
        Spot::Free(_, _) => discard_none(bank, pass, s, key),
        Spot::Bare => discard_none(bank, pass, s, key),
    }
}

/// `s.remove(k)`: raises a KeyError if the element is not contained in the set (Python manual, Set Types); under
/// the lock.
pub fn remove_locked(bank: &Bank, pass: &mut Pass, s: Object, key: Key) -> (Reply, Stamp)
    requires pass { IsPassOf bank.now pass.old }
    requires may { MayWriteEntries (shape_of bank.now) s (view pass.old) }
    requires set { kind_in (shape_of bank.now).starts s ≡ kind.Set }
    requires key { IsKeyIn (shape_of bank.now) key }
    ensures pass { IsPassOf bank.now pass.new }
    ensures stack { stack_of pass.new ≡ stack_of pass.old }
    ensures made { MadeAs (call.Set s (set.Remove key)) result.0 result.1 (view pass.old) (view pass.new) }
{
    let called = Call::Set {
        container: s,
        call: SetCall::Remove { key },
    };
    match seek_key(bank, pass, s, Way::Set, key) {
        Spot::At(table, place, _, _) => {
            let said = Reply::Done;
            let number = delete_entry(bank, pass, s, table, place, key, &called, &said);
            (said, written(number))
        }
        Spot::Free(_, _) => answer_made(bank, pass, &called, Reply::Raised(Raise::NoKey)),
        Spot::Bare => answer_made(bank, pass, &called, Reply::Raised(Raise::NoKey)),
    }
}
