//! Whether a key is in a dict or a set, under its lock.
ghost use Rattle.std.specs.Prelude.{◌≡◌, ◌<◌, true, false};
ghost use Rattle.ft_trace.specs.Acts.{has_lock};
ghost use Rattle.ft_trace.specs.Addresses.{container_count};
ghost use Rattle.ft_trace.specs.Holds.{held_unboxed, known_state};
ghost use Rattle.ft_trace.specs.Pictures.{Represents};
ghost use Rattle.ft_trace.specs.ContainerStates.{kind_in};
ghost use Rattle.ft_bank.specs.Answered.{Answered};
ghost use Rattle.ft_bank.specs.KeyHashes.{IsKeyIn};
ghost use Rattle.ft_bank.specs.Passes.{shape_of, view, IsPassOf};
ghost use Rattle.ft_bank.specs.PassSections.{stack_of};
ghost use Rattle.ft_search.specs.Rounds.{kind_by};
ghost use Rattle.ft_whole_tables.specs.Membership.{has_call};

use ft_bank::{Bank, Pass};
use ft_keys::Way;
use ft_model::{Call, DictCall, Key, Reply, SetCall};
use ft_search::{answer_held, read_key};
use ft_section::{Object, Stamp};

/// The call that asks whether a key is in a dict or a set.
fn asking_call(way: Way, container: Object, key: Key) -> Call
    ensures { result ≡ has_call way container key }
{
    match way {
        Way::Dict => Call::Dict {
            container,
            call: DictCall::Has { key },
        },
        Way::Set => Call::Set {
            container,
            call: SetCall::Has { key },
        },
    }
}

/// `k in d` or `k in s`, by a pass with the lock (Python manual, Mapping Types, Set Types). The counter is loaded while
/// it has the lock.
#[inline]
pub fn has_locked(bank: &Bank, pass: &mut Pass, way: Way, c: Object, key: Key) -> (Reply, Stamp)
    requires pass { IsPassOf bank.now pass.old }
    requires container { c < container_count (shape_of bank.now) }
    requires kind { kind_in (shape_of bank.now).starts c ≡ kind_by way }
    requires key { IsKeyIn (shape_of bank.now) key }
    requires locked { has_lock c (view pass.old).log ≡ true }
    requires stands { Represents (shape_of bank.now).texts (held_unboxed c (view pass.old)) (known_state c (view pass.old)) }
    requires left { 0 < (view pass.old).left }
    ensures pass { IsPassOf bank.now pass.new }
    ensures sections { stack_of pass.new ≡ stack_of pass.old }
    ensures wrote { result.1.wrote ≡ false }
    ensures answered { Answered (has_call way c key) result.0 result.1.number (view pass.old) (view pass.new) }
{
    let found = read_key(bank, pass, c, way, key);
    let called = asking_call(way, c, key);
    answer_held(bank, pass, &called, Reply::Truth(found.is_some()))
}
