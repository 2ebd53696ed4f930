//! How many pairs, items or elements a container has, for `len` of each kind: read without the lock, between
//! two loads of the container's version, and under the lock.
ghost use Rattle.std.specs.Prelude.{◌≡◌, ◌<◌, List, true, false};
ghost use Rattle.ft_trace.specs.declared.Act.{Act};
ghost use Rattle.ft_trace.specs.Acts.{has_lock};
ghost use Rattle.ft_trace.specs.Addresses.{container_count};
ghost use Rattle.ft_trace.specs.Holds.{held_unboxed, known_state};
ghost use Rattle.ft_trace.specs.Pictures.{Represents};
ghost use Rattle.ft_trace.specs.ContainerStates.{kind_in};
ghost use Rattle.ft_bank.specs.Answered.{Answered};
ghost use Rattle.ft_bank.specs.Passes.{shape_of, view, IsPassOf};
ghost use Rattle.ft_bank.specs.PassSections.{stack_of};
ghost use Rattle.ft_bank.specs.Series.{DidAll};
ghost use Rattle.ft_search.specs.KeyLooks.{AreLooks};
ghost use Rattle.ft_search.specs.Lengths.{len_of, ShowsCounted, IsGlanceOf};

use crate::looks::{answer_held, answer_look};
use ft_bank::{Bank, Pass};
use ft_layout::block_word;
use ft_model::{Call, Reply};
use ft_section::{Look, Object, Stamp};

/// Which word of a block is the number of pairs, items or elements, as a bank counts them.
const USED: u64 = block_word::USED - block_word::ROOT;

/// What a look without the lock at the number of pairs, items or elements came to.
#[derive(Clone, Copy)]
pub(crate) enum Counted {
    /// The number, and the stamp.
    Seen(u64, u64),
    /// Two loads of the version of the container: the first is odd, or they differ.
    Contended(u64, u64),
}

/// Loads the number of pairs, items or elements, and the counter, between two loads of the version.
fn look_count(bank: &Bank, pass: &mut Pass, o: Object) -> Counted
    requires pass { IsPassOf bank.now pass.old }
    requires container { o < container_count (shape_of bank.now) }
    ensures pass { IsPassOf bank.now pass.new }
    ensures looked { (part : List Act) × AreLooks part × DidAll part pass.old pass.new × ShowsCounted o part result }
{
    let opened = bank.seq(pass, o);
    let count = bank.read_block(pass, o, USED);
    let number = bank.stamp(pass);
    let closed = bank.seq(pass, o);
    if closed != opened || opened % 2 != 0 {
        return Counted::Contended(opened, closed);
    }
    Counted::Seen(count, number)
}

/// `len(o)` without the lock (Python manual, Built-in Functions), as the call of the container's kind.
///
/// # Errors
///
/// `Contended` where two loads of the version of the container gave an odd number or two different ones. It
/// never answers `NoMemory`.
pub fn look_len(bank: &Bank, pass: &mut Pass, o: Object, call: &Call) -> Look
    requires pass { IsPassOf bank.now pass.old }
    requires container { o < container_count (shape_of bank.now) }
    requires call { call.now ≡ len_of (kind_in (shape_of bank.now).starts o) o }
    requires left { 0 < (view pass.old).left }
    ensures pass { IsPassOf bank.now pass.new }
    ensures sections { stack_of pass.new ≡ stack_of pass.old }
    ensures looked { IsGlanceOf o call.now (view pass.old) (view pass.new) result }
{
    match look_count(bank, pass, o) {
        Counted::Seen(count, number) => {
            answer_look(bank, pass, call, Reply::Count(count), number)
        }
        Counted::Contended(first, second) => Look::Contended(first, second),
    }
}

/// `len(o)`, by a pass that has the container's lock. The counter is loaded while it has the lock.
pub fn len_locked(bank: &Bank, pass: &mut Pass, o: Object, call: &Call) -> (Reply, Stamp)
    requires pass { IsPassOf bank.now pass.old }
    requires container { o < container_count (shape_of bank.now) }
    requires call { call.now ≡ len_of (kind_in (shape_of bank.now).starts o) o }
    requires locked { has_lock o (view pass.old).log ≡ true }
    requires stands { Represents (shape_of bank.now).texts (held_unboxed o (view pass.old)) (known_state o (view pass.old)) }
    requires left { 0 < (view pass.old).left }
    ensures pass { IsPassOf bank.now pass.new }
    ensures sections { stack_of pass.new ≡ stack_of pass.old }
    ensures wrote { result.1.wrote ≡ false }
    ensures answered { Answered call.now result.0 result.1.number (view pass.old) (view pass.new) }
{
    let count = bank.read_block(pass, o, USED);
    answer_held(bank, pass, call, Reply::Count(count))
}
