//! A call answered by the containers of one thread. Everything else in the project is measured by
//! it.
ghost use Rattle.std.specs.Prelude.{◌≡◌, ◌≢◌, ℕ, IsTrue, false, length, map, slice_get, Contains, Some, IfOk, OnOk, OnErr};
ghost use Rattle.ft_model.specs.declared.call.Call.TheVariants.{Next};
ghost use Rattle.ft_model.specs.Calls.{containers_of, moved_cursor};
ghost use Rattle.ft_model.specs.Worlds.{IsDeclared, HasRoom, kind_of};
ghost use Rattle.ft_model.specs.Answers.{answer, is_raised, is_write, shown_of};

use crate::call::Call;
use crate::content::Content;
use crate::reply::{Reply, Shown};
use crate::sequence::Sequence;
use crate::world::{Hands, World};
use crate::{cursor_calls, deque_calls, dict_calls, list_calls, set_calls};
use std::alloc::{AllocError, Global};

/// Answers a call as the plain containers of one thread do, as the Python manual says under Mapping
/// Types, Sequence Types, Set Types, collections.deque and Iterator Types. An exception is a reply, and an `Err` says
/// that memory ran out: neither changes what a container has.
#[tactic(auto, using(crate::proofs::AnswerLaws::answer_exceptions, crate::proofs::AnswerLaws::answer_only_writes, crate::proofs::AnswerLaws::answer_containers, crate::proofs::AnswerLaws::answer_others, crate::proofs::AnswerLaws::answer_cursors))]
pub fn apply(
    alloc: Global,
    world: &mut World,
    hands: &mut Hands,
    call: &Call,
) -> Result<Reply, AllocError>
    requires declared { IsDeclared world.old hands.old call.now }
    requires room { HasRoom world.old call.now }
    ensures reply { IfOk result (λ reply. reply ≡ (answer world.old hands.old call.now).reply) }
    ensures world { OnOk result (world.new ≡ (answer world.old hands.old call.now).world) }
    ensures hands { OnOk result (hands.new ≡ (answer world.old hands.old call.now).hands) }
    ensures err { OnErr result ((world.new ≡ world.old) × (hands.new ≡ hands.old)) }

    // What a call can change.
    ensures exceptions { IfOk result (λ reply. IsTrue (is_raised reply) → world.new ≡ world.old) }
    ensures only_writes { IfOk result (λ reply. is_write call.now reply ≡ false → world.new ≡ world.old) }
    ensures containers { map kind_of world.new ≡ map kind_of world.old }
    ensures others { (other : ℕ) → (Contains (containers_of call.now) other → ⊥) → slice_get world.new other ≡ slice_get world.old other }
    ensures cursors { (number : ℕ) → moved_cursor call.now ≢ Some number → slice_get hands.new number ≡ slice_get hands.old number }
{
    answer_any(alloc, world, hands, call)
}

fn answer_any(
    alloc: Global,
    world: &mut World,
    hands: &mut Hands,
    call: &Call,
) -> Result<Reply, AllocError>
    requires declared { IsDeclared world.old hands.old call.now }
    requires room { HasRoom world.old call.now }
    ensures reply { IfOk result (λ reply. reply ≡ (answer world.old hands.old call.now).reply) }
    ensures world { OnOk result (world.new ≡ (answer world.old hands.old call.now).world) }
    ensures hands { OnOk result (hands.new ≡ (answer world.old hands.old call.now).hands) }
    ensures err { OnErr result ((world.new ≡ world.old) × (hands.new ≡ hands.old)) }
{
    match call {
        Call::Dict { container, call } => {
            dict_calls::answer(alloc, world, hands, *container, call)
        }
        Call::List { container, call } => {
            list_calls::answer(alloc, world, hands, *container, call)
        }
        Call::Set { container, call } => set_calls::answer(alloc, world, hands, *container, call),
        Call::Deque { container, call } => {
            deque_calls::answer(alloc, world, hands, *container, call)
        }
        Call::Next { cursor } => Ok(next(world, hands, *cursor)),
        Call::Dump => Ok(Reply::World(dump(alloc, world)?)),
        Call::Begin { .. } | Call::End | Call::Quiesce | Call::Await { .. } => unreachable!(),
    }
}

/// `next(c)`.
fn next(world: &World, hands: &mut Hands, number: u32) -> Reply
    requires { IsDeclared world.now hands.old (Next number) }
    ensures reply { result ≡ (answer world.now hands.old (Next number)).reply }
    ensures hands { hands.new ≡ (answer world.now hands.old (Next number)).hands }
{
    match hands.cursors()[number as usize] {
        Some(cursor) => {
            let step = cursor_calls::advance(world, &cursor);
            hands.put(number, step.cursor);
            step.reply
        }
        None => unreachable!(),
    }
}

/// What each container has, in the order of declaration.
fn dump(alloc: Global, world: &World) -> Result<Sequence<Shown>, AllocError>
    ensures { IfOk result (λ all. all ≡ map shown_of world.now) }
{
    let contents = world.contents();
    let mut all = Vec::new(alloc);
    for content in contents {
        all.push(show(alloc, content)?)?;
    }
    Ok(Sequence::from_vec(all))
}

/// All pairs, items or elements of a container, in order.
fn show(alloc: Global, content: &Content) -> Result<Shown, AllocError>
    ensures { IfOk result (λ shown. shown ≡ shown_of content.now) }
{
    match content {
        Content::Dict(dict) => {
            let pairs = dict_calls::items(alloc, dict)?;
            Ok(Shown::Dict(Sequence::from_vec(pairs)))
        }
        Content::List(list) => {
            let items = Vec::from_slice(alloc, list.items())?;
            Ok(Shown::List(Sequence::from_vec(items)))
        }
        Content::Set(set) => {
            let keys = set_calls::keys(alloc, set)?;
            Ok(Shown::Set(Sequence::from_vec(keys)))
        }
        Content::Deque(deque) => {
            let items = deque.copy_items(alloc)?;
            Ok(Shown::List(Sequence::from_vec(items)))
        }
    }
}
