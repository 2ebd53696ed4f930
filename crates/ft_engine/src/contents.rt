//! What all containers have, read by a caller that has the floor: no other caller writes meanwhile, so one read of each
//! shows what it has.
ghost use Rattle.std.specs.Prelude.{◌≡◌, ◌<◌, [], IfOk, List, length, map};
ghost use Rattle.ft_model.specs.declared.data.Key.{Key as AKey};
ghost use Rattle.ft_model.specs.declared.data.Value.{Value as AValue};
ghost use Rattle.ft_model.specs.declared.reply.Reply.TheVariants as reply;
ghost use Rattle.ft_model.specs.declared.reply.Shown.TheVariants as shown;
ghost use Rattle.ft_model.specs.declared.script.Kind.TheVariants as kind;
ghost use Rattle.ft_model.specs.Worlds.{start_as};
ghost use Rattle.ft_keys.specs.declared.walk.Way.{Way as AWay};
ghost use Rattle.ft_trace.specs.Addresses.{container_count};
ghost use Rattle.ft_trace.specs.ContainerStates.{kind_in};
ghost use Rattle.ft_bank.specs.Passes.{shape_of, IsPassOf};
ghost use Rattle.ft_search.specs.Rounds.{kind_by};
ghost use Rattle.ft_reads.specs.Reads.{Reads};
ghost use Rattle.ft_whole_tables.specs.Items.{IsItemsReply};
ghost use Rattle.ft_bank_history.specs.LastContents.{IsShownAs};
ghost use Rattle.ft_engine.specs.Callers.{IsCallerOf};
ghost use Rattle.ft_engine.specs.Contents.{AreShownIn, HasOnlyRead, ReadsFirst};
ghost use Rattle.ft_engine.specs.Resting.{HasFloor};

use crate::caller::Caller;
use crate::engine::Engine;
use ft_bank::{Bank, Pass};
use ft_keys::Way;
use ft_list::copy_items;
use ft_model::{Kind, Reply, Shown, Values};
use ft_section::Object;
use ft_whole_tables::copy_all;
use std::alloc::{AllocError, Global};

/// The pairs or elements of a reply, as what is shown of a container.
fn shown_in(said: Reply) -> Shown
    requires { (way : AWay) × IsItemsReply way said }
    ensures dict { (pairs : List (AKey × AValue)) → said ≡ reply.Dict pairs → result ≡ shown.Dict pairs }
    ensures set { (keys : List AKey) → said ≡ reply.Set keys → result ≡ shown.Set keys }
{
    match said {
        Reply::Dict(pairs) => Shown::Dict(pairs),
        Reply::Set(elements) => Shown::Set(elements),
        _ => unreachable!(),
    }
}

/// What a dict or a set has.
fn read_entries(
    bank: &Bank,
    pass: &mut Pass,
    alloc: Global,
    way: Way,
    c: Object,
) -> Result<Shown, AllocError>
    requires pass { IsPassOf bank.now pass.old }
    requires container { c < container_count (shape_of bank.now) }
    requires kind { kind_in (shape_of bank.now).starts c ≡ kind_by way }
    ensures pass { IsPassOf bank.now pass.new }
    ensures reads { Reads (shape_of bank.now) c (λ x. IfOk result (λ shown. IsShownAs (shape_of bank.now) c shown x))
        pass.old pass.new }
{
    let said = copy_all(bank, pass, alloc, way, c)?;
    Ok(shown_in(said))
}

/// What a list has.
fn read_items(bank: &Bank, pass: &mut Pass, alloc: Global, c: Object) -> Result<Shown, AllocError>
    requires pass { IsPassOf bank.now pass.old }
    requires container { c < container_count (shape_of bank.now) }
    requires kind { kind_in (shape_of bank.now).starts c ≡ kind.List }
    ensures pass { IsPassOf bank.now pass.new }
    ensures reads { Reads (shape_of bank.now) c (λ x. IfOk result (λ shown. IsShownAs (shape_of bank.now) c shown x))
        pass.old pass.new }
{
    let items = copy_items(bank, pass, alloc, c)?;
    Ok(Shown::List(Values::from_vec(items)))
}

/// What a container of this kind has. A deque of a bank is empty: no call on one is made there.
fn read_content(
    bank: &Bank,
    pass: &mut Pass,
    alloc: Global,
    kind: Kind,
    c: Object,
) -> Result<Shown, AllocError>
    requires pass { IsPassOf bank.now pass.old }
    requires container { c < container_count (shape_of bank.now) }
    requires kind { kind_in (shape_of bank.now).starts c ≡ kind }
    ensures pass { IsPassOf bank.now pass.new }
    ensures reads { Reads (shape_of bank.now) c (λ x. IfOk result (λ shown. IsShownAs (shape_of bank.now) c shown x))
        pass.old pass.new }
{
    match kind {
        Kind::Dict => read_entries(bank, pass, alloc, Way::Dict, c),
        Kind::List => read_items(bank, pass, alloc, c),
        Kind::Set => read_entries(bank, pass, alloc, Way::Set, c),
        Kind::Deque(_) => Ok(Shown::List(Values::from_vec(Vec::new(alloc)))),
    }
}

/// What all containers have, which are of these kinds, one after the other.
fn read_all(
    bank: &Bank,
    pass: &mut Pass,
    alloc: Global,
    kinds: &[Kind],
) -> Result<Vec<Shown>, AllocError>
    requires pass { IsPassOf bank.now pass.old }
    requires kinds { (shape_of bank.now).starts ≡ map start_as kinds.now }
    ensures pass { IsPassOf bank.now pass.new }
    ensures loaded { ReadsFirst (shape_of bank.now) [] pass.old pass.new }
    ensures count { IfOk result (λ all. length all.items ≡ container_count (shape_of bank.now)) }
    ensures all { IfOk result (λ all. ReadsFirst (shape_of bank.now) all.items pass.old pass.new) }
{
    let mut all = Vec::with_capacity(alloc, kinds.len())?;
    for place in 0..kinds.len() {
        let shown = read_content(bank, pass, alloc, kinds[place], place as Object)?;
        all.push(shown)?;
    }
    Ok(all)
}

impl Engine {
    /// What each container has, in the order of declaration, by a caller that has the floor. It makes no call, and so
    /// no entry.
    ///
    /// # Errors
    ///
    /// Memory for the copies ran out.
    pub fn contents(&self, alloc: Global, caller: &mut Caller) -> Result<Vec<Shown>, AllocError>
        requires caller { IsCallerOf self.now caller.old }
        requires floor { HasFloor caller.old }
        ensures caller { IsCallerOf self.now caller.new }
        ensures read { HasOnlyRead caller.old caller.new }
        ensures shown { IfOk result (λ all. AreShownIn caller.new all.items) }
    {
        read_all(&self.bank, &mut caller.pass, alloc, &self.kinds)
    }
}
