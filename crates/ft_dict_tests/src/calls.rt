//! Calls on the containers of a bank in the order of a table, for tests of dicts and of sets.
ghost use Rattle.std.specs.Prelude.{◌≡◌, ◌<◌, [], ◌∷◌, length, IfOk, IfSome, map};
ghost use Rattle.ft_model.specs.declared.reply.Reply.{Reply};
ghost use Rattle.ft_model.specs.declared.script.Kind.TheVariants as kind;
ghost use Rattle.ft_bank.specs.Passes.{shape_of, view};
ghost use Rattle.ft_section.specs.declared.answers.Objects.{Objects};
ghost use Rattle.ft_section.specs.declared.answers.Stamp.{Stamp};
ghost use Rattle.ft_section.specs.declared.answers.Step.TheVariants as steps;
ghost use Rattle.ft_section.specs.Ready.{MayTry};
ghost use Rattle.ft_model.specs.Worlds.{start_as};

use crate::rows::{Wanted, is_made, open_four};
use ft_bank::{Bank, Pass};
use ft_section::Step;
use std::alloc::Global;
use std::test::Fail;

/// A call of a table of calls on two dicts, 0 and 1, and two sets, 2 and 3.
pub trait Attempt: Copy {
    /// Tries the call.
    fn attempt(self, bank: &Bank, pass: &mut Pass, alloc: Global) -> Step
        requires kinds { (shape_of bank.now).starts ≡ map start_as (kind.Dict ∷ kind.Dict ∷ kind.Set ∷ kind.Set ∷ []) }
        requires may { (objects : Objects) → MayTry bank.now pass.old objects }
        requires left { 0 < (view pass.old).left }
        ensures may { (said : Reply) (stamp : Stamp) → result ≡ steps.Done said stamp →
            (objects : Objects) → MayTry bank.now pass.new objects };
}

/// Calls that are made one after the other on a new bank with that many tables of class 3, and of each greater class.
pub struct Case<C: 'static> {
    /// What they show.
    pub name: &'static str,
    /// How many tables of class 3 there are.
    pub least: u32,
    /// How many of each greater class.
    pub greater: u32,
    /// The calls, and what each is to do.
    pub rows: &'static [(C, Wanted)],
}

/// Makes the calls in order, and answers the place of the first that doesn't do as its row says; `None` where each
/// does.
fn first_wrong<C: Attempt>(
    bank: &Bank,
    pass: &mut Pass,
    alloc: Global,
    rows: &[(C, Wanted)],
) -> Option<usize>
    requires kinds { (shape_of bank.now).starts ≡ map start_as (kind.Dict ∷ kind.Dict ∷ kind.Set ∷ kind.Set ∷ []) }
    requires may { (objects : Objects) → MayTry bank.now pass.old objects }
    ensures { IfSome result (λ place. place < length rows.now) }
{
    for place in 0..rows.len() {
        let (call, wanted) = &rows[place];
        if pass.left() == 0 {
            return Some(place);
        }
        let step = call.attempt(bank, pass, alloc);
        if !is_made(&step, wanted) {
            return Some(place);
        }
    }
    None
}

/// The place of the first row that isn't so in a new bank with that many tables of class 3, and of each greater class.
///
/// # Errors
///
/// A `Fail` where no bank may have that many tables, or memory runs out.
pub fn in_new_bank<C: Attempt>(
    alloc: Global,
    least: u32,
    greater: u32,
    rows: &[(C, Wanted)],
) -> Result<Option<usize>, Fail>
    ensures { IfOk result (λ wrong. IfSome wrong (λ place. place < length rows.now)) }
{
    let (bank, mut pass) = open_four(alloc, least, greater)?;
    Ok(first_wrong(&bank, &mut pass, alloc, rows))
}
