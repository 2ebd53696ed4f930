//! Takes the locks of a call's containers, has a maker make the call, and lets go of the locks.
ghost use Rattle.std.specs.Prelude.{◌≡◌, ◌<◌};
ghost use Rattle.ft_bank.specs.Passes.{shape_of, view};
ghost use Rattle.ft_table_calls.specs.TriesUnderLocks.{IsTry, objects_by, objects_in};
ghost use Rattle.ft_section.specs.LockTakings.{AreIn};
ghost use Rattle.ft_section.specs.Ready.{MayTry};
ghost use Rattle.ft_section.specs.Trying.{SectionsAfter};

use crate::made::Made;
use ft_bank::{Bank, Pass};
use ft_model::Call;
use ft_section::{Got, Object, Objects, Step, let_go, take_for};

/// Makes calls on the containers of one kind, for a pass that has their locks.
pub trait Maker {
    ghost use Rattle.std.specs.Prelude.{◌≡◌, ◌<◌};
    ghost use Rattle.ft_model.specs.declared.call.Call.{Call};
    ghost use Rattle.ft_trace.specs.declared.Shape.{Shape};
    ghost use Rattle.ft_trace.specs.declared.View.{View};
    ghost use Rattle.ft_bank.specs.Passes.{shape_of, view};
    ghost use Rattle.ft_bank.specs.PassSections.{stack_of};
    ghost use Rattle.ft_table_calls.specs.declared.made.Made.{Made};
    ghost use Rattle.ft_table_calls.specs.TriesUnderLocks.{objects_in};
    ghost use Rattle.ft_section.specs.LockTakings.{HasLocks};
    ghost use Rattle.ft_section.specs.Ready.{IsMaking};

    // What the call names is in a bank of this shape, and this maker makes such calls.
    ghost fits: { Self → Shape → Call → Type 0 };

    // What the call comes to, from the view in which the pass has the locks to the one in which it lets them go.
    ghost makes: { Self → Shape → Call → Made → View → View → Type 0 };

    /// Makes the call.
    fn make(&self, bank: &Bank, pass: &mut Pass, called: &Call) -> Made
        requires making { IsMaking bank.now pass.old }
        requires locks { HasLocks (view pass.old) (objects_in called.now) }
        requires fits { fits self.now (shape_of bank.now) called.now }
        requires left { 0 < (view pass.old).left }
        ensures making { IsMaking bank.now pass.new }
        ensures stack { stack_of pass.new ≡ stack_of pass.old }
        ensures made { makes self.now (shape_of bank.now) called.now result (view pass.old) (view pass.new) };
}

/// One container, or two.
#[inline(always)]
pub fn named_objects(first: Object, second: Option<Object>) -> Objects
    ensures { result ≡ objects_by first second }
{
    match second {
        None => Objects::One(first),
        Some(second) => Objects::Two(first, second),
    }
}

/// Makes a call under the locks of its containers: the lower one is taken first, and those that the pass has are not
/// taken again; whatever the call comes to, those that it took are let go.
///
/// # Errors
///
/// `NotYet` where a step of the call found another pass with one of the locks; the same call comes next. Else what the
/// maker answers.
#[inline(always)]
pub fn try_under_locks<M: Maker>(
    bank: &Bank,
    pass: &mut Pass,
    maker: &M,
    objects: Objects,
    called: &Call,
) -> Step
    requires may { MayTry bank.now pass.old objects }
    requires containers { AreIn (shape_of bank.now) objects }
    requires objects { objects ≡ objects_in called.now }
    requires fits { M.fits maker.now (shape_of bank.now) called.now }
    requires left { 0 < (view pass.old).left }
    ensures may { MayTry bank.now pass.new objects }
    ensures sections { SectionsAfter bank.now objects pass.old pass.new result }
    ensures tried { IsTry objects (M.makes maker.now (shape_of bank.now) called.now) (view pass.old) (view pass.new) result }
{
    match take_for(bank, pass, objects) {
        Got::Have => {
            let made = maker.make(bank, pass, called);
            let_go(bank, pass);
            made.step()
        }
        Got::NotYet(container, owner) => Step::NotYet(container, owner),
    }
}
