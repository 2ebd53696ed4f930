//! Letting locks go, so that what a pass knows of the locks that it keeps, and which sections were kept, stays.
ghost use Rattle.std.specs.Prelude.{◌+◌, if◌then◌else◌};
ghost use Rattle.ft_bank.specs.Passes.{view};
ghost use Rattle.ft_bank.specs.PassSections.{taken_in, noted_in};
ghost use Rattle.ft_section.specs.Locking.{MayLetGo, LetGo, KeepsStack, at_one};

use crate::answers::Object;
use ft_bank::{Bank, OpenSection, Pass, Taking};

/// Lets go of the lock of a container.
fn let_one_go(bank: &Bank, pass: &mut Pass, o: Object)
    requires { MayLetGo (at_one o) bank.now pass.old }
    ensures stack { KeepsStack pass.old pass.new }
    ensures go { LetGo (at_one o) (view pass.old) (view pass.new) }
{
    bank.unlock(pass, o);
}

/// Lets go of the lock of a container, where it was taken so.
#[inline]
fn let_go_where(bank: &Bank, pass: &mut Pass, taken: bool, o: Object)
    requires { MayLetGo (λ p. if taken then at_one o p else 0) bank.now pass.old }
    ensures stack { KeepsStack pass.old pass.new }
    ensures go { LetGo (λ p. if taken then at_one o p else 0) (view pass.old) (view pass.new) }
{
    if taken {
        let_one_go(bank, pass, o);
    }
}

/// Lets go of the locks that were taken so.
#[inline]
pub(crate) fn let_taking_go(bank: &Bank, pass: &mut Pass, taking: Taking)
    requires { MayLetGo (λ o. taken_in o taking) bank.now pass.old }
    ensures stack { KeepsStack pass.old pass.new }
    ensures go { LetGo (λ o. taken_in o taking) (view pass.old) (view pass.new) }
{
    let_go_where(bank, pass, taking.took_lower, taking.lower);
    let_go_where(bank, pass, taking.took_upper, taking.upper);
}

/// Lets go of the locks that sections took.
pub(crate) fn let_all_go(bank: &Bank, pass: &mut Pass, sections: &[OpenSection])
    requires { MayLetGo (λ o. noted_in o sections.now) bank.now pass.old }
    ensures stack { KeepsStack pass.old pass.new }
    ensures go { LetGo (λ o. noted_in o sections.now) (view pass.old) (view pass.new) }
{
    for section in sections {
        let_taking_go(bank, pass, section.locks);
    }
}

/// Lets go of the locks that sections took, and of those that were taken so.
pub(crate) fn let_each_go(bank: &Bank, pass: &mut Pass, sections: &[OpenSection], taking: Taking)
    requires { MayLetGo (λ o. noted_in o sections.now + taken_in o taking) bank.now pass.old }
    ensures stack { KeepsStack pass.old pass.new }
    ensures go { LetGo (λ o. noted_in o sections.now + taken_in o taking) (view pass.old) (view pass.new) }
{
    let_all_go(bank, pass, sections);
    let_taking_go(bank, pass, taking);
}
