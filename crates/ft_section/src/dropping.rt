//! A caller gives up what its pass is in: the pass has no section and no lock any more, and is ready for another call.
ghost use Rattle.std.specs.Prelude.{◌≡◌, [], ℕ, false};
ghost use Rattle.ft_bank.specs.Passes.{view, KeepsAll};
ghost use Rattle.ft_bank.specs.PassSections.{stack_of, no_sections};
ghost use Rattle.ft_section.specs.Locking.{OnlyLocked};
ghost use Rattle.ft_section.specs.Ready.{IsInCall, IsReady};
ghost use Rattle.ft_trace.specs.Acts.{has_lock};
ghost use Rattle.ft_trace.specs.Owners.{SameOwners};

use crate::letting::let_each_go;
use ft_bank::{Bank, Pass, Sections, Taking};

/// What is left of open sections once all of them are closed.
fn closed(mut sections: Sections) -> Sections
    ensures { result ≡ [] }
{
    while sections.pop().is_some() {}
    sections
}

/// The pass notes no section, no lock and no mark any more.
fn forget(pass: &mut Pass)
    ensures view { KeepsAll pass.old pass.new }
    ensures stack { stack_of pass.new ≡ no_sections }
{
    pass.put_sections(closed(pass.sections().copied()));
    pass.put_own(Taking::NONE);
    pass.put_mark(None);
}

/// Ends every open section, without an entry, and lets go of every lock, also of those that the call in flight took; the
/// call's mark is forgotten. No version may be odd by the pass. What it wrote and answered stays as it is.
pub fn drop_all(bank: &Bank, pass: &mut Pass)
    requires { IsInCall bank.now pass.old }
    ensures locked { OnlyLocked (view pass.old) (view pass.new) }
    ensures owners { SameOwners (view pass.old) (view pass.new) }
    ensures free { (o : ℕ) → has_lock o (view pass.new).log ≡ false }
    ensures stack { stack_of pass.new ≡ no_sections }
    ensures ready { IsReady bank.now pass.new }
{
    let own = pass.own();
    let sections = pass.sections().copied();
    forget(pass);
    let_each_go(bank, pass, sections.as_slice(), own);
}
