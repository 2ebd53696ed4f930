//! Two threads with a pass each share one bank.
ghost use Rattle.std.specs.Prelude.{◌≡◌, ◌<◌, IfOk, length};
ghost use Rattle.ft_trace.specs.Addresses.{container_count};
ghost use Rattle.ft_bank.specs.Passes.{shape_of, view, IsPassOf};
ghost use Rattle.ft_bank.specs.PassSections.{stack_of, no_sections};
ghost use Rattle.ft_bank_tests.specs.TestRounds.{IsIdlePass, IsOnwards};

use crate::{bank_of_two, go_round_with, small_shape};
use ft_bank::{Pass, Shape};
use ft_model::Kind;
use std::alloc::Global;
use std::test::Fail;
use std::thread;

/// A list, for two passes.
fn small(alloc: Global) -> Result<Shape, Fail>
    ensures { IfOk result (λ s. (length s.kinds.items ≡ 1) × (s.passes ≡ 2) × (s.calls ≡ 10)) }
{
    Ok(small_shape(alloc, vec![in alloc; Kind::List]?, 2, 10)?)
}

#[test]
fn two_threads_share_a_bank(rt: HostRuntime) -> Result<(), Fail> {
    let alloc = rt.alloc();
    let (made, first, second) = bank_of_two(alloc, small(alloc)?)?;
    let bank = &made;
    let ((mut first, ours), (second, theirs)) = thread::join(
        &rt,
        move || -> (Pass, u32)
            requires { IsPassOf bank.now first × (0 < container_count (shape_of bank.now)) × IsIdlePass (view first)
                × (stack_of first ≡ no_sections) }
            ensures { IsPassOf bank.entry.now result.0 × IsIdlePass (view result.0)
                × (stack_of result.0 ≡ no_sections) × IsOnwards (view first) (view result.0) }
        { go_round_with(bank, first, 2_000) },
        move || -> (Pass, u32)
            requires { IsPassOf bank.now second × (0 < container_count (shape_of bank.now)) × IsIdlePass (view second)
                × (stack_of second ≡ no_sections) }
            ensures { IsPassOf bank.entry.now result.0 × IsIdlePass (view result.0)
                × (stack_of result.0 ≡ no_sections) × IsOnwards (view second) (view result.0) }
        { go_round_with(bank, second, 2_000) },
    );
    assert!(rt; ours > 0 || theirs > 0);
    bank.join(&mut first, second);
    let Ok(()) = bank.try_lock(&mut first, 0) else {
        return Err(Fail::from("no thread keeps the lock"));
    };
    bank.unlock(&mut first, 0);
    assert_eq!(rt; first.left(), 20);
    Ok(())
}
