//! Threads that take all tables of a class between them: each table goes into a list and is retired with it.
ghost use Rattle.std.specs.Prelude.{◌+◌, ◌*◌, ◌^◌, ◌<◌, ◌≤◌};
ghost use Rattle.ft_bank.specs.Passes.{view};
ghost use Rattle.ft_reuse_tests.specs.Emptying.{MayCallBoth};
ghost use Rattle.ft_list.specs.ListWrites.{MayCallList};

use ft_bank::{Bank, Pass};
use ft_list::{try_append, try_clear};
use ft_model::{Reply, Value};
use ft_section::Step;
use std::thread;
use std::thread::Threads;

/// How many tables each thread takes.
pub(crate) const EACH: u32 = 256;

/// Appends an item to an empty list, which takes a table, and clears the list, which retires it. Says whether that was
/// done.
fn take_out(bank: &Bank, pass: &mut Pass, l: u32) -> bool
    requires { MayCallList bank.now pass.old l }
    ensures { MayCallList bank.now pass.new l }
{
    if pass.left() < 2 {
        return false;
    }
    let Step::Done(Reply::Done, _) = try_append(bank, pass, l, Value::Nothing) else {
        return false;
    };
    pass.left() > 0 && is_cleared(bank, pass, l)
}

/// Clears a list.
fn is_cleared(bank: &Bank, pass: &mut Pass, l: u32) -> bool
    requires may { MayCallList bank.now pass.old l }
    requires left { 0 < (view pass.old).left }
    ensures { MayCallList bank.now pass.new l }
{
    matches!(try_clear(bank, pass, l), Step::Done(Reply::Done, _))
}

/// Takes tables out until there are enough, in some thousand tries; answers how many.
fn take_each(bank: &Bank, mut pass: Pass, l: u32) -> (Pass, u32)
    requires { MayCallList bank.now pass l }
    ensures may { MayCallList bank.now result.0 l }
    ensures few { result.1 ≤ 256 }
{
    let mut taken = 0;
    for _ in 0..10_000u32 {
        if taken < EACH && take_out(bank, &mut pass, l) {
            taken += 1;
        }
    }
    (pass, taken)
}

/// Two passes in a thread each, on this list and the next; answers the first of them and how many tables were taken.
fn take_in_two<R: Threads>(rt: &R, bank: &Bank, passes: (Pass, Pass), l: u32) -> (Pass, u32)
    requires both { MayCallBoth bank.now passes l }
    requires low { l < 2 ^ 31 }
    ensures may { MayCallList bank.now result.0 l }
    ensures few { result.1 ≤ 2 * 256 }
{
    let (one, other) = passes;
    let ((first, ours), (_, theirs)) = thread::join(
        rt,
        move || -> (Pass, u32)
            requires { MayCallList bank.now one l }
            ensures { MayCallList bank.entry.now result.0 l × (result.1 ≤ 256) }
        { take_each(bank, one, l) },
        move || -> (Pass, u32)
            requires { MayCallList bank.now other (l + 1) × (l < 2 ^ 31) }
            ensures { MayCallList bank.entry.now result.0 (l + 1) × (result.1 ≤ 256) }
        { take_each(bank, other, l + 1) },
    );
    (first, ours + theirs)
}

/// Four passes in a thread each, on lists 0 to 3; answers the first of them and how many tables were taken.
pub(crate) fn take_in_four<R: Threads + Sync>(
    rt: &R,
    bank: &Bank,
    ones: (Pass, Pass),
    others: (Pass, Pass),
) -> (Pass, u32)
    requires ones { MayCallBoth bank.now ones 0 }
    requires others { MayCallBoth bank.now others 2 }
    ensures may { MayCallList bank.now result.0 0 }
    ensures few { result.1 ≤ 4 * 256 }
{
    let ((first, ours), (_, theirs)) = thread::join(
        rt,
        move || -> (Pass, u32)
            requires { MayCallBoth bank.now ones 0 }
            ensures { MayCallList bank.entry.now result.0 0 × (result.1 ≤ 2 * 256) }
        { take_in_two(rt, bank, ones, 0) },
        move || -> (Pass, u32)
            requires { MayCallBoth bank.now others 2 }
            ensures { MayCallList bank.entry.now result.0 2 × (result.1 ≤ 2 * 256) }
        { take_in_two(rt, bank, others, 2) },
    );
    (first, ours + theirs)
}
