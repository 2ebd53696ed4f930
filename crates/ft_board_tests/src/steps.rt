//! What comes of a call, step by step in one thread.
ghost use Rattle.std.specs.Prelude.{◌≡◌, ℕ};
ghost use Rattle.ft_board.specs.Boards.{name_of};
ghost use Rattle.ft_board_tests.specs.Makers.{IsMaker};

use crate::notes::{maker, new_board, notes_for};
use ft_bank::{Bank, Pass};
use ft_board::{Board, Fetched, Naming};
use std::alloc::Global;
use std::marker::Brand;
use std::process::Abort;
use std::sync::Wait;
use std::test::Fail;

/// A step: something is left on the board, or what is fetched of the first call of thread 0.
#[derive(Clone, Copy)]
enum Step {
    /// The first call of thread 0 is published, with a note for each await.
    Publish,
    /// Its second call is, which nobody awaits.
    PublishOther,
    /// The thread of this number stops.
    Stop(u32),
    /// A note is fetched.
    Got,
    /// The thread has stopped.
    Stopped,
}

/// Steps on a new board.
struct Case {
    name: &'static str,
    steps: &'static [Step],
}

const CASES: [Case; 8] = [
    Case {
        name: "each of two awaits gets a note",
        steps: &[Step::Publish, Step::Got, Step::Got],
    },
    Case {
        name: "who awaits a thread that has stopped is told so",
        steps: &[Step::Stop(0), Step::Stopped, Step::Stopped],
    },
    Case {
        name: "after a stop nothing is published",
        steps: &[Step::Stop(0), Step::Publish, Step::Stopped, Step::Stopped],
    },
    Case {
        name: "a stop leaves what was published",
        steps: &[Step::Publish, Step::Stop(0), Step::Got, Step::Got],
    },
    Case {
        name: "a stop between two awaits leaves the second note",
        steps: &[Step::Publish, Step::Got, Step::Stop(0), Step::Got],
    },
    Case {
        name: "a call is published once",
        steps: &[Step::Publish, Step::Publish, Step::Got, Step::Got],
    },
    Case {
        name: "other threads that stop change nothing",
        steps: &[
            Step::Stop(1),
            Step::Stop(2),
            Step::Publish,
            Step::Got,
            Step::Got,
        ],
    },
    Case {
        name: "a call that nobody awaits has no notes",
        steps: &[
            Step::PublishOther,
            Step::Publish,
            Step::PublishOther,
            Step::Got,
            Step::Got,
        ],
    },
];

/// Publishes the first call.
fn publish<N: Naming, R: Wait>(
    rt: &R,
    alloc: Global,
    board: &Board<N>,
    bank: &Bank,
    pass: &mut Pass,
) -> Result<bool, Fail>
    requires named { N.bank ≡ name_of bank.now }
    requires maker { IsMaker bank.now pass.old }
    ensures maker { IsMaker bank.now pass.new }
{
    let notes = notes_for(alloc, board, bank, pass)?;
    board.publish(rt, 0, 1, notes);
    Ok(true)
}

/// Publishes the second call. Answers whether nobody awaits it.
fn publish_other<N: Naming, R: Wait>(rt: &R, alloc: Global, board: &Board<N>) -> bool {
    if board.awaits(0, 2) != 0 {
        return false;
    }
    board.publish(rt, 0, 2, Vec::new(alloc));
    true
}

/// Takes a step. Answers whether what is fetched is what the step says.
fn take<N: Naming, R: Wait>(
    rt: &R,
    alloc: Global,
    board: &Board<N>,
    bank: &Bank,
    pass: &mut Pass,
    step: Step,
) -> Result<bool, Fail>
    requires named { N.bank ≡ name_of bank.now }
    requires stopped { (thread : ℕ) → N.stopped thread }
    requires maker { IsMaker bank.now pass.old }
    ensures maker { IsMaker bank.now pass.new }
{
    match step {
        Step::Publish => publish(rt, alloc, board, bank, pass),
        Step::PublishOther => Ok(publish_other(rt, alloc, board)),
        Step::Stop(thread) => {
            board.stop(rt, thread);
            Ok(true)
        }
        Step::Got => Ok(matches!(board.fetch(rt, 0, 1), Fetched::Got(_))),
        Step::Stopped => Ok(matches!(board.fetch(rt, 0, 1), Fetched::Stopped)),
    }
}

/// Whether each step comes out on a new board.
fn all_come_out<N: Naming, R: Wait>(
    rt: &R,
    alloc: Global,
    bank: &Bank,
    pass: &mut Pass,
    steps: &[Step],
) -> Result<bool, Fail>
    requires named { N.bank ≡ name_of bank.now }
    requires stopped { (thread : ℕ) → N.stopped thread }
    requires maker { IsMaker bank.now pass.old }
{
    let board: Board<N> = new_board(alloc)?;
    for step in steps {
        if !take(rt, alloc, &board, bank, pass, *step)? {
            return Ok(false);
        }
    }
    Ok(true)
}

/// The same, of a bank that the board is named by.
fn come_out<R: Wait>(
    rt: &R,
    alloc: Global,
    bank: Bank,
    pass: Pass,
    steps: &[Step],
) -> Result<bool, Fail>
    requires { IsMaker bank pass }
{
    let mut pass = pass;
    all_come_out::<Brand, R>(rt, alloc, &bank, &mut pass, steps)
}

#[test]
fn what_is_fetched_is_what_came_first(rt: HostRuntime) -> Result<(), Fail> {
    let alloc = rt.alloc();
    for case in &CASES {
        let (bank, pass) = maker(alloc)?;
        assert!(rt;
            come_out(&rt, alloc, bank, pass, case.steps)?,
            "{}",
            case.name
        );
    }
    Ok(())
}

/// How many awaits a board counts of the calls that are named so.
fn counted<N: Naming>(alloc: Global, calls: &[(u32, u32)]) -> Result<Vec<u32>, Fail> {
    let board: Board<N> = new_board(alloc)?;
    let mut counts = Vec::new(alloc);
    for (thread, index) in calls {
        counts.push(board.awaits(*thread, *index))?;
    }
    Ok(counts)
}

#[test]
fn a_board_counts_awaits(rt: HostRuntime) -> Result<(), Fail> {
    let calls = [(0, 1), (0, 2), (0, 0), (1, 1), (2, 1), (3, 1)];
    let counts = counted::<Brand>(rt.alloc(), &calls)?;
    assert_eq!(rt; counts.as_slice(), [2, 0, 0, 0, 0, 0].as_slice());
    Ok(())
}
