//! Threads that await a call before anything has come of it.
ghost use Rattle.std.specs.Prelude.{◌≡◌, ℕ, All, length};
ghost use Rattle.ft_board.specs.Awaits.{await_count};
ghost use Rattle.ft_board.specs.Boards.{IsNoteFor, name_of};
ghost use Rattle.ft_board_tests.specs.Makers.{IsMaker};

use crate::notes::{maker, new_board, notes_for};
use crossbeam_utils::Backoff;
use ft_bank::{Bank, Note, Pass};
use ft_board::{Board, Fetched, Naming};
use std::alloc::Global;
use std::marker::Brand;
use std::process::Abort;
use std::sync::Wait;
use std::test::Fail;
use std::thread;
use std::thread::Threads;

/// Waits a while, so that who awaits the call mostly sleeps by then.
fn pause() {
    let backoff = Backoff::new();
    for _ in 0..2_000u32 {
        backoff.snooze();
    }
}

/// How many of two awaits get a note.
fn fetch_both<N: Naming, R: Wait>(rt: &R, board: &Board<N>) -> u32 {
    let first = matches!(board.fetch(rt, 0, 1), Fetched::Got(_));
    let second = matches!(board.fetch(rt, 0, 1), Fetched::Got(_));
    u32::from(first).saturating_add(u32::from(second))
}

/// Both awaits of the first call are made by one thread while another one publishes it; how many get a note.
fn got_beside<N: Naming + Send + Sync, R: Threads + Wait + Sync>(
    rt: &R,
    board: &Board<N>,
    notes: Vec<Note>,
) -> u32
    requires notes { All (IsNoteFor N.bank 0 1) notes.items }
    requires count { length notes.items ≡ await_count board.now 0 1 }
{
    let (got, ()) = thread::join(
        rt,
        move || -> u32 { fetch_both(rt, board) },
        move || -> ()
            requires { All (IsNoteFor N.bank 0 1) notes.items × (length notes.items ≡ await_count board.now 0 1) }
        {
            pause();
            board.publish(rt, 0, 1, notes);
        },
    );
    got
}

/// Both are made while the other thread stops; how many get a note.
fn stopped_beside<N: Naming + Send + Sync, R: Threads + Wait + Sync>(
    rt: &R,
    board: &Board<N>,
) -> u32
    requires stopped { (thread : ℕ) → N.stopped thread }
{
    let (got, ()) = thread::join(
        rt,
        move || -> u32 { fetch_both(rt, board) },
        move || -> ()
            requires { (thread : ℕ) → N.stopped thread }
        {
            pause();
            board.stop(rt, 0);
        },
    );
    got
}

/// How many of the two awaits get a note, where the call is published and where its thread stops.
fn both_beside<N: Naming + Send + Sync, R: Threads + Wait + Sync>(
    rt: &R,
    alloc: Global,
    bank: &Bank,
    pass: &mut Pass,
) -> Result<(u32, u32), Fail>
    requires named { N.bank ≡ name_of bank.now }
    requires stopped { (thread : ℕ) → N.stopped thread }
    requires maker { IsMaker bank.now pass.old }
{
    let board: Board<N> = new_board(alloc)?;
    let notes = notes_for(alloc, &board, bank, pass)?;
    let published = got_beside(rt, &board, notes);
    let other: Board<N> = new_board(alloc)?;
    Ok((published, stopped_beside(rt, &other)))
}

/// The same, of a bank that the boards are named by.
fn both_on<R: Threads + Wait + Sync>(
    rt: &R,
    alloc: Global,
    bank: Bank,
    pass: Pass,
) -> Result<(u32, u32), Fail>
    requires { IsMaker bank pass }
{
    let mut pass = pass;
    both_beside::<Brand, R>(rt, alloc, &bank, &mut pass)
}

#[test]
fn who_awaits_a_call_is_woken(rt: HostRuntime) -> Result<(), Fail> {
    let alloc = rt.alloc();
    for _ in 0..10 {
        let (bank, pass) = maker(alloc)?;
        assert_eq!(rt; both_on(&rt, alloc, bank, pass)?, (2, 0));
    }
    Ok(())
}
