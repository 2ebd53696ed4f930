//! Four threads in one, with their turns in each order that there is.

use crate::turns::play;
use ft_history::{Verdict, judge, merge};
use ft_model::{Script, ScriptParts, Storage};
use ft_script::parse;
use std::alloc::Global;
use std::process::Abort;
use std::test::Fail;

/// Sections in one another, and who wants one of their two locks.
const NESTED: &str =
    "list l\ndict d\nthread A\nbegin d\nbegin l\nend\nend\nthread B\nappend l 1\nthread C\nset d 1 1\n\
    thread D\nlen d\n";

/// Two sections that want one lock both, beside writes.
const SECTIONS: &str =
    "list l\ndict d\nthread A\nbegin l d\nend\nthread B\nbegin d\nend\nthread C\nappend l 1\n\
    thread D\nset d 1 1\n";

/// Calls without sections, of which some raise a MemoryError in some orders.
const TABLES: &str =
    "tables 3 2\ndict d\nset s\nlist l\nthread A\nset d 1 1\nget d 1\nthread B\nadd s 1\nclear s\n\
    thread C\nappend l 1\nthread D\nset d 2 2\n";

/// The turns that the last digits of a number to the base 4 are.
fn turns_of(alloc: Global, number: u32, count: usize) -> Result<Vec<u32>, Fail> {
    let mut turns = Vec::new(alloc);
    let mut rest = number;
    for _ in 0..count {
        turns.push(rest % 4)?;
        rest /= 4;
    }
    Ok(turns)
}

/// How many of these turns are the thread's.
fn count_of(turns: &[u32], thread: u32) -> usize {
    let mut count = 0usize;
    for turn in turns {
        if *turn == thread {
            count = count.saturating_add(1);
        }
    }
    count
}

/// Whether each thread has as many of these turns as it has calls.
fn is_order(script: &ScriptParts, turns: &[u32]) -> bool {
    let mut thread = 0u32;
    for calls in script.threads.as_slice() {
        if count_of(turns, thread) != calls.calls.len() {
            return false;
        }
        thread = thread.saturating_add(1);
    }
    true
}

/// Whether the script's history is legal where the first turns are these.
fn is_legal(alloc: Global, script: &Script, turns: &[u32]) -> Result<bool, Fail> {
    let history = merge(alloc, play(alloc, script, turns)?)?;
    Ok(judge(alloc, Storage::Tables, script, history.as_slice())? == Verdict::Legal)
}

/// How many orders there are among the lists of this many turns, of which there are `lists`; the history of each is legal.
fn legal_orders(alloc: Global, text: &str, count: usize, lists: u32) -> Result<u32, Fail> {
    let script = parse(alloc, text.as_bytes())?;
    let mut orders = 0u32;
    for number in 0..lists {
        let turns = turns_of(alloc, number, count)?;
        if is_order(script.parts(), turns.as_slice()) {
            if !is_legal(alloc, &script, turns.as_slice())? {
                return Err(Fail::from("the history is legal"));
            }
            orders = orders.saturating_add(1);
        }
    }
    Ok(orders)
}

#[test]
fn nested_sections_are_legal_in_each_order(rt: HostRuntime) -> Result<(), Fail> {
    // 7! / 4! orders
    assert_eq!(rt; legal_orders(rt.alloc(), NESTED, 7, 16384)?, 210);
    Ok(())
}

#[test]
fn two_sections_are_legal_in_each_order(rt: HostRuntime) -> Result<(), Fail> {
    // 6! / (2! * 2!) orders
    assert_eq!(rt; legal_orders(rt.alloc(), SECTIONS, 6, 4096)?, 180);
    Ok(())
}

#[test]
fn tables_that_are_used_up_are_legal_in_each_order(rt: HostRuntime) -> Result<(), Fail> {
    // 6! / (2! * 2!) orders
    assert_eq!(rt; legal_orders(rt.alloc(), TABLES, 6, 4096)?, 180);
    Ok(())
}
