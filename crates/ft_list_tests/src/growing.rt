//! Looks at a list in the midst of another pass's append that takes another table: the table is filled, and the root
//! still names the old one.
ghost use Rattle.std.specs.Prelude.{◌≡◌, ℕ, ◌<◌, true, false};
ghost use Rattle.ft_trace.specs.Acts.{flight, has_lock, is_writing, owes};
ghost use Rattle.ft_bank.specs.Passes.{shape_of, view, IsPassOf};
ghost use Rattle.ft_list_tests.specs.TestCalls.{HasTwoLists, IsGrowing, MayLook, MayTryAny};

use crate::banks::small_bank;
use crate::calls::{is_list, look_call};
use crate::python::{Python, call_of};
use crate::writing::{fill, is_contended};
use ft_bank::{Bank, Pass, Table, Took};
use ft_boxes::new_passes_are_settled;
use ft_layout::{Stored, item_word, stored_kind_of};
use ft_model::{Reply, Value};
use ft_section::{Got, Look, Objects, Stamp, new_passes_are_ready, take_for};
use std::alloc::Global;
use std::test::Fail;

/// How many words an item has.
const ITEM: u64 = 4;

/// How many words the items of a table of class 4 have.
const WORDS: u64 = 64;

/// Puts a word of an item of the new table.
fn put_new(bank: &Bank, writer: &mut Pass, table: Table, word: u64, value: u64)
    requires pass { IsPassOf bank.now writer.old }
    requires growing { IsGrowing (shape_of bank.now) table (view writer.old) }
    requires word { word < 64 }
    ensures pass { IsPassOf bank.now writer.new }
    ensures growing { IsGrowing (shape_of bank.now) table (view writer.new) }
{
    bank.put_fresh(writer, table, word, value);
}

/// A word of a table that has the integers 0 to 7, each at its index and with the version 0, and nothing past them.
fn new_word(word: u64) -> u64 {
    let place = word / ITEM;
    if place >= 8 {
        return 0;
    }
    match word % ITEM {
        item_word::VALUE_KIND => stored_kind_of(Stored::Plain(Value::Int(0))),
        item_word::VALUE => place,
        _ => 0,
    }
}

/// Fills the new table.
fn fill_new(bank: &Bank, writer: &mut Pass, table: Table)
    requires pass { IsPassOf bank.now writer.old }
    requires growing { IsGrowing (shape_of bank.now) table (view writer.old) }
    ensures pass { IsPassOf bank.now writer.new }
    ensures growing { IsGrowing (shape_of bank.now) table (view writer.new) }
{
    for word in 0..WORDS {
        put_new(bank, writer, table, word, new_word(word));
    }
}

/// Takes a table of class 4 for list 0, whose lock the pass has, and gives it the items; then makes the list's version
/// odd. Whether it was done.
fn grow(bank: &Bank, writer: &mut Pass) -> bool
    requires lists { HasTwoLists bank.now }
    requires pass { IsPassOf bank.now writer.old }
    requires idle { flight (view writer.old).log ≡ 0 }
    requires owes { owes (view writer.old).log ≡ 0 }
    requires locked { has_lock 0 (view writer.old).log ≡ true }
    requires even { (p : ℕ) → is_writing p (view writer.old).log ≡ false }
{
    match bank.take_table(writer, 4) {
        Took::Taken(table) => {
            fill_new(bank, writer, table);
            bank.start_write(writer, 0);
            true
        }
        _ => false,
    }
}

/// The first half of an append to list 0, which has eight items, those of a table of class 3: it takes the lock and a
/// table of class 4, and stops before the root is put.
fn append_halfway(bank: &Bank, writer: &mut Pass) -> bool
    requires lists { HasTwoLists bank.now }
    requires may { MayTryAny bank.now writer.old }
{
    if !is_list(bank, 0) {
        return false;
    }
    match take_for(bank, writer, Objects::One(0)) {
        Got::Have => grow(bank, writer),
        Got::NotYet(_, _) => false,
    }
}

/// Looks at each of the eight items: the index of the first that isn't answered.
fn first_unanswered(bank: &Bank, reader: &mut Pass, alloc: Global) -> Option<i64>
    requires lists { HasTwoLists bank.now }
    requires pass { MayLook bank.now reader.old }
    ensures pass { MayLook bank.now reader.new }
{
    let stamp = Stamp {
        number: 8,
        wrote: false,
    };
    for index in 0..8i64 {
        let looked = look_call(bank, reader, alloc, 0, call_of(Python::Get(index)));
        if looked != Some(Look::Done(Reply::Value(Value::Int(index)), stamp)) {
            return Some(index);
        }
    }
    None
}

#[test]
fn an_append_that_takes_a_table_contends_no_look_at_an_item(rt: HostRuntime) -> Result<(), Fail> {
    let alloc = rt.alloc();
    let (bank, mut writer, mut reader) = small_bank(alloc)?;
    new_passes_are_ready(&bank, &writer);
    new_passes_are_settled(&bank, &reader);
    fill(&bank, &mut writer, alloc)?;
    assert!(rt; append_halfway(&bank, &mut writer));
    assert_eq!(rt; first_unanswered(&bank, &mut reader, alloc), None);
    // The eight writes made the list's version 16.
    assert!(rt; is_contended(&bank, &mut reader, alloc, Python::Len, 17));
    Ok(())
}
