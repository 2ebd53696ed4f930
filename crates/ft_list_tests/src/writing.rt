//! Looks at a list in the midst of another pass's write, whose words are put step by step.
ghost use Rattle.std.specs.Prelude.{◌≡◌, ℕ, ◌<◌, true, false, IfSome, OnOk};
ghost use Rattle.ft_model.specs.declared.script.Kind.TheVariants as kind;
ghost use Rattle.ft_trace.specs.Acts.{has_committed, has_lock, is_writing};
ghost use Rattle.ft_trace.specs.Addresses.{class_of, container_count, slots};
ghost use Rattle.ft_trace.specs.Boxes.{IsDoneWithBoxes};
ghost use Rattle.ft_trace.specs.Pictures.{item_offset};
ghost use Rattle.ft_trace.specs.ContainerStates.{kind_in};
ghost use Rattle.ft_bank.specs.Passes.{shape_of, view, IsPassOf};
ghost use Rattle.ft_bank.specs.TableNames.{table_id};
ghost use Rattle.ft_list.specs.ListItemWrites.{WritesList};
ghost use Rattle.ft_list_tests.specs.TestCalls.{HasTwoLists, MayLook, MayTryAny};

use crate::banks::{small_bank, some_left};
use crate::calls::{is_list, look_call, try_call};
use crate::python::{Python, call_of};
use ft_bank::{Bank, Pass, Table};
use ft_boxes::new_passes_are_settled;
use ft_layout::item_word;
use ft_list::{look_eq, look_has};
use ft_model::{Reply, Value};
use ft_search::table_named;
use ft_section::{Got, Look, Objects, Stamp, new_passes_are_ready, take_for};
use std::alloc::Global;
use std::test::Fail;

/// How many words of a table come before those that a bank counts.
const HEADER: u64 = 2;

/// Which word of a table the version of an item is, counted from the header on.
fn version_at(place: u64) -> u64
    requires { place < 65536 }
    ensures { result ≡ item_offset place 0 }
{
    ft_layout::item_at(place, item_word::VERSION) - HEADER
}

/// Makes the version of a list odd whose lock the pass has, and answers its table.
fn begin(bank: &Bank, writer: &mut Pass, l: u32) -> Option<Table>
    requires pass { IsPassOf bank.now writer.old }
    requires container { l < container_count (shape_of bank.now) }
    requires list { kind_in (shape_of bank.now).starts l ≡ kind.List }
    requires locked { has_lock l (view writer.old).log ≡ true }
    requires even { (p : ℕ) → is_writing p (view writer.old).log ≡ false }
    requires boxes { IsDoneWithBoxes (view writer.old).shape (view writer.old).log }
    ensures pass { IsPassOf bank.now writer.new }
    ensures list { IfSome result (λ table. WritesList (shape_of bank.now) l table (view writer.new)) }
    ensures early { has_committed l (view writer.new).log ≡ false }
{
    let root = bank.read_block(writer, l, 0);
    bank.start_write(writer, l);
    table_named(root)
}

/// Makes odd the version of an item of a list that the pass writes, and answers it; `None` where it was odd.
fn open_item(bank: &Bank, writer: &mut Pass, l: u32, table: Table, place: u64) -> Option<u64>
    requires pass { IsPassOf bank.now writer.old }
    requires list { WritesList (shape_of bank.now) l table (view writer.old) }
    requires early { has_committed l (view writer.old).log ≡ false }
    requires place { place < slots (class_of (table_id table)) }
{
    let word = version_at(place);
    let version = bank.read_table(writer, table, word);
    if version % 2 != 0 {
        return None;
    }
    bank.put_table(writer, l, table, word, version + 1);
    Some(version + 1)
}

/// The first half of a write of list 0, which has eight items: makes its version and that of item 3 odd, and answers
/// the latter.
fn open_third(bank: &Bank, writer: &mut Pass) -> Option<u64>
    requires lists { HasTwoLists bank.now }
    requires may { MayTryAny bank.now writer.old }
{
    if !is_list(bank, 0) {
        return None;
    }
    let Got::Have = take_for(bank, writer, Objects::One(0)) else {
        return None;
    };
    let table = begin(bank, writer, 0)?;
    if table.class != 3 {
        return None;
    }
    open_item(bank, writer, 0, table, 3)
}

/// Gives list 0 the integers 0 to 7, each at its index.
pub(crate) fn fill(bank: &Bank, writer: &mut Pass, alloc: Global) -> Result<(), Fail>
    requires lists { HasTwoLists bank.now }
    requires may { MayTryAny bank.now writer.old }
    ensures may { OnOk result (MayTryAny bank.now writer.new) }
{
    for integer in 0..8i64 {
        let call = call_of(Python::Append(integer));
        let Some((Reply::Done, _)) = try_call(bank, writer, alloc, 0, call) else {
            return Err(Fail::from("an append is done"));
        };
    }
    Ok(())
}

/// Whether a look at list 0 is contended by two loads of a version that gave this.
pub(crate) fn is_contended(
    bank: &Bank,
    reader: &mut Pass,
    alloc: Global,
    python: Python,
    version: u64,
) -> bool
    requires lists { HasTwoLists bank.now }
    requires pass { MayLook bank.now reader.old }
    ensures pass { MayLook bank.now reader.new }
{
    match look_call(bank, reader, alloc, 0, call_of(python)) {
        Some(Look::Contended(early, late)) => early == version && late == version,
        _ => false,
    }
}

#[test]
fn an_item_whose_version_is_odd_contends_alone(rt: HostRuntime) -> Result<(), Fail> {
    let alloc = rt.alloc();
    let (bank, mut writer, mut reader) = small_bank(alloc)?;
    new_passes_are_ready(&bank, &writer);
    new_passes_are_settled(&bank, &reader);
    fill(&bank, &mut writer, alloc)?;
    // The item was put once, so that its version was 2; eight writes made the list's 16.
    assert_eq!(rt; open_third(&bank, &mut writer), Some(3));
    let stamp = Stamp {
        number: 8,
        wrote: false,
    };
    let two = Look::Done(Reply::Value(Value::Int(2)), stamp);
    assert_eq!(rt;
        look_call(&bank, &mut reader, alloc, 0, call_of(Python::Get(2))),
        Some(two)
    );
    assert!(rt; is_contended(&bank, &mut reader, alloc, Python::Get(3), 3));
    assert!(rt; is_contended(&bank, &mut reader, alloc, Python::Get(-6), 17));
    assert!(rt; is_contended(&bank, &mut reader, alloc, Python::Has(2), 17));
    assert!(rt; is_contended(&bank, &mut reader, alloc, Python::Equals(1), 17));
    assert!(rt; is_contended(&bank, &mut reader, alloc, Python::Len, 17));
    assert!(rt; is_contended(&bank, &mut reader, alloc, Python::Items, 17));
    Ok(())
}

#[test]
fn an_odd_version_contends_and_a_lock_does_not(rt: HostRuntime) -> Result<(), Fail> {
    let (bank, mut writer, mut reader) = small_bank(rt.alloc())?;
    let Ok(()) = bank.try_lock(&mut writer, 0) else {
        return Err(Fail::from("the lock is free"));
    };
    some_left(&reader)?;
    let Look::Done(reply, _) = look_has(&bank, &mut reader, 0, Value::Int(7)) else {
        return Err(Fail::from("a lock alone stops no look"));
    };
    assert_eq!(rt; reply, Reply::Truth(false));
    assert_eq!(rt; bank.start_write(&mut writer, 0), 0);
    some_left(&reader)?;
    assert_eq!(rt; look_eq(&bank, &mut reader, 1, 0), Look::Contended(1, 1));
    some_left(&reader)?;
    let Look::Done(reply, _) = look_has(&bank, &mut reader, 1, Value::Int(7)) else {
        return Err(Fail::from("nobody writes the other list"));
    };
    assert_eq!(rt; reply, Reply::Truth(false));
    Ok(())
}
