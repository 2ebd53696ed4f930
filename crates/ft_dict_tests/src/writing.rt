//! Look-ups of a dict beside another pass's `d[k] = v` that has stopped before its commit, and which entries of a dict
//! a call that puts values opens: those that get another value, and no others.
ghost use Rattle.std.specs.Prelude.{◌≡◌, [], ◌∷◌, ◌+◌, ◌*◌, ◌<◌, IfOk, OnOk};
ghost use Rattle.ft_model.specs.declared.script.Kind.TheVariants as kind;
ghost use Rattle.ft_layout.specs.declared.slot.Stored.TheVariants.{Plain};
ghost use Rattle.ft_layout.specs.Words.{FitsStored};
ghost use Rattle.ft_trace.specs.Addresses.{class_of, slots};
ghost use Rattle.ft_trace.specs.Holds.{held_unboxed};
ghost use Rattle.ft_trace.specs.Pictures.{entry_field};
ghost use Rattle.ft_bank.specs.KeyHashes.{IsKeyIn};
ghost use Rattle.ft_bank.specs.NewPasses.{IsOpening};
ghost use Rattle.ft_bank.specs.Passes.{shape_of, view, IsPassOf};
ghost use Rattle.ft_bank.specs.TableNames.{table_id, IsTableIn};
ghost use Rattle.ft_search.specs.OneEntryWrites.{HasTable, IsLiveEntry, MayWriteEntries};
ghost use Rattle.ft_section.specs.declared.answers.Objects.{Objects};
ghost use Rattle.ft_section.specs.Ready.{MayTry};
ghost use Rattle.ft_dict_tests.specs.TwoDicts.{HasTwoDicts, MayLook};

use ft_bank::{Bank, Pass, Shape, Table};
use ft_bank_tests::bank_of_two;
use ft_boxes::new_passes_are_settled;
use ft_dict::{look_get, try_set, try_update};
use ft_keys::Way;
use ft_layout::{used_entries_follow_a_dict, versions_change_nothing, words_follow_a_dict};
use ft_model::{Key, Kind, Reply, Sym, Value};
use ft_qsbr::enter;
use ft_search::{Spot, put_value, says_value, seek_key, table_at};
use ft_section::{Got, Look, Objects, Stamp, Step, new_passes_are_ready, take_for};
use std::alloc::Global;
use std::test::Fail;

/// How many keys the dict has that is written: 0 and on, each with ten times itself.
const KEYS: u32 = 6;

/// Two dicts, three tables of each class, two passes.
fn small(alloc: Global) -> Result<Shape, Fail>
    ensures { IfOk result (λ s. (s.kinds.items ≡ kind.Dict ∷ kind.Dict ∷ []) × (s.passes ≡ 2)) }
{
    Ok(Shape {
        kinds: vec![in alloc; Kind::Dict, Kind::Dict]?,
        texts: Vec::new(alloc),
        tables: vec![in alloc; 3u32; 14]?,
        heap: 64,
        passes: 2,
        calls: 100,
    })
}

/// A bank with two dicts, and its two passes.
fn two_dicts(alloc: Global) -> Result<(Bank, Pass, Pass), Fail>
    ensures dicts { IfOk result (λ made. HasTwoDicts made.0) }
    ensures first { IfOk result (λ made. IsOpening made.0 0 made.1) }
    ensures second { IfOk result (λ made. IsOpening made.0 1 made.2) }
{
    let (bank, first, second) = bank_of_two(alloc, small(alloc)?)?;
    Ok((bank, first, second))
}

/// `d[k] = v` of dict 0, with integers.
fn set(bank: &Bank, writer: &mut Pass, key: i64, value: i64) -> Result<(), Fail>
    requires dicts { HasTwoDicts bank.now }
    requires may { (objects : Objects) → MayTry bank.now writer.old objects }
    ensures may { OnOk result ((objects : Objects) → MayTry bank.now writer.new objects) }
{
    if writer.left() == 0 {
        return Err(Fail::from("a hundred calls are left at first"));
    }
    match try_set(bank, writer, 0, Key::Int(key), Value::Int(value)) {
        Step::Done(Reply::Done, _) => Ok(()),
        _ => Err(Fail::from("a set is done")),
    }
}

/// The same of dict 1.
fn set_other(bank: &Bank, writer: &mut Pass, key: i64, value: i64) -> Result<(), Fail>
    requires dicts { HasTwoDicts bank.now }
    requires may { (objects : Objects) → MayTry bank.now writer.old objects }
    ensures may { OnOk result ((objects : Objects) → MayTry bank.now writer.new objects) }
{
    if writer.left() == 0 {
        return Err(Fail::from("a hundred calls are left at first"));
    }
    match try_set(bank, writer, 1, Key::Int(key), Value::Int(value)) {
        Step::Done(Reply::Done, _) => Ok(()),
        _ => Err(Fail::from("a set is done")),
    }
}

/// The integer that dict 0 has at a key.
fn value_at(key: u32) -> i64 {
    i64::from(key.wrapping_mul(10))
}

/// Gives dict 0 its six keys. The sixth takes a table of class 4.
fn fill(bank: &Bank, writer: &mut Pass) -> Result<(), Fail>
    requires dicts { HasTwoDicts bank.now }
    requires may { (objects : Objects) → MayTry bank.now writer.old objects }
    ensures may { OnOk result ((objects : Objects) → MayTry bank.now writer.new objects) }
{
    for key in 0..KEYS {
        set(bank, writer, i64::from(key), value_at(key))?;
    }
    Ok(())
}

/// A value's integer has 64 bits, and its string's number 32, so that words can represent it.
fn value_fits(value: Value)
    ensures { FitsStored (Plain value) }
{
    match value {
        Value::Nothing => {}
        Value::Int(integer) => {
            let _word = integer;
        }
        Value::Text(sym) => {
            let _number = sym.0;
        }
    }
}

/// The steps of `d[k] = v` up to the commit, at an entry that was found and of which the kind and the payload of its
/// value were read: the version of the dict is odd, that of the entry is, and the value's words are put. `false` where
/// the entry has the value.
fn open(
    bank: &Bank,
    writer: &mut Pass,
    at: (Table, u64),
    old: (u64, u64),
    key: Key,
    value: Value,
) -> bool
    requires pass { IsPassOf bank.now writer.old }
    requires dicts { HasTwoDicts bank.now }
    requires may { MayWriteEntries (shape_of bank.now) 0 (view writer.old) }
    requires table { HasTable (shape_of bank.now) 0 at.0 (view writer.old) }
    requires entry { IsLiveEntry (shape_of bank.now) 0 at.0 at.1 key (view writer.old) }
    requires old_kind { old.0 ≡ entry_field (slots (class_of (table_id at.0)))
        (held_unboxed 0 (view writer.old)).table at.1 4 }
    requires old_payload { old.1 ≡ entry_field (slots (class_of (table_id at.0)))
        (held_unboxed 0 (view writer.old)).table at.1 5 }
    ensures pass { IsPassOf bank.now writer.new }
{
    let _ = key;
    value_fits(value);
    versions_change_nothing();
    used_entries_follow_a_dict();
    words_follow_a_dict();
    if says_value(old, value) {
        return false;
    }
    bank.start_write(writer, 0);
    put_value(bank, writer, 0, at.0, at.1, value, old);
    true
}

/// Finds a key of dict 0, whose lock the pass has, and begins to set it: all but the commit and what follows. `false`
/// where the key isn't there, or has the value.
fn open_key(bank: &Bank, writer: &mut Pass, key: Key, value: Value) -> bool
    requires pass { IsPassOf bank.now writer.old }
    requires dicts { HasTwoDicts bank.now }
    requires may { MayWriteEntries (shape_of bank.now) 0 (view writer.old) }
    requires key { IsKeyIn (shape_of bank.now) key }
{
    match seek_key(bank, writer, 0, Way::Dict, key) {
        Spot::At(table, place, kind, payload) => {
            open(bank, writer, (table, place), (kind, payload), key, value)
        }
        _ => false,
    }
}

/// The first half of `d[k] = v` of dict 0: it takes the lock, and stops before the commit.
#[tactic(auto, using(ft_dict::proofs::DictTries::may_enter))]
fn set_halfway(bank: &Bank, writer: &mut Pass, key: u32, value: Value) -> bool
    requires dicts { HasTwoDicts bank.now }
    requires may { (objects : Objects) → MayTry bank.now writer.old objects }
{
    let Got::Have = take_for(bank, writer, Objects::One(0)) else {
        return false;
    };
    if writer.left() == 0 {
        return false;
    }
    open_key(bank, writer, Key::Int(i64::from(key)), value)
}

/// Whether a look-up of a key of dict 0 answers its value, after six writes.
fn is_answered(bank: &Bank, reader: &mut Pass, key: u32) -> bool
    requires dicts { HasTwoDicts bank.now }
    requires pass { MayLook bank.now reader.old }
    ensures pass { MayLook bank.now reader.new }
{
    enter(bank, reader);
    if reader.left() == 0 {
        return false;
    }
    let stamp = Stamp {
        number: 6,
        wrote: false,
    };
    let value = Value::Int(value_at(key));
    look_get(bank, reader, 0, Key::Int(i64::from(key))) == Look::Done(Reply::Value(value), stamp)
}

/// Whether a look-up of a key of dict 0 is contended by two loads of a version that gave this.
fn is_contended(bank: &Bank, reader: &mut Pass, key: u32, version: u64) -> bool
    requires dicts { HasTwoDicts bank.now }
    requires pass { MayLook bank.now reader.old }
    ensures pass { MayLook bank.now reader.new }
{
    enter(bank, reader);
    if reader.left() == 0 {
        return false;
    }
    look_get(bank, reader, 0, Key::Int(i64::from(key))) == Look::Contended(version, version)
}

/// Whether a look-up of a key of dict 0 does as it should while a set of a key has stopped before its commit: the key
/// that is set is contended, by its entry's version, and another one is answered.
fn is_right(bank: &Bank, reader: &mut Pass, key: u32, changed: u32, version: u64) -> bool
    requires dicts { HasTwoDicts bank.now }
    requires pass { MayLook bank.now reader.old }
    ensures pass { MayLook bank.now reader.new }
{
    if key == changed {
        return is_contended(bank, reader, key, version);
    }
    is_answered(bank, reader, key)
}

/// The first of dict 0's keys whose look-up doesn't do as it should.
fn first_wrong(bank: &Bank, reader: &mut Pass, changed: u32, version: u64) -> Option<u32>
    requires dicts { HasTwoDicts bank.now }
    requires pass { MayLook bank.now reader.old }
{
    for key in 0..KEYS {
        if !is_right(bank, reader, key, changed, version) {
            return Some(key);
        }
    }
    None
}

/// Fills a dict, has one pass stop in the midst of a set of this key, and another pass look up each key.
fn wrong_beside(alloc: Global, changed: u32, value: Value) -> Result<Option<u32>, Fail> {
    let (bank, mut writer, mut reader) = two_dicts(alloc)?;
    new_passes_are_ready(&bank, &writer);
    new_passes_are_settled(&bank, &reader);
    fill(&bank, &mut writer)?;
    if !set_halfway(&bank, &mut writer, changed, value) {
        return Err(Fail::from("the key is there with another value"));
    }
    // The sixth key took a new table, in which the first five have the version 0; its own entry was put once there,
    // which made its version 2.
    let version = if changed == 5 { 3 } else { 1 };
    Ok(first_wrong(&bank, &mut reader, changed, version))
}

#[test]
fn a_set_of_one_key_contends_no_look_up_of_another(rt: HostRuntime) -> Result<(), Fail> {
    for changed in 0..KEYS {
        let wrong = wrong_beside(rt.alloc(), changed, Value::Int(-1))?;
        assert_eq!(rt; wrong, None, "key {}", changed);
    }
    Ok(())
}

#[test]
fn a_value_half_put_contends_no_look_up_of_another_key(rt: HostRuntime) -> Result<(), Fail> {
    for changed in 0..KEYS {
        // The string's number is the integer that is there, so that of the two words only the kind is put, as it is in
        // the midst of a set to any string.
        let string = Value::Text(Sym(changed.wrapping_mul(10)));
        let wrong = wrong_beside(rt.alloc(), changed, string)?;
        assert_eq!(rt; wrong, None, "key {}", changed);
    }
    Ok(())
}

/// How many words of a table of class 3 come before its entries, and how many words an entry has; its first one is its
/// version.
const WORDS: u64 = 8;

/// Which word of a table of class 3 is the version of the entry at a place, counted from the header on.
fn version_at(place: u64) -> u64
    requires { place < 5 }
    ensures { result ≡ 8 * place + 8 }
{
    WORDS * place + WORDS
}

/// The version of the entry at a place of a table; `None` where it isn't of class 3.
fn version_in(bank: &Bank, reader: &mut Pass, table: Table, place: u64) -> Option<u64>
    requires pass { IsPassOf bank.now reader.old }
    requires table { IsTableIn (shape_of bank.now) table }
    requires place { place < 5 }
    ensures pass { IsPassOf bank.now reader.new }
{
    if table.class != 3 {
        return None;
    }
    let word = version_at(place);
    Some(bank.read_table(reader, table, word))
}

/// The version of the entry at a place of dict 0's table of class 3; `None` where the dict has no such table.
fn version_of(bank: &Bank, reader: &mut Pass, place: u64) -> Option<u64>
    requires dicts { HasTwoDicts bank.now }
    requires pass { IsPassOf bank.now reader.old }
    requires place { place < 5 }
    ensures pass { IsPassOf bank.now reader.new }
{
    let root = bank.read_block(reader, 0, 0);
    match table_at(bank, root) {
        Some(table) => version_in(bank, reader, table, place),
        None => None,
    }
}

/// The versions of the entries at places 0 and 1 of dict 0.
fn versions(bank: &Bank, reader: &mut Pass) -> (Option<u64>, Option<u64>)
    requires dicts { HasTwoDicts bank.now }
    requires pass { IsPassOf bank.now reader.old }
    ensures pass { IsPassOf bank.now reader.new }
{
    let first = version_of(bank, reader, 0);
    let second = version_of(bank, reader, 1);
    (first, second)
}

#[test]
fn a_set_of_the_value_that_is_there_leaves_the_version(rt: HostRuntime) -> Result<(), Fail> {
    let (bank, mut writer, mut reader) = two_dicts(rt.alloc())?;
    new_passes_are_ready(&bank, &writer);
    set(&bank, &mut writer, 1, 10)?;
    set(&bank, &mut writer, 2, 20)?;
    // Each entry was put once.
    assert_eq!(rt; versions(&bank, &mut reader), (Some(2), Some(2)));
    set(&bank, &mut writer, 1, 10)?;
    set(&bank, &mut writer, 2, 20)?;
    assert_eq!(rt; versions(&bank, &mut reader), (Some(2), Some(2)));
    set(&bank, &mut writer, 1, 11)?;
    assert_eq!(rt; versions(&bank, &mut reader), (Some(4), Some(2)));
    set(&bank, &mut writer, 2, 21)?;
    assert_eq!(rt; versions(&bank, &mut reader), (Some(4), Some(4)));
    Ok(())
}

/// `d.update(e)` of dict 0 with dict 1.
fn update(bank: &Bank, writer: &mut Pass) -> Result<(), Fail>
    requires dicts { HasTwoDicts bank.now }
    requires may { (objects : Objects) → MayTry bank.now writer.old objects }
    ensures may { OnOk result ((objects : Objects) → MayTry bank.now writer.new objects) }
{
    if writer.left() == 0 {
        return Err(Fail::from("a hundred calls are left at first"));
    }
    match try_update(bank, writer, 0, 1) {
        Step::Done(Reply::Done, _) => Ok(()),
        _ => Err(Fail::from("an update is done")),
    }
}

#[test]
fn an_update_with_equal_values_leaves_the_versions(rt: HostRuntime) -> Result<(), Fail> {
    let (bank, mut writer, mut reader) = two_dicts(rt.alloc())?;
    new_passes_are_ready(&bank, &writer);
    set(&bank, &mut writer, 1, 10)?;
    set(&bank, &mut writer, 2, 20)?;
    set_other(&bank, &mut writer, 1, 10)?;
    set_other(&bank, &mut writer, 2, 20)?;
    assert_eq!(rt; versions(&bank, &mut reader), (Some(2), Some(2)));
    update(&bank, &mut writer)?;
    assert_eq!(rt; versions(&bank, &mut reader), (Some(2), Some(2)));
    set_other(&bank, &mut writer, 2, 21)?;
    update(&bank, &mut writer)?;
    assert_eq!(rt; versions(&bank, &mut reader), (Some(2), Some(4)));
    Ok(())
}
