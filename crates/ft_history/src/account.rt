//! The account of tables: which table each container would have, and how many of each class were
//! taken. After each write it is what the writes so far come to, for whoever asks whether a
//! MemoryError has its cause.
ghost use Rattle.std.specs.Prelude.{◌≡◌, ◌+◌, ◌<◌, ◌^◌, ℕ, List, All, map, length, replicate, None, [], IfSome, IfNone, IfOk, slice_set, slice_index_or, vec_len};
ghost use Rattle.ft_model.specs.declared.content.Content.{Content};
ghost use Rattle.ft_model.specs.declared.call.Call.{Call};
ghost use Rattle.ft_model.specs.declared.call.Call.TheVariants as call_of;
ghost use Rattle.ft_model.specs.declared.script.ScriptParts.{ScriptParts};
ghost use Rattle.ft_model.specs.Classes.{class_count, IsClass};
ghost use Rattle.ft_model.specs.TableUses.{table_of, no_table, grown_table};
ghost use Rattle.ft_history.specs.Internal.Accounts.{tables_of, IsAccount, CountsTaking, CountsCall, CountsDict, size_at};

use crate::sizes::{Size, length_of_deque, length_of_list, size_of_dict, size_of_set};
use ft_model::{
    CLASS_COUNT, Call, DequeCall, DictCall, KeptTable, LEAST_CLASS, ListCall, ScriptParts, SetCall,
    TableChange, World, table_of_copy, taken_by_copy, taken_by_dict, taken_by_list, taken_by_set,
};
use std::alloc::{AllocError, Global};

/// The tables that containers have, and how many of each class were taken.
#[derive(Drop)]
pub struct TableAccount {
    /// The table of each container.
    pub tables: Vec<KeptTable>,
    /// How many tables were taken of each class, from the least class on.
    pub takings: Vec<u64>,
}

/// The account at the start of a script.
pub fn start_account(alloc: Global, parts: &ScriptParts) -> Result<TableAccount, AllocError>
    requires { All (λ container. container.start.keys ≡ []) parts.now.containers }
    ensures { IfOk result (λ account. IsAccount parts.now [] account) }
{
    Ok(TableAccount {
        tables: no_tables(alloc, parts.containers.len())?,
        takings: vec![in alloc; 0; CLASS_COUNT]?,
    })
}

/// No container has a table.
fn no_tables(alloc: Global, count: usize) -> Result<Vec<KeptTable>, AllocError>
    ensures { IfOk result (λ all. tables_of all.items ≡ replicate count no_table) }
{
    let mut all = Vec::new(alloc);
    for _ in 0..count {
        all.push(none_kept())?;
    }
    Ok(all)
}

/// Goes on after a call, before which its container was of a size.
pub fn note_taking(account: &mut TableAccount, world: &World, call: &Call, before: Size)
    requires classes { vec_len account.old.takings ≡ class_count }
    requires few { All (λ taken. taken < 2 ^ 63) account.old.takings.items }
    ensures { (old : List Content) → before ≡ size_at old call.now → CountsCall old world.now call.now account.old account.new }
{
    match call {
        Call::Dict { container, call } => note_dict(account, world, *container, call, before),
        Call::List { container, call } => note_list(account, world, *container, call),
        Call::Set { container, call } => note_set(account, world, *container, call, before),
        Call::Deque { container, call } => note_deque(account, world, *container, call),
        Call::Next { .. }
        | Call::Begin { .. }
        | Call::End
        | Call::Quiesce
        | Call::Await { .. }
        | Call::Dump => {}
    }
}

fn note_dict(account: &mut TableAccount, world: &World, place: u32, call: &DictCall, before: Size)
    requires classes { vec_len account.old.takings ≡ class_count }
    requires few { All (λ taken. taken < 2 ^ 63) account.old.takings.items }
    ensures { (old : List Content) → before ≡ size_at old (call_of.Dict place call.now) → CountsDict old world.now place call.now account.old account.new }
{
    match call.table_change() {
        TableChange::Stays => {}
        TableChange::Grows => {
            let after = size_of_dict(world, place);
            let added = after.next.saturating_sub(before.next);
            let table = table_at(&account.tables, place);
            let taking = taken_by_dict(table, added, after.count);
            grow(account, place, taking, added, after.count);
        }
        TableChange::CopiesTo(other) => {
            put(&mut account.tables, other, table_of_copy(before.count));
            count_taking(&mut account.takings, taken_by_copy(before.count));
        }
        TableChange::GivesUp => {
            put(&mut account.tables, place, none_kept());
        }
    }
}

fn note_list(account: &mut TableAccount, world: &World, place: u32, call: &ListCall)
    requires classes { vec_len account.old.takings ≡ class_count }
    requires few { All (λ taken. taken < 2 ^ 63) account.old.takings.items }
    ensures { (old : List Content) → CountsCall old world.now (call_of.List place call.now) account.old account.new }
{
    match call.table_change() {
        TableChange::Stays | TableChange::CopiesTo(_) => {}
        TableChange::Grows => {
            let table = table_at(&account.tables, place);
            let taking = taken_by_list(table, length_of_list(world, place));
            grow(account, place, taking, 0, 0);
        }
        TableChange::GivesUp => {
            put(&mut account.tables, place, none_kept());
        }
    }
}

fn note_deque(account: &mut TableAccount, world: &World, place: u32, call: &DequeCall)
    requires classes { vec_len account.old.takings ≡ class_count }
    requires few { All (λ taken. taken < 2 ^ 63) account.old.takings.items }
    ensures { (old : List Content) → CountsCall old world.now (call_of.Deque place call.now) account.old account.new }
{
    match call.table_change() {
        TableChange::Stays | TableChange::CopiesTo(_) => {}
        TableChange::Grows => {
            let table = table_at(&account.tables, place);
            let taking = taken_by_list(table, length_of_deque(world, place));
            grow(account, place, taking, 0, 0);
        }
        TableChange::GivesUp => {
            put(&mut account.tables, place, none_kept());
        }
    }
}

fn note_set(account: &mut TableAccount, world: &World, place: u32, call: &SetCall, before: Size)
    requires classes { vec_len account.old.takings ≡ class_count }
    requires few { All (λ taken. taken < 2 ^ 63) account.old.takings.items }
    ensures { (old : List Content) → before ≡ size_at old (call_of.Set place call.now) → CountsCall old world.now (call_of.Set place call.now) account.old account.new }
{
    match call.table_change() {
        TableChange::Stays | TableChange::CopiesTo(_) => {}
        TableChange::Grows => {
            let after = size_of_set(world, place);
            let added = after.next.saturating_sub(before.next);
            let table = table_at(&account.tables, place);
            let taking = taken_by_set(table, added, after.count);
            grow(account, place, taking, added, after.count);
        }
        TableChange::GivesUp => {
            put(&mut account.tables, place, none_kept());
        }
    }
}

/// A container takes a table of this class for all that it then has, if it takes one, and else has
/// that many entries more in use.
fn grow(account: &mut TableAccount, place: u32, taking: Option<u32>, added: u64, count: u64)
    requires taking { IfSome taking (λ class. IsClass class) }
    requires classes { vec_len account.old.takings ≡ class_count }
    requires few { All (λ taken. taken < 2 ^ 63) account.old.takings.items }
    requires fits { IfNone taking ((slice_index_or (tables_of account.old.tables.items) place no_table).fill + added < 2 ^ 64) }
    ensures tables { tables_of account.new.tables.items ≡ slice_set (tables_of account.old.tables.items) place (grown_table (slice_index_or (tables_of account.old.tables.items) place no_table) taking added count) }
    ensures takings { CountsTaking taking account.old.takings.items account.new.takings.items }
{
    let table = table_at(&account.tables, place);
    put(
        &mut account.tables,
        place,
        grown(table, taking, added, count),
    );
    count_taking(&mut account.takings, taking);
}

/// What is kept of a container without a table.
fn none_kept() -> KeptTable
    ensures { table_of result ≡ no_table }
{
    KeptTable {
        class: None,
        fill: 0,
    }
}

/// The table that is taken for that many, or the old one with that many entries more in use.
fn grown(table: KeptTable, taking: Option<u32>, added: u64, count: u64) -> KeptTable
    requires taking { IfSome taking (λ class. IsClass class) }
    requires fits { IfNone taking (table.fill + added < 2 ^ 64) }
    ensures { table_of result ≡ grown_table (table_of table) taking added count }
{
    match taking {
        Some(class) => KeptTable {
            class: Some(class),
            fill: count,
        },
        None => KeptTable {
            class: table.class,
            fill: table.fill + added,
        },
    }
}

/// The table of the container at a place.
fn table_at(tables: &[KeptTable], place: u32) -> KeptTable
    ensures { table_of result ≡ slice_index_or (tables_of tables.now) place no_table }
{
    match tables.get(place as usize) {
        Some(table) => *table,
        None => none_kept(),
    }
}

/// The container at a place has this table from now on.
fn put(tables: &mut Vec<KeptTable>, place: u32, table: KeptTable)
    ensures { tables_of tables.new.items ≡ slice_set (tables_of tables.old.items) place (table_of table) }
{
    let place = place as usize;
    if place < tables.len() {
        tables[place] = table;
    }
}

/// Counts a table that is taken, if one is.
fn count_taking(takings: &mut Vec<u64>, taking: Option<u32>)
    requires taking { IfSome taking (λ class. IsClass class) }
    requires classes { vec_len takings.old ≡ class_count }
    requires few { All (λ taken. taken < 2 ^ 63) takings.old.items }
    ensures { CountsTaking taking takings.old.items takings.new.items }
{
    if let Some(class) = taking {
        takings[(class - LEAST_CLASS) as usize] += 1;
    }
}
