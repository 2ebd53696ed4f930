//! Growth: which class of tables a container takes, and when. The answers are those that the rules
//! of tables give for counts alone, so that whoever judges a history and whoever stores containers
//! in tables go by the same rule.
ghost use Rattle.std.specs.Prelude.{◌≡◌, ◌≤◌, ◌^◌, Some, None, IfSome, if◌then◌else◌};
ghost use Rattle.ft_model.specs.Classes.{least_class, greatest_class, class_count, IsClass, dict_entries, set_entries, list_items, most_pairs, most_elements, most_items, class_for, dict_class, set_class, list_class};
ghost use Rattle.ft_model.specs.TableUses.{table_of, no_table, outgrows_dict, outgrows_set, list_takes, copy_takes, copy_leaves};

use crate::table::KeptTable;

/// The least class of tables.
pub const LEAST_CLASS: u32 = 3;

/// The greatest class of tables.
pub const GREATEST_CLASS: u32 = 16;

/// How many classes of tables there are.
pub const CLASS_COUNT: usize = 14;

/// How many pairs a dict has at most.
pub const MOST_PAIRS: usize = 43_690;

/// How many elements a set has at most.
pub const MOST_ELEMENTS: usize = 39_321;

/// How many items a list has at most.
pub const MOST_ITEMS: usize = 65_536;

/// The classes, and how much the largest table holds.
pub fn classes_are_bounded()
    ensures least { LEAST_CLASS ≡ least_class }
    ensures greatest { GREATEST_CLASS ≡ greatest_class }
    ensures count { CLASS_COUNT ≡ class_count }
    ensures pairs { MOST_PAIRS ≡ most_pairs }
    ensures elements { MOST_ELEMENTS ≡ most_elements }
    ensures items { MOST_ITEMS ≡ most_items }
{}

/// How many slots a table of a class has.
fn slots(class: u32) -> u64
    requires { IsClass class }
    ensures is { result ≡ 2 ^ class }
    ensures most { result ≤ 65536 }
{
    1 << class
}

/// How many entries a dict has in a table of a class.
pub fn dict_entries(class: u32) -> u64
    requires { IsClass class }
    ensures { result ≡ dict_entries class }
{
    2 * slots(class) / 3
}

/// How many entries a set has in a table of a class.
pub fn set_entries(class: u32) -> u64
    requires { IsClass class }
    ensures { result ≡ set_entries class }
{
    3 * slots(class) / 5
}

/// How many items a list has in a table of a class.
pub fn list_items(class: u32) -> u64
    requires { IsClass class }
    ensures { result ≡ list_items class }
{
    slots(class)
}

/// The smallest class of at least that many slots, and the greatest where that would be greater.
pub fn class_for(slots: u64) -> u32
    ensures class { result ≡ class_for slots }
    ensures range { IsClass result }
{
    match slots {
        0..=8 => 3,
        9..=16 => 4,
        17..=32 => 5,
        33..=64 => 6,
        65..=128 => 7,
        129..=256 => 8,
        257..=512 => 9,
        513..=1024 => 10,
        1025..=2048 => 11,
        2049..=4096 => 12,
        4097..=8192 => 13,
        8193..=16_384 => 14,
        16_385..=32_768 => 15,
        _ => 16,
    }
}

/// The class of a new table for that many pairs.
#[tactic(auto, using(crate::proofs::ClassLemmas::class_for_much))]
pub fn dict_class(count: u64) -> u32
    ensures class { result ≡ dict_class count }
    ensures range { IsClass result }
{
    class_for(count.saturating_sub(1).saturating_mul(3))
}

/// The class of a new table for that many elements.
#[tactic(auto, using(crate::proofs::ClassLemmas::class_for_much))]
pub fn set_class(count: u64) -> u32
    ensures class { result ≡ set_class count }
    ensures range { IsClass result }
{
    class_for(count.saturating_sub(1).saturating_mul(4).saturating_add(1))
}

/// The class of a new table for that many items.
pub fn list_class(count: u64) -> u32
    ensures class { result ≡ list_class count }
    ensures range { IsClass result }
{
    class_for(count)
}

/// The class that a dict takes that has that many new pairs, and that many in all.
pub fn taken_by_dict(table: KeptTable, added: u64, count: u64) -> Option<u32>
    ensures class { result ≡ (if outgrows_dict (table_of table) added then Some (dict_class count) else None) }
    ensures range { IfSome result (λ class. IsClass class) }
{
    let grows = added > 0
        && match table.class {
            Some(class) => added > dict_entries(class).saturating_sub(table.fill),
            None => true,
        };
    if grows { Some(dict_class(count)) } else { None }
}

/// The class that a set takes that has that many new elements, and that many in all.
pub fn taken_by_set(table: KeptTable, added: u64, count: u64) -> Option<u32>
    ensures class { result ≡ (if outgrows_set (table_of table) added then Some (set_class count) else None) }
    ensures range { IfSome result (λ class. IsClass class) }
{
    let grows = added > 0
        && match table.class {
            Some(class) => added > set_entries(class).saturating_sub(table.fill),
            None => true,
        };
    if grows { Some(set_class(count)) } else { None }
}

/// The class that a list takes that has that many items.
pub fn taken_by_list(table: KeptTable, count: u64) -> Option<u32>
    ensures class { result ≡ list_takes (table_of table) count }
    ensures range { IfSome result (λ class. IsClass class) }
{
    let grows = count > 0
        && match table.class {
            Some(class) => count > list_items(class),
            None => true,
        };
    if grows { Some(list_class(count)) } else { None }
}

/// The class that a dict takes that gets a copy of that many pairs.
pub fn taken_by_copy(count: u64) -> Option<u32>
    ensures class { result ≡ copy_takes count }
    ensures range { IfSome result (λ class. IsClass class) }
{
    if count > 0 {
        Some(dict_class(count))
    } else {
        None
    }
}

/// The table of a dict that got a copy of that many pairs, which is none for no pairs.
pub fn table_of_copy(count: u64) -> KeptTable
    ensures { table_of result ≡ copy_leaves count }
{
    match taken_by_copy(count) {
        Some(class) => KeptTable {
            class: Some(class),
            fill: count,
        },
        None => KeptTable {
            class: None,
            fill: 0,
        },
    }
}
