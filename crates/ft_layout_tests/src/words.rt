//! The numbers of the format, worked by hand, for whoever changes it: sizes, starts, roots, locks, kinds
//! and payloads.

use ft_layout::{
    Pair, Ref, Slot, Stored, Take, announced_word, bank_size, bank_words_are_of_one_part,
    block_start, box_start, changed_words_are_of_a_list, changed_words_are_of_a_table,
    dict_words_are_of_one_dict, entry_at, entry_of, entry_words, free_count_word, free_place_word,
    free_word, gone_kind_of, heap_start, index_at, item_at, item_of, item_words,
    items_are_moved_one_by_one, kind_of, list_words_are_of_one_list, lock_of, lock_word,
    payload_of, puts_change_one_entry, puts_change_one_item, read_entry, read_item, root_of,
    root_word, set_words_are_of_one_set, sizes_are_by_class, stored_kind_of, stored_payload_of,
    table_size, table_start, table_words_are_of_one_field, used_entries_follow_a_dict,
    used_entries_follow_a_set, versions_change_nothing, words_are_of_one_content,
    words_follow_a_dict, words_follow_a_list, words_follow_a_set, words_have_their_numbers,
};
use ft_model::{Key, Sym, Value};
use std::process::Abort;
use std::test::Fail;

const MINUS_ONE: u64 = 18446744073709551615;

const LEAST: u64 = 9223372036854775808;

/// Whether each number is the one that stands at its place in the table, beside the call that gives it.
fn check_each(rt: &impl Abort, found: &[u64], wanted: &[(&str, u64)]) {
    assert_eq!(rt; found.len(), wanted.len());
    for (place, (call, want)) in wanted.iter().enumerate() {
        assert_eq!(rt; found.get(place).copied(), Some(*want), "{call}");
    }
}

/// The size of a table of each class, class 3 first.
const SIZES: [u64; 14] = [
    50, 98, 202, 402, 810, 1618, 3242, 6482, 12970, 25938, 51882, 103762, 207530, 415058,
];

#[test]
fn tables_have_their_words(rt: HostRuntime) -> Result<(), Fail> {
    for class in 3..17 {
        assert_eq!(rt;
            table_size(class),
            SIZES[(class - 3) as usize],
            "of class {class}"
        );
    }
    Ok(())
}

// A table of class 3 has 8 slots after its header, and then 5 entries; as a list's, 8 items.
const FIELDS: [(&str, u64); 7] = [
    ("index_at(0)", 2),
    ("index_at(7)", 9),
    ("entry_at(7, 0, 0)", 10),
    ("entry_at(7, 0, 7)", 17),
    ("entry_at(7, 4, 7)", 49),
    ("item_at(0, 0)", 2),
    ("item_at(7, 3)", 33),
];

#[test]
fn fields_lie_after_each_other(rt: HostRuntime) -> Result<(), Fail> {
    let found = [
        index_at(0),
        index_at(7),
        entry_at(7, 0, 0),
        entry_at(7, 0, 7),
        entry_at(7, 4, 7),
        item_at(0, 0),
        item_at(7, 3),
    ];
    check_each(&rt, &found, &FIELDS);
    Ok(())
}

// Two containers, and two passes with 64 places each: one word of bits and 256 of boxes.
const STARTS: [(&str, u64); 15] = [
    ("announced_word(0)", 2),
    ("announced_word(63)", 65),
    ("free_count_word(3)", 66),
    ("free_count_word(16)", 79),
    ("free_word(3, 0)", 80),
    ("free_word(16, 15)", 303),
    ("block_start(0)", 304),
    ("block_start(1)", 312),
    ("heap_start(2, 64, 0)", 320),
    ("box_start(2, 64, 0, 0)", 321),
    ("box_start(2, 64, 0, 63)", 573),
    ("heap_start(2, 64, 1)", 577),
    ("box_start(2, 64, 1, 0)", 578),
    ("free_place_word(2, 128, 0, 1)", 321),
    ("free_place_word(2, 128, 1, 0)", 834),
];

#[test]
fn parts_of_a_small_bank_begin_where_the_last_ended(rt: HostRuntime) -> Result<(), Fail> {
    let found = [
        announced_word(0),
        announced_word(63),
        free_count_word(3),
        free_count_word(16),
        free_word(3, 0),
        free_word(16, 15),
        block_start(0),
        block_start(1),
        heap_start(2, 64, 0),
        box_start(2, 64, 0, 0),
        box_start(2, 64, 0, 63),
        heap_start(2, 64, 1),
        box_start(2, 64, 1, 0),
        free_place_word(2, 128, 0, 1),
        free_place_word(2, 128, 1, 0),
    ];
    check_each(&rt, &found, &STARTS);
    Ok(())
}

// The tables of the same bank: two of class 3, and one of each greater class.
const TABLE_STARTS: [(&str, u64); 6] = [
    ("table_start(2, 64, 2, &tables, 3, 0)", 834),
    ("table_start(2, 64, 2, &tables, 3, 1)", 884),
    ("table_start(2, 64, 2, &tables, 4, 0)", 934),
    ("table_start(2, 64, 2, &tables, 5, 0)", 1032),
    ("table_start(2, 64, 2, &tables, 16, 0)", 415870),
    ("bank_size(2, 64, 2, &tables)", 830928),
];

#[test]
fn tables_of_a_small_bank_begin_where_the_last_ended(rt: HostRuntime) -> Result<(), Fail> {
    let tables = [2, 1, 1, 1, 1, 1, 1, 1, 1, 1, 1, 1, 1, 1];
    let found = [
        table_start(2, 64, 2, &tables, 3, 0),
        table_start(2, 64, 2, &tables, 3, 1),
        table_start(2, 64, 2, &tables, 4, 0),
        table_start(2, 64, 2, &tables, 5, 0),
        table_start(2, 64, 2, &tables, 16, 0),
        bank_size(2, 64, 2, &tables),
    ];
    check_each(&rt, &found, &TABLE_STARTS);
    Ok(())
}

const ROOT_WORDS: [(&str, u64); 2] = [
    ("root_word(3, 0)", 196609),
    ("root_word(16, 1023)", 1049600),
];

/// A word, and the class and number of the table that it names as a root.
const ROOTS: [(u64, Option<(u32, u32)>); 9] = [
    (0, None),
    (1, None),
    (196608, None),
    (196609, Some((3, 0))),
    (197632, Some((3, 1023))),
    (197633, None),
    (1049600, Some((16, 1023))),
    (1114113, None),
    (MINUS_ONE, None),
];

#[test]
fn a_root_names_a_table_or_none(rt: HostRuntime) -> Result<(), Fail> {
    check_each(&rt, &[root_word(3, 0), root_word(16, 1023)], &ROOT_WORDS);
    for (word, table) in &ROOTS {
        assert_eq!(rt; root_of(*word), *table, "of {word}");
    }
    Ok(())
}

const LOCK_WORDS: [(&str, u64); 3] = [
    ("lock_word(None)", 0),
    ("lock_word(Some(0))", 1),
    ("lock_word(Some(63))", 64),
];

/// A word, and the pass that it names as a lock's holder.
const HOLDERS: [(u64, Option<u32>); 5] = [
    (0, None),
    (1, Some(0)),
    (64, Some(63)),
    (65, None),
    (MINUS_ONE, None),
];

#[test]
fn a_lock_names_its_holder_or_none(rt: HostRuntime) -> Result<(), Fail> {
    let found = [lock_word(None), lock_word(Some(0)), lock_word(Some(63))];
    check_each(&rt, &found, &LOCK_WORDS);
    for (word, holder) in &HOLDERS {
        assert_eq!(rt; lock_of(*word), *holder, "of {word}");
    }
    Ok(())
}

/// An entry that has the key 7.
const SEVEN: Option<Slot> = Some(Slot::Live(Pair {
    hash: 5,
    key: Key::Int(7),
    value: Stored::Plain(Value::Nothing),
    serial: 9,
}));

const BELOW_ZERO: Option<Slot> = Some(Slot::Live(Pair {
    hash: 5,
    key: Key::Int(-1),
    value: Stored::Plain(Value::Nothing),
    serial: 9,
}));

const TEXT: Option<Slot> = Some(Slot::Live(Pair {
    hash: 5,
    key: Key::Text(Sym(7)),
    value: Stored::Plain(Value::Nothing),
    serial: 9,
}));

/// Words, and the entry that they are.
const ENTRIES: [([u64; 8], Option<Slot>); 14] = [
    ([0, 0, 0, 0, 0, 0, 0, 0], Some(Slot::Never)),
    ([8, 5, 0, 0, 0, 0, 9, 1], Some(Slot::Never)),
    ([0, 5, 1, 7, 1, 0, 9, 0], SEVEN),
    ([2, 5, 1, MINUS_ONE, 1, 0, 9, 3], BELOW_ZERO),
    ([0, 5, 2, 7, 1, 0, 9, 0], TEXT),
    ([0, 5, 3, 7, 1, 0, 9, 0], Some(Slot::Gone(Key::Int(7), 9))),
    (
        [0, 5, 4, 7, 0, 0, 9, 0],
        Some(Slot::Gone(Key::Text(Sym(7)), 9)),
    ),
    ([0, 5, 0, 7, 0, 0, 9, 0], None),
    ([0, 5, 0, 0, 1, 0, 9, 0], None),
    ([0, 5, 2, 4294967296, 1, 0, 9, 0], None),
    ([0, 5, 4, 4294967296, 1, 0, 9, 0], None),
    ([0, 5, 5, 7, 1, 0, 9, 0], None),
    ([0, 5, 1, 7, 5, 0, 9, 0], None),
    ([0, 5, 3, 7, 1, 1, 9, 0], None),
];

#[test]
fn entries_are_read_by_the_kind_of_their_key(rt: HostRuntime) -> Result<(), Fail> {
    for (words, slot) in &ENTRIES {
        assert_eq!(rt; entry_of(words), *slot, "of {words:?}");
    }
    Ok(())
}

/// Words, and what the item stores that they are.
const ITEMS: [([u64; 4], Option<Stored>); 13] = [
    ([0, 0, 0, 0], Some(Stored::Empty)),
    ([6, 0, 0, 6], Some(Stored::Empty)),
    ([0, 1, 0, 0], Some(Stored::Plain(Value::Nothing))),
    ([0, 2, 7, 0], Some(Stored::Plain(Value::Int(7)))),
    ([0, 2, LEAST, 0], Some(Stored::Plain(Value::Int(i64::MIN)))),
    (
        [0, 3, 4294967295, 0],
        Some(Stored::Plain(Value::Text(Sym(4294967295)))),
    ),
    (
        [0, 4, 4132863, 0],
        Some(Stored::Boxed(Ref {
            pass: 63,
            place: 4095,
        })),
    ),
    ([0, 0, 1, 0], None),
    ([0, 1, 1, 0], None),
    ([0, 3, 4294967296, 0], None),
    ([0, 4, 4096, 0], None),
    ([0, 4, 4194304, 0], None),
    ([0, 5, 0, 0], None),
];

#[test]
fn items_are_read_by_the_kind_of_their_value(rt: HostRuntime) -> Result<(), Fail> {
    for (words, stored) in &ITEMS {
        assert_eq!(rt; item_of(words), *stored, "of {words:?}");
    }
    Ok(())
}

#[test]
fn words_are_written_as_they_are_read(rt: HostRuntime) -> Result<(), Fail> {
    let pair = Pair {
        hash: 5,
        key: Key::Int(-1),
        value: Stored::Plain(Value::Text(Sym(3))),
        serial: 9,
    };
    assert_eq!(rt; entry_words(&pair), [0, 5, 1, MINUS_ONE, 3, 3, 9, 0]);
    assert_eq!(rt; entry_of(&entry_words(&pair)), Some(Slot::Live(pair)));
    let boxed = Stored::Boxed(Ref { pass: 2, place: 5 });
    assert_eq!(rt; item_words(boxed), [0, 4, 131077, 0]);
    assert_eq!(rt; item_of(&item_words(boxed)), Some(boxed));
    assert_eq!(rt; item_words(Stored::Empty), [0, 0, 0, 0]);
    Ok(())
}

const KINDS_AND_PAYLOADS: [(&str, u64); 8] = [
    ("kind_of(Key::Int(-2))", 1),
    ("kind_of(Key::Text(Sym(0)))", 2),
    ("gone_kind_of(Key::Int(-2))", 3),
    ("gone_kind_of(Key::Text(Sym(0)))", 4),
    ("payload_of(Key::Int(i64::MIN))", LEAST),
    ("payload_of(Key::Text(Sym(6)))", 6),
    ("stored_kind_of(Stored::Plain(Value::Nothing))", 1),
    (
        "stored_payload_of(Stored::Plain(Value::Int(-1)))",
        MINUS_ONE,
    ),
];

#[test]
fn keys_and_values_have_kind_and_payload(rt: HostRuntime) -> Result<(), Fail> {
    let found = [
        kind_of(Key::Int(-2)),
        kind_of(Key::Text(Sym(0))),
        gone_kind_of(Key::Int(-2)),
        gone_kind_of(Key::Text(Sym(0))),
        payload_of(Key::Int(i64::MIN)),
        payload_of(Key::Text(Sym(6))),
        stored_kind_of(Stored::Plain(Value::Nothing)),
        stored_payload_of(Stored::Plain(Value::Int(-1))),
    ];
    check_each(&rt, &found, &KINDS_AND_PAYLOADS);
    Ok(())
}

#[test]
fn laws_take_nothing() {
    words_have_their_numbers();
    words_are_of_one_content();
    dict_words_are_of_one_dict();
    set_words_are_of_one_set();
    list_words_are_of_one_list();
    bank_words_are_of_one_part();
    table_words_are_of_one_field();
    sizes_are_by_class();
    changed_words_are_of_a_table();
    used_entries_follow_a_dict();
    used_entries_follow_a_set();
    words_follow_a_dict();
    words_follow_a_set();
    words_follow_a_list();
    changed_words_are_of_a_list();
    items_are_moved_one_by_one();
    puts_change_one_entry();
    puts_change_one_item();
    versions_change_nothing();
}

/// Words as a plain list, which nobody else writes.
#[derive(Drop)]
struct ListedWords<'a> {
    words: &'a [u64],
}

impl<'a> Take for ListedWords<'a> {
    ghost use Rattle.std.specs.Prelude.{◌≡◌, length, slice_index, ⊤};

    ghost can = { λ list. ⊤ };

    ghost size = { λ list. length list.words.now };

    ghost gave = { λ before at word after.
        (word ≡ slice_index before.words.now at) × (after.words.now ≡ before.words.now) };

    fn word(&mut self, at: u64) -> u64 {
        self.words[at as usize]
    }
}

// An entry with the key 7 and an item with 9 after it: their versions and last words are not taken.
#[test]
fn words_are_read_one_at_a_time(rt: HostRuntime) -> Result<(), Fail> {
    let words = [8, 5, 1, 7, 1, 0, 9, 8, 8, 2, 9, 8];
    let mut list = ListedWords { words: &words };
    assert_eq!(rt; read_entry(&mut list, 0), SEVEN);
    assert_eq!(rt; read_item(&mut list, 8), Some(Stored::Plain(Value::Int(9))));
    Ok(())
}
