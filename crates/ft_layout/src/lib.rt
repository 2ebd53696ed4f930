//! The words of 64 bits in which containers lie, where each word is, and what it is for words to stand
//! for a dict, a set or a list.
//!
//! A bank is one list of words, and its parts lie one after the other:
//!
//! ```text
//! word 0       the counter: how many writes there were
//!      1       the write number
//!      2 .. 65    the announced number of each pass
//!     66 .. 79    how many tables of each class are free
//!     80 .. 303   which of them are free: sixteen words for each class, a bit for each table
//!    304 ..       a block of eight words for each container
//!     then        the heap of each pass: a bit for each place, then a box of four words for each
//!     then        the tables, class by class
//! ```
//!
//! The block of a container names its table by the root. A table of class c has 2^c index words and
//! the entries of a dict or a set, or instead of both 2^c items of a list:
//!
//! ```text
//! block   lock | version | root | used | fill | next serial | 0 | 0
//! table   0 | goal | index words .. | entries ..      or      0 | goal | items ..
//! entry   version | hash | key kind | key | value kind | value | serial | 0
//! item    version | value kind | value | 0
//! box     shared count | value kind | value | local count
//! ```
//!
//! An index word is 0 where its slot was never used, or the place of an entry plus 1.
#![tactic(auto)]

mod entry;
mod follow;
mod item;
mod items;
mod key;
mod laws;
pub mod limit;
mod lock;
mod numbers;
mod puts;
mod root;
mod size;
mod slot;
mod start;
mod stored;
mod take;
mod word;

pub use entry::{entry_of, entry_words};
pub use follow::{
    used_entries_follow_a_dict, used_entries_follow_a_set, words_follow_a_dict, words_follow_a_set,
};
pub use ft_model::{dict_entries, list_items, set_entries};
pub use item::{item_of, item_words};
pub use items::{changed_words_are_of_a_list, items_are_moved_one_by_one, words_follow_a_list};
pub use key::{gone_kind_of, key_of, kind_of, payload_of};
pub use laws::{
    bank_words_are_of_one_part, changed_words_are_of_a_table, dict_words_are_of_one_dict,
    list_words_are_of_one_list, set_words_are_of_one_set, sizes_are_by_class,
    table_words_are_of_one_field, words_are_of_one_content,
};
pub use lock::{lock_of, lock_word};
pub use numbers::words_have_their_numbers;
pub use puts::{puts_change_one_entry, puts_change_one_item, versions_change_nothing};
pub use root::{root_of, root_word};
pub use size::{entry_at, index_at, item_at, table_size};
pub use slot::{Pair, Ref, Slot, Stored};
pub use start::{
    COUNTER, WRITE_NUMBER, announced_word, bank_size, block_start, box_start, free_count_word,
    free_place_word, free_word, heap_start, table_start,
};
pub use stored::{stored_kind_of, stored_payload_of, value_of};
pub use take::{Take, read_entry, read_item};
pub use word::{block_word, entry_word, item_word, table_word};
