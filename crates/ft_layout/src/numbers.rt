//! The numbers of words and the limits, as the definitions write them. Who writes or reads a word
//! names it by its constant, and this file keeps constants and definitions at the same numbers.

ghost use Rattle.std.specs.Prelude.{◌≡◌};

use crate::limit::{CONTAINERS, PASSES, PLACES, TABLES};
use crate::start::{COUNTER, WRITE_NUMBER};
use crate::word::block_word::{FILL, LOCK, NEXT, ROOT, USED, VERSION as BLOCK_VERSION};
use crate::word::entry_word::{
    HASH, KEY, KEY_KIND, SERIAL, VALUE as ENTRY_VALUE, VALUE_KIND as ENTRY_VALUE_KIND,
    VERSION as ENTRY_VERSION,
};
use crate::word::item_word::{
    VALUE as ITEM_VALUE, VALUE_KIND as ITEM_VALUE_KIND, VERSION as ITEM_VERSION,
};
use crate::word::table_word::GOAL;

/// Each word of a bank, a block, a table, an entry and an item has the number by which the definitions name it,
/// and each limit is theirs.
pub fn words_have_their_numbers()
    ensures bank { (COUNTER ≡ 0) × (WRITE_NUMBER ≡ 1) }
    ensures block { (LOCK ≡ 0) × (BLOCK_VERSION ≡ 1) × (ROOT ≡ 2) × (USED ≡ 3) × (FILL ≡ 4) × (NEXT ≡ 5) }
    ensures table { GOAL ≡ 1 }
    ensures entry { (ENTRY_VERSION ≡ 0) × (HASH ≡ 1) × (KEY_KIND ≡ 2) × (KEY ≡ 3)
        × (ENTRY_VALUE_KIND ≡ 4) × (ENTRY_VALUE ≡ 5) × (SERIAL ≡ 6) }
    ensures limits { (TABLES ≡ 1024) × (CONTAINERS ≡ 256) × (PASSES ≡ 64) × (PLACES ≡ 4096) }
    ensures item { (ITEM_VERSION ≡ 0) × (ITEM_VALUE_KIND ≡ 1) × (ITEM_VALUE ≡ 2) }
{}
