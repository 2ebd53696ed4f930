//! Where in a bank each of its parts begins, for the bank that makes the list of words and for all who
//! read or write it. The parts lie one after the other, without a gap.

ghost use Rattle.std.specs.Prelude.{◌≡◌, ◌+◌, ◌/◌, ◌^◌, ◌<◌, ◌≤◌};
ghost use Rattle.ft_layout.specs.Sizes.{table_size};
ghost use Rattle.ft_model.specs.Classes.{IsClass};
ghost use Rattle.ft_layout.specs.Words.{IsHolder};
ghost use Rattle.ft_layout.specs.Starts.{IsHeap, AreTables, tables_of_class, announced_word, free_count_word, free_word, block_start, heap_start, free_place_word, box_start, table_start, bank_size};

use crate::limit::{CONTAINERS, PASSES};
use crate::size::table_size;
use ft_model::{GREATEST_CLASS, LEAST_CLASS};

/// The word that counts the writes.
pub const COUNTER: u64 = 0;
/// The word of the write number, which tables that were given up wait for.
pub const WRITE_NUMBER: u64 = 1;

/// Where the announced numbers of passes begin.
const ANNOUNCED: u64 = 2;
/// Where the counts of the free tables begin.
const FREE_COUNTS: u64 = 66;
/// Where the words of the free tables begin.
const FREE: u64 = 80;
/// How many words say which tables of a class are free.
const FREE_WORDS: u64 = 16;
/// Where the containers' blocks begin.
const BLOCKS: u64 = 304;
/// How many words a block has.
const BLOCK: u64 = 8;
/// How many words a box has: the shared count, the kind and the payload of its value, the local count.
const BOX: u64 = 4;
/// How many places one word of bits tells of.
const BITS: u64 = 64;

/// The word with the announced number of a pass.
pub fn announced_word(pass: u32) -> u64
    requires { IsHolder pass }
    ensures { result ≡ announced_word pass }
{
    ANNOUNCED + u64::from(pass)
}

/// The word that says how many tables of a class are free.
pub fn free_count_word(class: u32) -> u64
    requires { IsClass class }
    ensures { result ≡ free_count_word class }
{
    FREE_COUNTS + u64::from(class - LEAST_CLASS)
}

/// A word that says which tables of a class are free: bit b of word w is 1 where table 64w + b is.
pub fn free_word(class: u32, word: u32) -> u64
    requires class { IsClass class }
    requires word { word < 16 }
    ensures { result ≡ free_word class word }
{
    FREE + FREE_WORDS * u64::from(class - LEAST_CLASS) + u64::from(word)
}

/// Where the block of a container begins; for the number of containers, where the blocks end.
pub fn block_start(container: u32) -> u64
    requires { container ≤ CONTAINERS }
    ensures { result ≡ block_start container }
{
    BLOCKS + BLOCK * u64::from(container)
}

/// Where the heap of a pass begins, with its words of bits; for the number of passes, where the heaps
/// end.
pub fn heap_start(containers: u32, heap: u32, pass: u32) -> u64
    requires containers { containers ≤ CONTAINERS }
    requires heap { IsHeap heap }
    requires pass { pass ≤ PASSES }
    ensures is { result ≡ heap_start containers heap pass }
    ensures most { result < 1060000 }
{
    let heap = u64::from(heap);
    block_start(containers) + u64::from(pass) * (heap / BITS + BOX * heap)
}

/// A word that says which places of a pass's heap are free: bit b of word w is 1 where place 64w + b is.
pub fn free_place_word(containers: u32, heap: u32, pass: u32, word: u32) -> u64
    requires containers { containers ≤ CONTAINERS }
    requires heap { IsHeap heap }
    requires pass { IsHolder pass }
    requires word { word < heap / 64 }
    ensures { result ≡ free_place_word containers heap pass word }
{
    heap_start(containers, heap, pass) + u64::from(word)
}

/// Where a box of a pass begins.
pub fn box_start(containers: u32, heap: u32, pass: u32, place: u32) -> u64
    requires containers { containers ≤ CONTAINERS }
    requires heap { IsHeap heap }
    requires pass { IsHolder pass }
    requires place { place < heap }
    ensures { result ≡ box_start containers heap pass place }
{
    heap_start(containers, heap, pass) + u64::from(heap) / BITS + BOX * u64::from(place)
}

/// Where a table begins. `tables` has how many there are of each class, class 3 first; they lie class
/// by class, and in each class by number.
pub fn table_start(
    containers: u32,
    heap: u32,
    passes: u32,
    tables: &[u32],
    class: u32,
    number: u32,
) -> u64
    requires containers { containers ≤ CONTAINERS }
    requires heap { IsHeap heap }
    requires passes { passes ≤ PASSES }
    requires tables { AreTables tables.now }
    requires class { IsClass class }
    requires number { number < tables_of_class tables.now class }
    ensures is { result ≡ table_start containers heap passes tables.now class number }
    ensures within { result + table_size class < 2 ^ 33 }
{
    let mut start = heap_start(containers, heap, passes);
    for below in LEAST_CLASS..class {
        start += u64::from(tables[(below - LEAST_CLASS) as usize]) * table_size(below);
    }
    start + u64::from(number) * table_size(class)
}

/// How many words a bank has: all up to the end of the last table of the greatest class.
pub fn bank_size(containers: u32, heap: u32, passes: u32, tables: &[u32]) -> u64
    requires containers { containers ≤ CONTAINERS }
    requires heap { IsHeap heap }
    requires passes { passes ≤ PASSES }
    requires tables { AreTables tables.now }
    ensures is { result ≡ bank_size
        (record { containers = containers; heap = heap; passes = passes; tables = tables.now }) }
    ensures most { result < 2 ^ 33 }
{
    let last = tables[(GREATEST_CLASS - LEAST_CLASS) as usize] - 1;
    let start = table_start(containers, heap, passes, tables, GREATEST_CLASS, last);
    start + table_size(GREATEST_CLASS)
}
