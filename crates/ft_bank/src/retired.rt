//! The bits of the tables that a pass keeps retired, for the steps that retire a table and give it back:
//! a bit for each, in words like the bank's free words.
ghost use Rattle.std.specs.Prelude.{◌≡◌, ◌<◌, ℕ, length, bit_or, slice_index, slice_set};
ghost use Rattle.ft_model.specs.Classes.{IsClass};
ghost use Rattle.ft_trace.specs.Addresses.{free_word_of, free_bit_of};
ghost use Rattle.ft_trace.specs.Bits.{bit_on, bit_off};
ghost use Rattle.ft_bank.specs.TableNames.{table_id};

use crate::table::Table;
use ft_model::LEAST_CLASS;

/// How many words of bits there are: one for each of the bank's free words.
pub(crate) const RETIRED: usize = 224;
/// How many words there are for the tables of a class.
const WORDS: u32 = 16;
/// How many bits a word has.
const BITS: u32 = 64;

/// The word with the bit of a table.
fn word_of(table: Table) -> usize
    requires class { IsClass table.class }
    requires number { table.number < 1024 }
    ensures is { result ≡ free_word_of (table_id table) }
    ensures low { result < 224 }
{
    (WORDS * (table.class - LEAST_CLASS) + table.number / BITS) as usize
}

/// Sets the bit of a table.
pub(crate) fn set_bit(words: &mut [u64; RETIRED], table: Table)
    requires class { IsClass table.class }
    requires number { table.number < 1024 }
    ensures { words.new ≡ slice_set words.old (free_word_of (table_id table))
        (bit_on (free_bit_of (table_id table)) (slice_index words.old (free_word_of (table_id table)))) }
{
    words[word_of(table)] |= 1 << (table.number % BITS);
}

/// Clears the bit of a table.
pub(crate) fn clear_bit(words: &mut [u64; RETIRED], table: Table)
    requires class { IsClass table.class }
    requires number { table.number < 1024 }
    ensures { words.new ≡ slice_set words.old (free_word_of (table_id table))
        (bit_off (free_bit_of (table_id table)) (slice_index words.old (free_word_of (table_id table)))) }
{
    words[word_of(table)] &= !(1 << (table.number % BITS));
}

/// Sets each bit that is set in the others.
pub(crate) fn merge(words: &mut [u64; RETIRED], others: &[u64; RETIRED])
    ensures long { length words.new ≡ 224 }
    ensures merged { (n : ℕ) → n < 224 → slice_index words.new n ≡ bit_or (slice_index words.old n) (slice_index others.now n) }
{
    for place in 0..RETIRED {
        words[place] |= others[place];
    }
}
