//! The giving back of retired tables, a word of their bits after the other.
ghost use Rattle.std.specs.Prelude.{◌≡◌, ◌↔◌, ◌+◌, ◌*◌, ◌<◌, ◌≤◌, true, IsTrue};
ghost use Rattle.ft_trace.specs.Acts.{flight, has_goal};
ghost use Rattle.ft_bank.specs.Passes.{shape_of, view, IsPassOf};
ghost use Rattle.ft_bank.specs.TableNames.{table_id, IsTableIn};
ghost use Rattle.ft_qsbr.specs.Collecting.{IsPast};
ghost use Rattle.ft_qsbr.specs.Sweeping.{bit_index, Gave, HasSeen, Swept};

use ft_bank::{Bank, Pass, Table};
use ft_model::LEAST_CLASS;

/// How many words of bits a class has.
const WORDS: u32 = 16;
/// How many bits a word has.
const BITS: u32 = 64;

/// Gives back a table that the pass keeps retired, where its goal is at most the least number that a pass
/// announces which is online; answers how many it gave back.
fn give_past(bank: &Bank, pass: &mut Pass, table: Table, least: Option<u64>) -> u64
    requires pass { IsPassOf bank.now pass.old }
    requires table { IsTableIn (shape_of bank.now) table }
    requires kept { has_goal (table_id table) (view pass.old).log ≡ true }
    requires seen { HasSeen least (view pass.old) }
    requires idle { flight (view pass.old).log ≡ 0 }
    ensures pass { IsPassOf bank.now pass.new }
    ensures few { result ≤ 1 }
    ensures gave { Gave result pass.old pass.new }
    ensures swept { Swept least (bit_index (table_id table)) (bit_index (table_id table) + 1)
        (view pass.old) (view pass.new) }
{
    let goal = bank.goal(pass, table);
    if !is_past(least, goal) {
        return 0;
    }
    bank.give_retired(pass, table);
    1
}

/// Whether a goal is at most the least number that a pass announces which is online.
fn is_past(least: Option<u64>, goal: u64) -> bool
    ensures { IsTrue result ↔ IsPast least goal }
{
    match least {
        Some(number) => goal <= number,
        None => true,
    }
}

/// Gives back the table whose bit this is, where the pass keeps it retired and its goal is reached.
fn sweep_bit(bank: &Bank, pass: &mut Pass, word: u32, bit: u32, least: Option<u64>) -> u64
    requires pass { IsPassOf bank.now pass.old }
    requires word { word < 224 }
    requires bit { bit < 64 }
    requires seen { HasSeen least (view pass.old) }
    requires idle { flight (view pass.old).log ≡ 0 }
    ensures pass { IsPassOf bank.now pass.new }
    ensures few { result ≤ 1 }
    ensures gave { Gave result pass.old pass.new }
    ensures swept { Swept least (64 * word + bit) (64 * word + bit + 1) (view pass.old) (view pass.new) }
{
    if (pass.retired(word) >> bit) % 2 == 0 {
        return 0;
    }
    let table = Table {
        class: LEAST_CLASS + word / WORDS,
        number: BITS * (word % WORDS) + bit,
    };
    give_past(bank, pass, table, least)
}

/// Gives back those of the retired tables whose bits are in one word and whose goal is reached; answers how
/// many.
pub(crate) fn sweep_word(bank: &Bank, pass: &mut Pass, word: u32, least: Option<u64>) -> u64
    requires pass { IsPassOf bank.now pass.old }
    requires word { word < 224 }
    requires seen { HasSeen least (view pass.old) }
    requires idle { flight (view pass.old).log ≡ 0 }
    ensures pass { IsPassOf bank.now pass.new }
    ensures few { result ≤ 64 }
    ensures gave { Gave result pass.old pass.new }
    ensures swept { Swept least (64 * word) (64 * word + 64) (view pass.old) (view pass.new) }
{
    if pass.retired(word) == 0 {
        return 0;
    }
    let mut freed = 0;
    for bit in 0..BITS {
        freed += sweep_bit(bank, pass, word, bit, least);
    }
    freed
}
