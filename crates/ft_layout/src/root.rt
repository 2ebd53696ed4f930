//! Roots of containers as words, for whoever looks for a container's table: a root names one table by its
//! class and number, and 0 none.

ghost use Rattle.std.specs.Prelude.{◌≡◌, ◌↔◌, ℕ, ◌<◌, Some};
ghost use Rattle.ft_model.specs.Classes.{IsClass};
ghost use Rattle.ft_layout.specs.Words.{root_word, IsRootOf};

use crate::limit::TABLES;
use ft_model::{GREATEST_CLASS, LEAST_CLASS};

/// What a class counts for in a root, beside the number.
const CLASS_STEP: u64 = 65536;

/// The root of a container with this table.
pub fn root_word(class: u32, number: u32) -> u64
    requires class { IsClass class }
    requires number { number < 1024 }
    ensures { result ≡ root_word class number }
{
    u64::from(class) * CLASS_STEP + u64::from(number) + 1
}

/// Class and number of the table that a root names. `None` exactly where the word is 0, so names no
/// table, or is no root.
pub fn root_of(word: u64) -> Option<(u32, u32)>
    ensures says { (class number : ℕ) → IsRootOf word class number ↔ (result ≡ Some (class, number)) }
{
    let table = word.checked_sub(1)?;
    let class = u32::try_from(table / CLASS_STEP).ok()?;
    let number = (table % CLASS_STEP) as u32;
    ((LEAST_CLASS..=GREATEST_CLASS).contains(&class) && number < TABLES).then_some((class, number))
}
