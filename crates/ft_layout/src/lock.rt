//! Locks of containers as words, for whoever takes, holds or waits for one: a lock names its holder, and
//! 0 none.

ghost use Rattle.std.specs.Prelude.{◌≡◌, ◌↔◌, ℕ, Some};
ghost use Rattle.std.specs.Option.{ForSome};
ghost use Rattle.ft_layout.specs.Words.{IsHolder, lock_word, IsLockOf};

use crate::limit::PASSES;

/// The lock that this pass holds, or that none holds.
pub fn lock_word(holder: Option<u32>) -> u64
    requires { ForSome holder IsHolder }
    ensures { result ≡ lock_word holder }
{
    match holder {
        Some(pass) => u64::from(pass) + 1,
        None => 0,
    }
}

/// The pass that holds the lock. `None` exactly where the word is 0, so none holds it, or is no lock.
pub fn lock_of(word: u64) -> Option<u32>
    ensures says { (pass : ℕ) → IsLockOf word pass ↔ (result ≡ Some pass) }
{
    let pass = u32::try_from(word.checked_sub(1)?).ok()?;
    (pass < PASSES).then_some(pass)
}
