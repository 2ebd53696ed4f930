//! Dicts that are split: when they cease to be, and which class of tables they then take.
ghost use Rattle.std.specs.Prelude.{◌≡◌, IfSome, length};
ghost use Rattle.ft_model.specs.Classes.{IsClass};
ghost use Rattle.ft_model.specs.Contents.{DictContent};
ghost use Rattle.ft_model.specs.TableUses.{are_first, ends_split, leaving_takes, split_takes};
ghost use Rattle.ft_model.specs.Views.{keys_in};

use crate::call::DictCall;
use crate::class::{dict_class, taken_by_copy};
use crate::content::DictPair;
use crate::data::Key;
use crate::dict::Dict;
use std::collections::btree_map::Values;

/// What a dict had before a call, as far as tables go by it.
#[derive(Clone, Copy, Debug, PartialEq, Eq, Hash)]
pub struct DictSize {
    /// The serial that the next key would have drawn.
    pub next: u64,
    /// How many pairs there were.
    pub count: u64,
}

/// Whether a call ends it that a dict is split over these keys, where the dict had this size before
/// the call, and now is `new`.
pub fn ends_split(keys: &[Key], call: &DictCall, before: DictSize, new: &Dict) -> bool
    ensures { (old : DictContent) → old.next ≡ before.next → length old.pairs ≡ before.count → result ≡ ends_split keys.now call.now old new.now }
{
    match call {
        DictCall::Set { .. } | DictCall::SetDefault { .. } => !are_first(new.pairs(), keys),
        DictCall::Update { .. } => new.next_serial() != before.next,
        DictCall::Del { .. } | DictCall::Pop { .. } | DictCall::PopOr { .. } | DictCall::PopItem =>
            new.len() as u64 != before.count,
        DictCall::Clear => true,
        DictCall::Get { .. }
        | DictCall::GetOr { .. }
        | DictCall::Has { .. }
        | DictCall::Len
        | DictCall::Items
        | DictCall::CopyTo { .. }
        | DictCall::Eq { .. }
        | DictCall::Iter { .. }
        | DictCall::KeysAnd { .. }
        | DictCall::KeysSub { .. }
        | DictCall::KeysOr { .. }
        | DictCall::KeysXor { .. }
        | DictCall::ItemsHas { .. }
        | DictCall::Reversed { .. } => false,
    }
}

/// The class that a call of a dict takes that is split over these keys. A copy takes one for the
/// other dict.
pub fn taken_by_split(keys: &[Key], call: &DictCall, before: DictSize, new: &Dict) -> Option<u32>
    ensures class { (old : DictContent) → old.next ≡ before.next → length old.pairs ≡ before.count → result ≡ split_takes keys.now call.now old new.now }
    ensures range { IfSome result (λ class. IsClass class) }
{
    if let DictCall::CopyTo { .. } = call {
        return taken_by_copy(before.count);
    }
    if ends_split(keys, call, before, new) {
        taken_at_leaving(new)
    } else {
        None
    }
}

/// The class that a dict takes that ceases to be split: that of its pairs, where it has any.
fn taken_at_leaving(new: &Dict) -> Option<u32>
    ensures class { result ≡ leaving_takes new.now }
    ensures range { IfSome result (λ class. IsClass class) }
{
    if new.is_empty() {
        None
    } else {
        Some(dict_class(new.len() as u64))
    }
}

/// Whether the pairs' keys are the first of these, in their order. It ends after the last of them.
#[tactic(auto, using(crate::proofs::SplitDicts::none_first))]
fn are_first(mut pairs: Values<'_, u64, DictPair>, keys: &[Key]) -> bool
    ensures { result ≡ are_first (keys_in pairs.entry) keys.now }
{
    match (pairs.next(), keys) {
        (None, _) => true,
        (Some(pair), [key, keys @ ..]) => pair.key == *key && are_first(pairs, keys),
        (Some(_), []) => false,
    }
}
