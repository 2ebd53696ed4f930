//! The keys and items of dicts as sets (Python manual, Dictionary view objects).
ghost use Rattle.std.specs.Prelude.{◌≡◌, IfOk};
ghost use Rattle.ft_model.specs.Views.{keys_in};

use crate::content::DictPair;
use crate::data::{Key, Value};
use crate::dict::{Dict, holds};
use std::alloc::{AllocError, Global};

impl Dict {
    ghost use Rattle.ft_model.specs.Views.{keys_and, keys_sub, keys_or, keys_xor, has_item};

    /// `d.keys() & e.keys()`: the keys that both have, in this dict's order. An `Err` says that
    /// memory ran out.
    pub fn keys_and(&self, alloc: Global, other: &Dict) -> Result<Vec<Key>, AllocError>
        ensures { IfOk result (λ keys. keys.items ≡ keys_and self.now.pairs other.now.pairs) }
    {
        self.pairs()
            .filter(|pair| other.has(pair.key))
            .map(|pair| pair.key)
            .collect(alloc)
    }

    /// `d.keys() - e.keys()`: the keys that the other hasn't, in this dict's order. An `Err` says
    /// that memory ran out.
    pub fn keys_sub(&self, alloc: Global, other: &Dict) -> Result<Vec<Key>, AllocError>
        ensures { IfOk result (λ keys. keys.items ≡ keys_sub self.now.pairs other.now.pairs) }
    {
        self.pairs()
            .filter(|pair| !other.has(pair.key))
            .map(|pair| pair.key)
            .collect(alloc)
    }

    /// `d.keys() | e.keys()`: this dict's keys, then those that the other has and this hasn't, in
    /// the other's order. An `Err` says that memory ran out.
    pub fn keys_or(&self, alloc: Global, other: &Dict) -> Result<Vec<Key>, AllocError>
        ensures { IfOk result (λ keys. keys.items ≡ keys_or self.now.pairs other.now.pairs) }
    {
        let mut keys = keys_in(alloc, self)?;
        let others = other.keys_sub(alloc, self)?;
        keys.extend_from_slice(&others)?;
        Ok(keys)
    }

    /// `d.keys() ^ e.keys()`: the keys that the other hasn't, then those of the other that this
    /// hasn't. An `Err` says that memory ran out.
    pub fn keys_xor(&self, alloc: Global, other: &Dict) -> Result<Vec<Key>, AllocError>
        ensures { IfOk result (λ keys. keys.items ≡ keys_xor self.now.pairs other.now.pairs) }
    {
        let mut keys = self.keys_sub(alloc, other)?;
        let others = other.keys_sub(alloc, self)?;
        keys.extend_from_slice(&others)?;
        Ok(keys)
    }

    /// `(k, v) in d.items()`: whether the key is there with an equal value.
    pub fn has_item(&self, key: Key, value: Value) -> bool
        ensures { result ≡ has_item self.now.pairs key value }
    {
        let wanted = DictPair {
            serial: 0,
            key,
            value,
        };
        holds(self, &wanted)
    }
}

/// The keys of the dict's pairs, in order.
fn keys_in(alloc: Global, dict: &Dict) -> Result<Vec<Key>, AllocError>
    ensures { IfOk result (λ keys. keys.items ≡ keys_in dict.now.pairs) }
{
    dict.pairs().map(|pair| pair.key).collect(alloc)
}
