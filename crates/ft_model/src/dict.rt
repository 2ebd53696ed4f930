//! A dict of one thread. It keeps that keys are distinct and that serials rise, in insertion order,
//! below the next one.
ghost use Rattle.std.specs.Prelude.{◌≡◌, ◌≢◌, ◌↔◌, ℕ, ◌+◌, ◌-◌, ◌^◌, ◌<◌, ◌≤◌, ◌==◌, None, length, slice_get, IsTrue, IfSome, OnSome, IfNone, All, Any, IfOk, OnOk, OnErr, Some, position, false};
ghost use Rattle.std.specs.Option.{unwrap_or, option_or};
ghost use Rattle.std.specs.List.{list_all};
ghost use Rattle.ft_model.specs.Keys.{same_key};
ghost use Rattle.ft_model.specs.Contents.{IsDict, has_pair, same_pairs, pairs_from};

use crate::content::DictPair;
use crate::data::{Key, Value};
use crate::members::{Member, Members};
use std::alloc::{AllocError, Global};
use std::collections::btree_map::Values;
use std::marker::Model;

/// What a dict has: its pairs in insertion order and the next serial. A new value at a key keeps
/// the key's place, and a key that is added goes last (Python manual, Mapping Types). No serial is
/// drawn twice.
#[derive(Debug, Drop)]
pub struct Dict {
    next: u64,
    pairs: Members<DictPair>,
}

impl Model for Dict {
    ghost use Rattle.ft_model.specs.Contents.{DictContent, IsDict};

    ghost Value = { DictContent };

    ghost view = { λ d. record { next = d.next; pairs = d.pairs } };

    ghost invariant = { λ d. IsDict d.next d.pairs };
}

impl Member for DictPair {
    ghost key_of = { λ pair. pair.key };

    ghost serial_of = { λ pair. pair.serial };

    fn key(&self) -> Key {
        self.key
    }

    fn serial(&self) -> u64 {
        self.serial
    }
}

impl Dict {
    ghost use Rattle.ft_model.specs.declared.data.Key.{Key};
    ghost use Rattle.ft_model.specs.Contents.{empty_dict, dict_get, has_key, dict_set, dict_del, dict_clear};
    ghost use Rattle.ft_model.specs.Contents.{dict_update, dict_copy, KeepsPlaces, GoesLast};
    ghost use Rattle.ft_model.specs.Answers.{without_last, items_of};
    ghost use Rattle.ft_model.specs.Cursors.{next_pair, prior_pair};

    /// `{}`: an empty dict, which takes no memory.
    pub fn new(alloc: Global) -> Self
        ensures { result ≡ empty_dict }
    {
        Dict {
            next: 0,
            pairs: Members::new(alloc),
        }
    }

    /// The pairs in insertion order (Python manual, Mapping Types), so in the order of serials.
    pub fn pairs(&self) -> Values<'_, u64, DictPair>
        ensures pairs { result ≡ self.now.pairs }
        ensures is_dict { IsDict self.now.next self.now.pairs }
        ensures small { length self.now.pairs < 2 ^ 63 }
    {
        self.pairs.values()
    }

    /// The pair with the least serial after the last one; at first every serial is.
    pub(crate) fn next_pair(&self, last: Option<u64>) -> Option<DictPair>
        ensures { result ≡ next_pair self.now.pairs last }
    {
        self.pairs.first_after(last)
    }

    /// The pair with the greatest serial before the last one; at first every serial is.
    pub(crate) fn prior_pair(&self, last: Option<u64>) -> Option<DictPair>
        ensures { result ≡ prior_pair self.now.pairs last }
    {
        self.pairs.last_before(last)
    }

    /// `d[k]`, or `None` where the key isn't there (Python manual, Mapping Types).
    pub fn get(&self, key: Key) -> Option<Value>
        ensures answer { result ≡ dict_get self.now.pairs key }
        ensures found { IfSome result (λ value. Any (λ pair. (pair.key ≡ key) × (pair.value ≡ value)) self.now.pairs) }
        ensures missing { IfNone result (All (λ pair. pair.key ≢ key) self.now.pairs) }
    {
        match self.pairs.find(key) {
            Some(pair) => Some(pair.value),
            None => None,
        }
    }

    /// `d.get(k, v)`: the value at the key, or the default (Python manual, Mapping Types).
    pub fn get_or(&self, key: Key, default: Value) -> Value
        ensures { result ≡ unwrap_or (dict_get self.now.pairs key) default }
    {
        self.get(key).unwrap_or(default)
    }

    /// `k in d` (Python manual, Mapping Types).
    pub fn has(&self, key: Key) -> bool
        ensures { result ≡ has_key self.now.pairs key }
    {
        self.pairs.has(key)
    }

    /// `len(d)` (Python manual, Mapping Types).
    pub fn len(&self) -> usize
        ensures length { result ≡ length self.now.pairs }
        ensures small { result < 2 ^ 63 }
    {
        self.pairs.len()
    }

    /// The serial that the next key draws.
    pub fn next_serial(&self) -> u64
        ensures { result ≡ self.now.next }
    {
        self.next
    }

    /// Whether there is no pair.
    pub fn is_empty(&self) -> bool
        ensures { result ≡ (length self.now.pairs == 0) }
    {
        self.len() == 0
    }

    /// `d == e`: the same keys with equal values, in any order (Python manual, Mapping Types). It
    /// looks each pair of one up in the other.
    pub fn equals(&self, other: &Dict) -> bool
        ensures answer { result ≡ same_pairs self.now.pairs other.now.pairs }
        ensures reads { IsTrue result ↔ ((key : Key) → dict_get self.now.pairs key ≡ dict_get other.now.pairs key) }
    {
        has_pairs(other, self) & has_pairs(self, other)
    }

    /// A dict with the same pairs and the same next serial. An `Err` says that memory ran out.
    pub fn copy(&self, alloc: Global) -> Result<Self, AllocError>
        ensures { IfOk result (λ dict. dict ≡ self.now) }
    {
        Ok(Dict {
            next: self.next,
            pairs: self.pairs.copy(alloc)?,
        })
    }

    /// `d[k] = v` (Python manual, Mapping Types). An `Err` changes nothing.
    pub fn set(&mut self, key: Key, value: Value) -> Result<(), AllocError>
        requires { self.old.next < 2 ^ 63 }
        ensures ok { OnOk result (self.new ≡ dict_set self.old key value) }
        ensures err { OnErr result (self.new ≡ self.old) }

        // What it means for who reads the dict.
        ensures reads_back { OnOk result (dict_get self.new.pairs key ≡ Some value) }
        ensures others { OnOk result ((other : Key) → other ≢ key →
            dict_get self.new.pairs other ≡ dict_get self.old.pairs other) }
        ensures keeps_places { OnOk result (IsTrue (has_key self.old.pairs key) → KeepsPlaces self.old self.new) }
        ensures goes_last { OnOk result (has_key self.old.pairs key ≡ false → GoesLast self.old self.new key value) }
    {
        match self.pairs.find(key) {
            Some(pair) => self.pairs.put(DictPair { value, ..pair }),
            None => {
                self.pairs.push(DictPair {
                    serial: self.next,
                    key,
                    value,
                })?;
                self.next += 1;
            }
        }
        Ok(())
    }

    /// `del d[k]`, and whether the key was there: takes the key's pair out, and leaves the others as
    /// they were (Python manual, Mapping Types).
    #[tactic(auto, using(crate::proofs::Dicts::del_missing, crate::proofs::DictLaws::del_gone, crate::proofs::DictLaws::del_others))]
    pub fn del(&mut self, key: Key) -> bool
        ensures answer { result ≡ has_key self.old.pairs key }
        ensures dict { self.new ≡ dict_del self.old key }
        ensures missing { result ≡ false → self.new ≡ self.old }
        ensures gone { dict_get self.new.pairs key ≡ None }
        ensures others { (other : Key) → other ≢ key →
            dict_get self.new.pairs other ≡ dict_get self.old.pairs other }
    {
        let found = self.has(key);
        self.take_out(key);
        found
    }

    /// `d.pop(k)`, or `None` where the key isn't there: takes the key's pair out, and leaves the
    /// others as they were (Python manual, Mapping Types).
    #[tactic(auto, using(crate::proofs::Dicts::del_missing, crate::proofs::Dicts::has_key_none, crate::proofs::DictLaws::del_gone, crate::proofs::DictLaws::del_others))]
    pub fn pop(&mut self, key: Key) -> Option<Value>
        ensures answer { result ≡ dict_get self.old.pairs key }
        ensures dict { self.new ≡ dict_del self.old key }
        ensures missing { IfNone result (self.new ≡ self.old) }
        ensures gone { dict_get self.new.pairs key ≡ None }
        ensures others { (other : Key) → other ≢ key →
            dict_get self.new.pairs other ≡ dict_get self.old.pairs other }
    {
        let value = self.get(key);
        self.take_out(key);
        value
    }

    fn take_out(&mut self, key: Key)
        ensures { self.new ≡ dict_del self.old key }
    {
        self.pairs.take_out(key);
    }

    /// `d.popitem()`, or `None` where there is no pair: takes the last pair out (Python manual,
    /// Mapping Types).
    pub fn pop_last(&mut self) -> Option<DictPair>
        ensures answer { result ≡ slice_get self.old.pairs (length self.old.pairs - 1) }
        ensures dict { self.new ≡ without_last self.old }
        ensures missing { IfNone result (self.new ≡ self.old) }
    {
        self.pairs.pop_last()
    }

    /// `d.setdefault(k, v)`: the value at the key; where the key isn't there, the default is stored
    /// first (Python manual, Mapping Types). An `Err` changes nothing.
    pub fn set_default(&mut self, key: Key, default: Value) -> Result<Value, AllocError>
        requires { self.old.next < 2 ^ 63 }
        ensures answer { IfOk result (λ value. value ≡ unwrap_or (dict_get self.old.pairs key) default) }
        ensures found { OnOk result (OnSome (dict_get self.old.pairs key) (self.new ≡ self.old)) }
        ensures missing { OnOk result (IfNone (dict_get self.old.pairs key) (self.new ≡ dict_set self.old key default)) }
        ensures err { OnErr result (self.new ≡ self.old) }
    {
        match self.get(key) {
            Some(value) => Ok(value),
            None => {
                self.set(key, default)?;
                Ok(default)
            }
        }
    }

    /// `d.update(e)`: sets each pair of the other dict, in its order (Python manual, Mapping
    /// Types). An `Err` changes nothing.
    pub fn update(&mut self, alloc: Global, other: &Dict) -> Result<(), AllocError>
        requires { self.old.next + length other.now.pairs < 2 ^ 63 }
        ensures ok { OnOk result (self.new ≡ dict_update self.old other.now.pairs) }
        ensures err { OnErr result (self.new ≡ self.old) }
        ensures reads { OnOk result ((key : Key) → dict_get self.new.pairs key ≡
            option_or (dict_get other.now.pairs key) (dict_get self.old.pairs key)) }
    {
        let mut grown = self.copy(alloc)?;
        for pair in other.pairs() {
            grown.set(pair.key, pair.value)?;
        }
        *self = grown;
        Ok(())
    }

    /// Takes the pairs of the other dict in place of its own, in their order, each with a serial of
    /// its own (this project's choice). An `Err` changes nothing.
    #[tactic(auto, using(crate::proofs::DictLaws::copy_same, crate::proofs::DictLaws::copy_fresh))]
    pub fn copy_from(&mut self, alloc: Global, other: &Dict) -> Result<(), AllocError>
        requires { self.old.next + length other.now.pairs < 2 ^ 63 }
        ensures ok { OnOk result (self.new ≡ dict_copy self.old other.now.pairs) }
        ensures err { OnErr result (self.new ≡ self.old) }
        ensures same { OnOk result (items_of self.new.pairs ≡ items_of other.now.pairs) }
        ensures fresh { OnOk result (All (λ pair. self.old.next ≤ pair.serial) self.new.pairs) }
    {
        let pairs = with_serials(alloc, self.next, other)?;
        let pairs = Members::from_slice(alloc, &pairs)?;
        self.next += other.len() as u64;
        self.pairs = pairs;
        Ok(())
    }

    /// `d.clear()` (Python manual, Mapping Types). No serial is drawn again.
    pub fn clear(&mut self)
        ensures { self.new ≡ dict_clear self.old }
    {
        self.pairs.clear();
    }
}

/// Whether each of the other's pairs stands, with an equal value, in the dict.
fn has_pairs(dict: &Dict, other: &Dict) -> bool
    ensures answer { result ≡ list_all (has_pair dict.now.pairs) other.now.pairs }
    ensures is_dict { IsDict other.now.next other.now.pairs }
{
    other.pairs().all(|wanted| holds(dict, wanted))
}

/// Whether the pair stands, with an equal value, in the dict.
pub(crate) fn holds(dict: &Dict, wanted: &DictPair) -> bool
    ensures { result ≡ has_pair dict.now.pairs wanted.now }
{
    match dict.pairs.find(wanted.key) {
        Some(pair) => pair.value == wanted.value,
        None => false,
    }
}

/// The dict's pairs with new serials, one after the other from this one on.
fn with_serials(alloc: Global, next: u64, dict: &Dict) -> Result<Vec<DictPair>, AllocError>
    requires { next + length dict.now.pairs < 2 ^ 63 }
    ensures copy { IfOk result (λ copy. copy.items ≡ pairs_from next dict.now.pairs) }
    ensures is_dict { IsDict dict.now.next dict.now.pairs }
{
    let mut copy = Vec::new(alloc);
    for pair in dict.pairs() {
        copy.push(DictPair {
            serial: next + copy.len() as u64,
            key: pair.key,
            value: pair.value,
        })?;
    }
    Ok(copy)
}
