//! A list of one thread: its items, in order.
ghost use Rattle.std.specs.Prelude.{◌≡◌, ℕ, suc, ◌+◌, ◌-◌, ◌^◌, ◌<◌, ◌≤◌, Some, ◌==◌, ◌++◌, ◌∷◌, [], length, reverse, slice_set, slice_index_or, slice_get, is_some, option_map, IfOk, OnOk, OnErr, IfSome, IfNone, OnSome, unwrap_or, min};
ghost use Rattle.std.specs.List.{remove, insert};
ghost use Rattle.ft_model.specs.Lists.{index_in, clamped_in, list_slice};
ghost use Rattle.ft_model.specs.declared.data.Value.TheVariants.{Nothing};

use crate::data::Value;
use std::alloc::{AllocError, Global};
use std::marker::Model;

/// What a list has: its items, in order (Python manual, Sequence Types).
#[derive(Debug, Drop)]
pub struct List {
    items: Vec<Value>,
}

impl Model for List {
    ghost use Rattle.ft_model.specs.Lists.{ListContent};

    ghost Value = { ListContent };

    ghost view = { λ l. l.items.items };
}

impl List {
    ghost use Rattle.std.specs.Prelude.{not};
    ghost use Rattle.ft_model.specs.Lists.{list_insert, has_value, index_of, count_of, same_items};

    /// `[]`: an empty list, which takes no memory.
    pub fn new(alloc: Global) -> Self
        ensures { result ≡ [] }
    {
        List {
            items: Vec::new(alloc),
        }
    }

    /// The items, in order.
    pub fn items(&self) -> &[Value]
        ensures { result.now ≡ self.now }
    {
        &self.items
    }

    /// `len(l)` (Python manual, Sequence Types).
    pub fn len(&self) -> usize
        ensures length { result ≡ length self.now }
        ensures small { result < 2 ^ 63 }
    {
        self.items.len()
    }

    /// Whether there is no item.
    pub fn is_empty(&self) -> bool
        ensures { result ≡ (length self.now == 0) }
    {
        self.items.is_empty()
    }

    /// `l[i]`, or `None` where there is no such item. A negative index counts from the end (Python
    /// manual, Sequence Types).
    pub fn get(&self, index: i64) -> Option<Value>
        ensures { result ≡ option_map (λ found. slice_index_or self.now found Nothing) (index_in (length self.now) index) }
    {
        let place = place_in(self.items.len(), index)?;
        Some(self.items[place])
    }

    /// `l.index(v)`: the index of the first equal item, or `None` where there is none (Python
    /// manual, Sequence Types).
    pub fn index(&self, value: Value) -> Option<usize>
        ensures { result ≡ index_of self.now value }
    {
        self.items.iter().position(|item| *item == value)
    }

    /// `l.count(v)`: how many items are equal (Python manual, Sequence Types).
    pub fn count(&self, value: Value) -> usize
        ensures { result ≡ count_of self.now value }
    {
        self.items.iter().filter(|item| **item == value).count()
    }

    /// `v in l` (Python manual, Sequence Types).
    pub fn has(&self, value: Value) -> bool
        ensures { result ≡ has_value self.now value }
    {
        self.items.iter().any(|item| *item == value)
    }

    /// `l == m`: equal items in the same order (Python manual, Sequence Types).
    pub fn equals(&self, other: &List) -> bool
        ensures { result ≡ same_items self.now other.now }
    {
        self.items == other.items
    }

    /// `l[i:j]`: the items from i on and before j, both clamped to the list. A negative index
    /// counts from the end (Python manual, Sequence Types).
    #[tactic(auto, using(crate::proofs::ListLaws::slice_length, crate::proofs::ListLaws::slice_item))]
    pub fn slice(&self, alloc: Global, start: i64, end: i64) -> Result<Vec<Value>, AllocError>
        ensures answer { IfOk result (λ items. items.items ≡ list_slice self.now start end) }
        ensures length { IfOk result (λ items. length items.items ≡
            clamped_in (length self.now) end - clamped_in (length self.now) start) }
        ensures item { IfOk result (λ items. (k : ℕ) → k < length items.items →
            slice_get items.items k ≡ slice_get self.now (clamped_in (length self.now) start + k)) }
    {
        part(alloc, &self.items, start, end)
    }

    /// A list with the same items. An `Err` says that memory ran out.
    pub fn copy(&self, alloc: Global) -> Result<Self, AllocError>
        ensures { IfOk result (λ list. list ≡ self.now) }
    {
        Ok(List {
            items: Vec::from_slice(alloc, &self.items)?,
        })
    }

    /// `l.append(v)` (Python manual, Sequence Types). An `Err` changes nothing.
    pub fn append(&mut self, value: Value) -> Result<(), AllocError>
        ensures ok { OnOk result (self.new ≡ self.old ++ value ∷ []) }
        ensures err { OnErr result (self.new ≡ self.old) }
    {
        self.items.push(value)?;
        Ok(())
    }

    /// `l.insert(i, v)`: the value goes before item i, which is clamped to the list. A negative
    /// index counts from the end (Python manual, Sequence Types). An `Err` changes nothing.
    #[tactic(auto, using(crate::proofs::ListLaws::insert_before, crate::proofs::ListLaws::insert_there, crate::proofs::ListLaws::insert_after))]
    pub fn insert(&mut self, index: i64, value: Value) -> Result<(), AllocError>
        ensures ok { OnOk result (self.new ≡ list_insert self.old index value) }
        ensures err { OnErr result (self.new ≡ self.old) }
        ensures before { OnOk result ((k : ℕ) → k < clamped_in (length self.old) index →
            slice_get self.new k ≡ slice_get self.old k) }
        ensures there { OnOk result (slice_get self.new (clamped_in (length self.old) index) ≡ Some value) }
        ensures after { OnOk result ((k : ℕ) → clamped_in (length self.old) index ≤ k →
            slice_get self.new (suc k) ≡ slice_get self.old k) }
    {
        let place = clamp(self.items.len(), index);
        self.items.insert(place, value)?;
        Ok(())
    }

    /// `l[i] = v`, and whether there is such an item. A negative index counts from the end (Python
    /// manual, Sequence Types).
    pub fn set(&mut self, index: i64, value: Value) -> bool
        ensures answer { result ≡ is_some (index_in (length self.old) index) }
        ensures found { IfSome (index_in (length self.old) index) (λ found. self.new ≡ slice_set self.old found value) }
        ensures missing { IfNone (index_in (length self.old) index) (self.new ≡ self.old) }
    {
        match place_in(self.items.len(), index) {
            Some(place) => {
                self.items[place] = value;
                true
            }
            None => false,
        }
    }

    /// `l.pop(i)`, or `None` where there is no such item: takes the item out. A negative index
    /// counts from the end (Python manual, Sequence Types).
    pub fn pop(&mut self, index: i64) -> Option<Value>
        ensures answer { result ≡ option_map (λ found. slice_index_or self.old found Nothing) (index_in (length self.old) index) }
        ensures found { IfSome (index_in (length self.old) index) (λ found. self.new ≡ remove self.old found) }
        ensures missing { IfNone (index_in (length self.old) index) (self.new ≡ self.old) }
    {
        let place = place_in(self.items.len(), index)?;
        Some(self.items.remove(place))
    }

    /// `l.remove(v)`, and whether there is such an item: takes the first equal item out (Python
    /// manual, Sequence Types).
    pub fn remove(&mut self, value: Value) -> bool
        ensures answer { result ≡ is_some (index_of self.old value) }
        ensures found { IfSome (index_of self.old value) (λ found. self.new ≡ remove self.old found) }
        ensures missing { IfNone (index_of self.old value) (self.new ≡ self.old) }
    {
        match self.index(value) {
            Some(place) => {
                self.items.remove(place);
                true
            }
            None => false,
        }
    }

    /// `l.reverse()` (Python manual, Sequence Types).
    pub fn reverse(&mut self)
        ensures { self.new ≡ reverse self.old }
    {
        self.items.reverse();
    }

    /// `l.extend(m)`: the other's items go last (Python manual, Sequence Types). An `Err` changes
    /// nothing.
    pub fn extend(&mut self, other: &List) -> Result<(), AllocError>
        ensures ok { OnOk result (self.new ≡ self.old ++ other.now) }
        ensures err { OnErr result (self.new ≡ self.old) }
    {
        self.items.extend_from_slice(&other.items)
    }

    /// `l.clear()` (Python manual, Sequence Types).
    pub fn clear(&mut self)
        ensures { self.new ≡ [] }
    {
        self.items.clear();
    }
}

/// The items from one index on and before another, both clamped.
fn part(alloc: Global, items: &[Value], start: i64, end: i64) -> Result<Vec<Value>, AllocError>
    ensures { IfOk result (λ part. part.items ≡ list_slice items.now start end) }
{
    let start = clamp(items.len(), start);
    let end = clamp(items.len(), end);
    items.iter().copied().take(end).skip(start).collect(alloc)
}

/// The place that an index names among that many items: a negative one counts from the end, and one
/// that is then outside names none (Python manual, Sequence Types).
pub(crate) fn place_in(len: usize, index: i64) -> Option<usize>
    ensures answer { result ≡ index_in len index }
    ensures within { IfSome result (λ place. place < len) }
{
    match usize::try_from(index) {
        Ok(place) if place < len => Some(place),
        Ok(_) => None,
        Err(_) => len.checked_sub(index.unsigned_abs() as usize),
    }
}

/// The place that an end of a slice names among that many items: a negative one counts from the end,
/// and one that is then outside is clamped (Python manual, Sequence Types).
fn clamp(len: usize, index: i64) -> usize
    ensures { result ≡ clamped_in len index }
{
    match usize::try_from(index) {
        Ok(place) => place.min(len),
        Err(_) => len.saturating_sub(index.unsigned_abs() as usize),
    }
}
