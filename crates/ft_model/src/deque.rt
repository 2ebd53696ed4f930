//! A deque of one thread: its items from left to right, how often it was changed, and its bound.
ghost use Rattle.std.specs.Prelude.{◌≡◌, ◌+◌, ◌-◌, ◌^◌, ◌<◌, ◌==◌, length, IfOk, OnOk, OnErr};
ghost use Rattle.std.specs.Prelude.{OnSome, IfNone};
ghost use Rattle.ft_model.specs.Deques.{IsDeque, left_within, right_within};

use crate::data::Value;
use crate::list::place_in;
use std::alloc::{AllocError, Global};
use std::collections::VecDeque;
use std::marker::Model;

/// What a deque has: its items from left to right, how often it was changed, and the most items that
/// it may have, if there is such a bound (Python manual, collections.deque).
#[derive(Debug, Drop)]
pub struct Deque {
    moves: u64,
    bound: Option<u32>,
    items: VecDeque<Value>,
}

impl Model for Deque {
    ghost use Rattle.ft_model.specs.Deques.{DequeContent, IsDeque};

    ghost Value = { DequeContent };

    ghost view = { λ q. record { moves = q.moves; bound = q.bound; items = q.items.items } };

    ghost invariant = { λ q. IsDeque q.bound q.items.items };
}

impl Deque {
    ghost use Rattle.ft_model.specs.Lists.{has_value};
    ghost use Rattle.ft_model.specs.Deques.{empty_deque, deque_append, deque_append_left, deque_extend};
    ghost use Rattle.ft_model.specs.Deques.{deque_extend_left, first_item, last_item, deque_pop, deque_pop_left};
    ghost use Rattle.ft_model.specs.Deques.{deque_rotate, deque_clear, deque_get};

    /// `deque(maxlen=n)`: an empty deque, which takes no memory. With `None` it has no bound (Python
    /// manual, collections.deque).
    pub fn new(alloc: Global, bound: Option<u32>) -> Self
        ensures { result ≡ empty_deque bound }
    {
        Deque {
            moves: 0,
            bound,
            items: VecDeque::new(alloc),
        }
    }

    /// The items from left to right.
    pub fn items(&self) -> &VecDeque<Value>
        ensures items { result.now.items ≡ self.now.items }
        ensures is_deque { IsDeque self.now.bound self.now.items }
    {
        &self.items
    }

    /// How often the deque was changed.
    pub fn moves(&self) -> u64
        ensures { result ≡ self.now.moves }
    {
        self.moves
    }

    /// `q.maxlen`: the most items that it may have, or `None` where there is no bound (Python
    /// manual, collections.deque).
    pub fn bound(&self) -> Option<u32>
        ensures { result ≡ self.now.bound }
    {
        self.bound
    }

    /// `len(q)` (Python manual, collections.deque).
    pub fn len(&self) -> usize
        ensures length { result ≡ length self.now.items }
        ensures small { result < 2 ^ 63 }
    {
        self.items.len()
    }

    /// Whether there is no item.
    pub fn is_empty(&self) -> bool
        ensures { result ≡ (length self.now.items == 0) }
    {
        self.items.is_empty()
    }

    /// `q[i]`, or `None` where there is no such item. A negative index counts from the right end
    /// (Python manual, Sequence Types).
    pub fn get(&self, index: i64) -> Option<Value>
        ensures { result ≡ deque_get self.now.items index }
    {
        let place = place_in(self.items.len(), index)?;
        Some(self.items[place])
    }

    /// `v in q` (Python manual, collections.deque).
    pub fn has(&self, value: Value) -> bool
        ensures { result ≡ has_value self.now.items value }
    {
        self.items.contains(&value)
    }

    /// A vector of the items. An `Err` says that memory ran out.
    pub fn copy_items(&self, alloc: Global) -> Result<Vec<Value>, AllocError>
        ensures { IfOk result (λ items. items.items ≡ self.now.items) }
    {
        copied(alloc, &self.items)
    }

    /// A deque with the same items, bound and number of changes. An `Err` says that memory ran out.
    pub fn copy(&self, alloc: Global) -> Result<Self, AllocError>
        ensures { IfOk result (λ deque. deque ≡ self.now) }
    {
        Ok(Deque {
            moves: self.moves,
            bound: self.bound,
            items: VecDeque::from_vec(copied(alloc, &self.items)?),
        })
    }

    /// `q.append(v)`: the value goes to the right side, and where that is more than the bound the
    /// leftmost item is dropped (Python manual, collections.deque). An `Err` changes nothing.
    pub fn append(&mut self, value: Value) -> Result<(), AllocError>
        requires { self.old.moves < 2 ^ 63 }
        ensures ok { OnOk result (self.new ≡ deque_append self.old value) }
        ensures err { OnErr result (self.new ≡ self.old) }
    {
        self.items.push_back(value)?;
        keep_right(&mut self.items, self.bound);
        self.moves += 1;
        Ok(())
    }

    /// `q.appendleft(v)`: the value goes to the left side, and where that is more than the bound the
    /// rightmost item is dropped (Python manual, collections.deque). An `Err` changes nothing.
    pub fn append_left(&mut self, value: Value) -> Result<(), AllocError>
        requires { self.old.moves < 2 ^ 63 }
        ensures ok { OnOk result (self.new ≡ deque_append_left self.old value) }
        ensures err { OnErr result (self.new ≡ self.old) }
    {
        self.items.push_front(value)?;
        keep_left(&mut self.items, self.bound);
        self.moves += 1;
        Ok(())
    }

    /// `q.extend(r)`: the others go to the right side in their order, each as by `append` (Python
    /// manual, collections.deque). An `Err` changes nothing.
    pub fn extend(&mut self, alloc: Global, others: &[Value]) -> Result<(), AllocError>
        requires { self.old.moves < 2 ^ 63 }
        ensures ok { OnOk result (self.new ≡ deque_extend self.old others.now) }
        ensures err { OnErr result (self.new ≡ self.old) }
    {
        if others.is_empty() {
            return Ok(());
        }
        let mut others = VecDeque::from_vec(Vec::from_slice(alloc, others)?);
        self.items.append(&mut others)?;
        keep_right(&mut self.items, self.bound);
        self.moves += 1;
        Ok(())
    }

    /// `q.extendleft(r)`: the others go to the left side in their order, each as by `appendleft`, so
    /// that they stand there in reverse (Python manual, collections.deque). An `Err` changes nothing.
    pub fn extend_left(&mut self, alloc: Global, others: &[Value]) -> Result<(), AllocError>
        requires { self.old.moves < 2 ^ 63 }
        ensures ok { OnOk result (self.new ≡ deque_extend_left self.old others.now) }
        ensures err { OnErr result (self.new ≡ self.old) }
    {
        if others.is_empty() {
            return Ok(());
        }
        let mut others = Vec::from_slice(alloc, others)?;
        others.reverse();
        let mut items = VecDeque::from_vec(others);
        items.append(&mut self.items)?;
        keep_left(&mut items, self.bound);
        self.items = items;
        self.moves += 1;
        Ok(())
    }

    /// `q.pop()`: takes the rightmost item out, or `None` where there is none (Python manual,
    /// collections.deque).
    pub fn pop(&mut self) -> Option<Value>
        requires { self.old.moves < 2 ^ 63 }
        ensures answer { result ≡ last_item self.old.items }
        ensures found { OnSome result (self.new ≡ deque_pop self.old) }
        ensures missing { IfNone result (self.new ≡ self.old) }
    {
        let item = self.items.pop_back()?;
        self.moves += 1;
        Some(item)
    }

    /// `q.popleft()`: takes the leftmost item out, or `None` where there is none (Python manual,
    /// collections.deque).
    pub fn pop_left(&mut self) -> Option<Value>
        requires { self.old.moves < 2 ^ 63 }
        ensures answer { result ≡ first_item self.old.items }
        ensures found { OnSome result (self.new ≡ deque_pop_left self.old) }
        ensures missing { IfNone result (self.new ≡ self.old) }
    {
        let item = self.items.pop_front()?;
        self.moves += 1;
        Some(item)
    }

    /// `q.rotate(n)`: that many steps to the right, or to the left where they are below 0 (Python
    /// manual, collections.deque).
    pub fn rotate(&mut self, steps: i64)
        requires { self.old.moves < 2 ^ 63 }
        ensures { self.new ≡ deque_rotate self.old steps }
    {
        let len = self.items.len();
        if len <= 1 {
            return;
        }
        match usize::try_from(steps) {
            Ok(steps) => self.items.rotate_right(steps % len),
            Err(_) => self.items.rotate_left(steps.unsigned_abs() as usize % len),
        }
        self.moves += 1;
    }

    /// `q.clear()` (Python manual, collections.deque). An empty deque is not changed.
    pub fn clear(&mut self)
        requires { self.old.moves < 2 ^ 63 }
        ensures { self.new ≡ deque_clear self.old }
    {
        if self.items.is_empty() {
            return;
        }
        self.items.clear();
        self.moves += 1;
    }
}

/// A vector of a deque's items.
fn copied(alloc: Global, items: &VecDeque<Value>) -> Result<Vec<Value>, AllocError>
    ensures { IfOk result (λ copy. copy.items ≡ items.now.items) }
{
    let (front, rest) = items.as_slices();
    let mut copy = Vec::from_slice(alloc, front)?;
    copy.extend_from_slice(rest)?;
    Ok(copy)
}

/// Drops the leftmost items that are more than the bound.
fn keep_right(items: &mut VecDeque<Value>, bound: Option<u32>)
    ensures items { items.new.items ≡ right_within bound items.old.items }
    ensures bounded { IsDeque bound items.new.items }
{
    if let Some(most) = bound {
        let surplus = items.len().saturating_sub(most as usize);
        items.rotate_left(surplus);
        items.truncate(items.len() - surplus);
    }
}

/// Drops the rightmost items that are more than the bound.
fn keep_left(items: &mut VecDeque<Value>, bound: Option<u32>)
    ensures items { items.new.items ≡ left_within bound items.old.items }
    ensures bounded { IsDeque bound items.new.items }
{
    if let Some(most) = bound {
        items.truncate(most as usize);
    }
}
