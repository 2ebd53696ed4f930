//! A set of one thread. It keeps that elements are distinct and that serials rise, in the order of
//! adding, below the next one.
ghost use Rattle.std.specs.Prelude.{◌≡◌, ◌↔◌, ◌++◌, ◌&&◌, ◌||◌, not, IsTrue, ℕ, ◌+◌, ◌^◌, ◌<◌, ◌==◌, false, length, slice_get, option_map, IfOk, OnOk, OnErr, IfNone};
ghost use Rattle.std.specs.List.{list_any};
ghost use Rattle.ft_model.specs.Contents.{has_element, elements_from, those_in, those_not_in, is_subset, same_elements, is_disjoint};

use crate::content::Element;
use crate::data::Key;
use crate::members::{Member, Members};
use std::alloc::{AllocError, Global};
use std::collections::btree_map::Values;
use std::marker::Model;

/// What a set has: its elements, in the order in which they were added, and the next serial (Python
/// manual, Set Types; the order is this project's choice). No serial is drawn twice.
#[derive(Debug, Drop)]
pub struct Set {
    next: u64,
    elements: Members<Element>,
}

impl Model for Set {
    ghost use Rattle.ft_model.specs.Contents.{SetContent, IsSet};

    ghost Value = { SetContent };

    ghost view = { λ s. record { next = s.next; elements = s.elements } };

    ghost invariant = { λ s. IsSet s.next s.elements };
}

impl Member for Element {
    ghost key_of = { λ element. element.key };

    ghost serial_of = { λ element. element.serial };

    fn key(&self) -> Key {
        self.key
    }

    fn serial(&self) -> u64 {
        self.serial
    }
}

impl Set {
    ghost use Rattle.ft_model.specs.declared.data.Key.{Key};
    ghost use Rattle.ft_model.specs.Keys.{same_key};
    ghost use Rattle.ft_model.specs.Contents.{empty_set, IsSet, set_add, set_discard, set_clear, set_or, set_and, set_sub, set_xor};
    ghost use Rattle.ft_model.specs.Answers.{without_first};
    ghost use Rattle.ft_model.specs.Cursors.{next_element};

    /// `set()`: an empty set, which takes no memory.
    pub fn new(alloc: Global) -> Self
        ensures { result ≡ empty_set }
    {
        Set {
            next: 0,
            elements: Members::new(alloc),
        }
    }

    /// The elements in the order in which they were added, so in the order of serials.
    pub fn elements(&self) -> Values<'_, u64, Element>
        ensures elements { result ≡ self.now.elements }
        ensures is_set { IsSet self.now.next self.now.elements }
        ensures small { length self.now.elements < 2 ^ 63 }
    {
        self.elements.values()
    }

    /// The element with the least serial after the last one; at first every serial is.
    pub(crate) fn next_element(&self, last: Option<u64>) -> Option<Element>
        ensures { result ≡ next_element self.now.elements last }
    {
        self.elements.first_after(last)
    }

    /// `len(s)` (Python manual, Set Types).
    pub fn len(&self) -> usize
        ensures length { result ≡ length self.now.elements }
        ensures small { result < 2 ^ 63 }
    {
        self.elements.len()
    }

    /// The serial that the next element draws.
    pub fn next_serial(&self) -> u64
        ensures { result ≡ self.now.next }
    {
        self.next
    }

    /// Whether there is no element.
    pub fn is_empty(&self) -> bool
        ensures { result ≡ (length self.now.elements == 0) }
    {
        self.len() == 0
    }

    /// `k in s` (Python manual, Set Types).
    pub fn has(&self, key: Key) -> bool
        ensures { result ≡ has_element self.now.elements key }
    {
        self.elements.has(key)
    }

    /// `s <= t` (Python manual, Set Types). As every call on two sets, it looks the elements of one up
    /// in the other's hash table, so its time is the sum of the lengths.
    pub fn is_subset(&self, other: &Set) -> bool
        ensures answer { result ≡ is_subset self.now.elements other.now.elements }
        ensures members { IsTrue result ↔ ((key : Key) →
            IsTrue (has_element self.now.elements key) → IsTrue (has_element other.now.elements key)) }
    {
        self.is_among(other)
    }

    /// `s == t`: the same elements, in any order (Python manual, Set Types).
    pub fn equals(&self, other: &Set) -> bool
        ensures answer { result ≡ same_elements self.now.elements other.now.elements }
        ensures members { IsTrue result ↔ ((key : Key) →
            has_element self.now.elements key ≡ has_element other.now.elements key) }
    {
        self.is_same(other)
    }

    /// `s.isdisjoint(t)` (Python manual, Set Types).
    pub fn is_disjoint(&self, other: &Set) -> bool
        ensures answer { result ≡ is_disjoint self.now.elements other.now.elements }
        ensures members { IsTrue result ↔ ((key : Key) →
            IsTrue (has_element self.now.elements key) → has_element other.now.elements key ≡ false) }
    {
        !self.meets(other)
    }

    /// A set with the same elements and the same next serial. An `Err` says that memory ran out.
    pub fn copy(&self, alloc: Global) -> Result<Self, AllocError>
        ensures { IfOk result (λ set. set ≡ self.now) }
    {
        Ok(Set {
            next: self.next,
            elements: self.elements.copy(alloc)?,
        })
    }

    /// `s.add(k)`: an element that isn't there (Python manual, Set Types) goes last (this project's
    /// choice). An `Err` changes nothing.
    #[tactic(auto, using(crate::proofs::SetLaws::add_members))]
    pub fn add(&mut self, key: Key) -> Result<(), AllocError>
        requires { self.old.next < 2 ^ 63 }
        ensures ok { OnOk result (self.new ≡ set_add self.old key) }
        ensures err { OnErr result (self.new ≡ self.old) }
        ensures members { OnOk result ((other : Key) → has_element self.new.elements other ≡
            (has_element self.old.elements other || same_key key other)) }
    {
        if !self.elements.has(key) {
            self.elements.push(Element {
                serial: self.next,
                key,
            })?;
            self.next += 1;
        }
        Ok(())
    }

    /// `s.discard(k)`, and whether the element was there: takes it out, and leaves the others as
    /// they were (Python manual, Set Types).
    #[tactic(auto, using(crate::proofs::Sets::discard_missing, crate::proofs::SetLaws::discard_members))]
    pub fn discard(&mut self, key: Key) -> bool
        ensures answer { result ≡ has_element self.old.elements key }
        ensures set { self.new ≡ set_discard self.old key }
        ensures missing { result ≡ false → self.new ≡ self.old }
        ensures members { (other : Key) → has_element self.new.elements other ≡
            (has_element self.old.elements other && not (same_key other key)) }
    {
        let found = self.has(key);
        self.take_out(key);
        found
    }

    fn take_out(&mut self, key: Key)
        ensures { self.new ≡ set_discard self.old key }
    {
        self.elements.take_out(key);
    }

    /// `s.pop()`, or `None` where there is no element (Python manual, Set Types): takes the first
    /// element out (this project's choice).
    pub fn pop_first(&mut self) -> Option<Key>
        ensures answer { result ≡ option_map (λ element. element.key) (slice_get self.old.elements 0) }
        ensures set { self.new ≡ without_first self.old }
        ensures missing { IfNone result (self.new ≡ self.old) }
    {
        let element = self.elements.pop_first()?;
        Some(element.key)
    }

    /// `s |= t`: the other's elements that aren't there (Python manual, Set Types) go last, in the
    /// other's order (this project's choice). An `Err` changes nothing.
    #[tactic(auto, using(crate::proofs::SetLaws::or_members))]
    pub fn or(&mut self, alloc: Global, other: &Set) -> Result<(), AllocError>
        requires { self.old.next + length other.now.elements < 2 ^ 63 }
        ensures ok { OnOk result (self.new ≡ set_or self.old other.now.elements) }
        ensures err { OnErr result (self.new ≡ self.old) }
        ensures members { OnOk result ((key : Key) → has_element self.new.elements key ≡
            (has_element self.old.elements key || has_element other.now.elements key)) }
    {
        let added = self.added(alloc, other)?;
        let joined = joined(self.list(alloc)?, &added)?;
        let elements = Members::from_slice(alloc, &joined)?;
        self.next += added.len() as u64;
        self.elements = elements;
        Ok(())
    }

    /// `s &= t`: keeps the elements that the other has, as they were (Python manual, Set Types). An
    /// `Err` changes nothing.
    pub fn and(&mut self, alloc: Global, other: &Set) -> Result<(), AllocError>
        ensures ok { OnOk result (self.new ≡ set_and self.old other.now.elements) }
        ensures err { OnErr result (self.new ≡ self.old) }
        ensures members { OnOk result ((key : Key) → has_element self.new.elements key ≡
            (has_element self.old.elements key && has_element other.now.elements key)) }
    {
        let common = self.common(alloc, other)?;
        let elements = Members::from_slice(alloc, &common)?;
        self.elements = elements;
        Ok(())
    }

    /// `s -= t`: keeps the elements that the other hasn't, as they were (Python manual, Set Types).
    /// An `Err` changes nothing.
    pub fn sub(&mut self, alloc: Global, other: &Set) -> Result<(), AllocError>
        ensures ok { OnOk result (self.new ≡ set_sub self.old other.now.elements) }
        ensures err { OnErr result (self.new ≡ self.old) }
        ensures members { OnOk result ((key : Key) → has_element self.new.elements key ≡
            (has_element self.old.elements key && not (has_element other.now.elements key))) }
    {
        let kept = self.kept(alloc, other)?;
        let elements = Members::from_slice(alloc, &kept)?;
        self.elements = elements;
        Ok(())
    }

    /// `s ^= t`: the elements that were in both go, and the other's that weren't there (Python
    /// manual, Set Types) go last, in the other's order (this project's choice). An `Err` changes
    /// nothing.
    #[tactic(auto, using(crate::proofs::SetLaws::xor_members))]
    pub fn xor(&mut self, alloc: Global, other: &Set) -> Result<(), AllocError>
        requires { self.old.next + length other.now.elements < 2 ^ 63 }
        ensures ok { OnOk result (self.new ≡ set_xor self.old other.now.elements) }
        ensures err { OnErr result (self.new ≡ self.old) }
        ensures members { OnOk result ((key : Key) → has_element self.new.elements key ≡
            ((has_element self.old.elements key && not (has_element other.now.elements key))
            || (has_element other.now.elements key && not (has_element self.old.elements key)))) }
    {
        let added = self.added(alloc, other)?;
        let joined = joined(self.kept(alloc, other)?, &added)?;
        let elements = Members::from_slice(alloc, &joined)?;
        self.next += added.len() as u64;
        self.elements = elements;
        Ok(())
    }

    /// `s.clear()` (Python manual, Set Types). No serial is drawn again.
    pub fn clear(&mut self)
        ensures { self.new ≡ set_clear self.old }
    {
        self.elements.clear();
    }

    /// Whether each of the elements is among the other's.
    fn is_among(&self, other: &Set) -> bool
        ensures { result ≡ is_subset self.now.elements other.now.elements }
    {
        self.elements().all(|element| other.has(element.key))
    }

    /// Whether they are the same elements, in any order.
    fn is_same(&self, other: &Set) -> bool
        ensures { result ≡ same_elements self.now.elements other.now.elements }
    {
        self.is_among(other) && other.is_among(self)
    }

    /// Whether some of the elements are among the other's.
    fn meets(&self, other: &Set) -> bool
        ensures { result ≡ list_any (λ element. has_element other.now.elements element.key) self.now.elements }
    {
        self.elements().any(|element| other.has(element.key))
    }

    /// All elements.
    fn list(&self, alloc: Global) -> Result<Vec<Element>, AllocError>
        ensures { IfOk result (λ list. list.items ≡ self.now.elements) }
    {
        self.elements().copied().collect(alloc)
    }

    /// The elements that are among the other's.
    fn common(&self, alloc: Global, other: &Set) -> Result<Vec<Element>, AllocError>
        ensures { IfOk result (λ common. common.items ≡ those_in other.now.elements self.now.elements) }
    {
        self.elements()
            .copied()
            .filter(|element| other.has(element.key))
            .collect(alloc)
    }

    /// The elements that aren't among the other's.
    fn kept(&self, alloc: Global, other: &Set) -> Result<Vec<Element>, AllocError>
        ensures { IfOk result (λ kept. kept.items ≡ those_not_in other.now.elements self.now.elements) }
    {
        self.elements()
            .copied()
            .filter(|element| !other.has(element.key))
            .collect(alloc)
    }

    /// The other's elements that aren't among these, with new serials, one after the other from the
    /// next one on.
    fn added(&self, alloc: Global, other: &Set) -> Result<Vec<Element>, AllocError>
        requires { self.now.next + length other.now.elements < 2 ^ 63 }
        ensures added { IfOk result (λ added. added.items ≡ elements_from self.now.next (those_not_in self.now.elements other.now.elements)) }
        ensures is_set { IsSet other.now.next other.now.elements }
    {
        let mut added = Vec::new(alloc);
        for element in other.elements() {
            if !self.has(element.key) {
                added.push(Element {
                    serial: self.next + added.len() as u64,
                    key: element.key,
                })?;
            }
        }
        Ok(added)
    }
}

/// The elements and after them those that are added.
fn joined(mut elements: Vec<Element>, added: &[Element]) -> Result<Vec<Element>, AllocError>
    ensures { IfOk result (λ joined. joined.items ≡ elements.items ++ added.now) }
{
    elements.extend_from_slice(added)?;
    Ok(elements)
}
