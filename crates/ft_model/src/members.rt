//! The pairs of a dict or the elements of a set, in the order in which they were added, with a
//! search by key and by serial.
ghost use Rattle.std.specs.Prelude.{◌≡◌, ◌<◌, ◌^◌, ◌-◌, [], ◌∷◌, ◌++◌, Some, true, false, not, nat_lt, length, map, filter, reverse, take, drop, slice_get, All, IfOk, OnOk, OnErr, if◌then◌else◌};
ghost use Rattle.std.specs.List.{list_any, find};
ghost use Rattle.ft_model.specs.declared.data.Key.{Key};
ghost use Rattle.ft_model.specs.Cursors.{is_after, is_before};
ghost use Rattle.ft_model.specs.Members.{is_member, serial_at, AreMembers};

use crate::data::Key;
use std::alloc::{AllocError, Global};
use std::collections::btree_map::Values;
use std::collections::{BTreeMap, HashMap};
use std::marker::Model;
use std::ops::Bound;

/// What a dict or a set has at a key: a pair or an element.
pub(crate) trait Member: Copy {
    ghost use Rattle.std.specs.Prelude.{◌≡◌, ℕ};
    ghost use Rattle.ft_model.specs.declared.data.Key.{Key};

    ghost key_of: { Self → Key };

    ghost serial_of: { Self → ℕ };

    /// The key, which no other member has.
    fn key(&self) -> Key
        ensures { result ≡ key_of self.now };

    /// The serial that was drawn when the key was added.
    fn serial(&self) -> u64
        ensures { result ≡ serial_of self.now };
}

/// Members by their serials, and a hash table from keys to serials.
#[derive(Debug, Drop)]
pub(crate) struct Members<T: Member> {
    members: BTreeMap<u64, T>,
    serials: HashMap<Key, u64>,
}

impl<T: Member> Model for Members<T> {
    ghost use Rattle.std.specs.Prelude.{List};
    ghost use Rattle.std.specs.BTreeMap.{values};
    ghost use Rattle.ft_model.specs.Members.{AreKept};

    ghost Value = { List T };

    ghost view = { λ m. values m.members };

    ghost invariant = { λ m. AreKept T.key_of T.serial_of m.members m.serials };
}

impl<T: Member> Members<T> {
    /// No members, which take no memory.
    pub(crate) fn new(alloc: Global) -> Self
        ensures { result ≡ [] }
    {
        Members {
            members: BTreeMap::new(alloc),
            serials: HashMap::new(alloc),
        }
    }

    /// No members, with a table for that many keys. An `Err` says that memory for it ran out.
    fn with_capacity(alloc: Global, capacity: usize) -> Result<Self, AllocError>
        ensures { IfOk result (λ made. made ≡ []) }
    {
        Ok(Members {
            members: BTreeMap::new(alloc),
            serials: HashMap::with_capacity(alloc, capacity)?,
        })
    }

    /// The members of a slice. An `Err` says that memory ran out.
    pub(crate) fn from_slice(alloc: Global, members: &[T]) -> Result<Self, AllocError>
        requires { AreMembers T.key_of T.serial_of members.now }
        ensures { IfOk result (λ made. made ≡ members.now) }
    {
        let mut made = Members::with_capacity(alloc, members.len())?;
        for member in members {
            made.push(*member)?;
        }
        Ok(made)
    }

    /// The same members. An `Err` says that memory ran out.
    pub(crate) fn copy(&self, alloc: Global) -> Result<Self, AllocError>
        ensures { IfOk result (λ made. made ≡ self.now) }
    {
        let mut made = Members::with_capacity(alloc, self.len())?;
        for member in self.values() {
            made.push(*member)?;
        }
        Ok(made)
    }

    /// The members, in order.
    pub(crate) fn values(&self) -> Values<'_, u64, T>
        ensures values { result ≡ self.now }
        ensures are_members { AreMembers T.key_of T.serial_of self.now }
        ensures small { length self.now < 2 ^ 63 }
    {
        self.members.values()
    }

    /// How many members there are.
    pub(crate) fn len(&self) -> usize
        ensures length { result ≡ length self.now }
        ensures small { result < 2 ^ 63 }
    {
        self.members.len()
    }

    /// Whether a member has the key.
    pub(crate) fn has(&self, key: Key) -> bool
        ensures { result ≡ list_any (is_member T.key_of key) self.now }
    {
        self.serials.contains_key(&key)
    }

    /// The member that has the key.
    pub(crate) fn find(&self, key: Key) -> Option<T>
        ensures member { result ≡ find (is_member T.key_of key) self.now }
        ensures are_members { AreMembers T.key_of T.serial_of self.now }
    {
        let serial = self.serials.get(&key)?;
        self.members.get(serial).copied()
    }

    /// Adds a member at the end. An `Err` changes nothing.
    pub(crate) fn push(&mut self, member: T) -> Result<(), AllocError>
        requires absent { list_any (is_member T.key_of (T.key_of member)) self.old ≡ false }
        requires last { All (λ other. T.serial_of other < T.serial_of member) self.old }
        ensures ok { OnOk result (self.new ≡ self.old ++ member ∷ []) }
        ensures err { OnErr result (self.new ≡ self.old) }
    {
        self.serials.insert(member.key(), member.serial())?;
        match self.members.insert(member.serial(), member) {
            Ok(_) => Ok(()),
            Err(_) => {
                self.serials.remove(&member.key());
                Err(AllocError)
            }
        }
    }

    /// Puts a member in place of the one that has its key and its serial.
    pub(crate) fn put(&mut self, member: T)
        requires { serial_at T.key_of T.serial_of self.old (T.key_of member) ≡ Some (T.serial_of member) }
        ensures { self.new ≡ map (λ other. if is_member T.key_of (T.key_of member) other then member else other) self.old }
    {
        match self.members.insert(member.serial(), member) {
            Ok(_) => {}
            Err(_) => unreachable!(),
        }
    }

    /// Takes the member that has the key out.
    pub(crate) fn take_out(&mut self, key: Key)
        ensures { self.new ≡ filter (λ member. not (is_member T.key_of key member)) self.old }
    {
        if let Some(serial) = self.serials.remove(&key) {
            self.members.remove(&serial);
        }
    }

    /// Takes the first member out.
    pub(crate) fn pop_first(&mut self) -> Option<T>
        ensures first { result ≡ slice_get self.old 0 }
        ensures others { self.new ≡ drop 1 self.old }
    {
        let (_, member) = self.members.pop_first()?;
        self.serials.remove(&member.key());
        Some(member)
    }

    /// Takes the last member out.
    pub(crate) fn pop_last(&mut self) -> Option<T>
        ensures last { result ≡ slice_get self.old (length self.old - 1) }
        ensures others { self.new ≡ take (length self.old - 1) self.old }
    {
        let (_, member) = self.members.pop_last()?;
        self.serials.remove(&member.key());
        Some(member)
    }

    /// Takes all members out.
    pub(crate) fn clear(&mut self)
        ensures { self.new ≡ [] }
    {
        self.members.clear();
        self.serials.clear();
    }

    /// The member with the least serial after the last one; at first every serial is.
    pub(crate) fn first_after(&self, last: Option<u64>) -> Option<T>
        ensures { result ≡ find (λ member. is_after last (T.serial_of member)) self.now }
    {
        match last {
            None => self.first(),
            Some(last) => self.after(last),
        }
    }

    /// The member with the greatest serial before the last one; at first every serial is.
    pub(crate) fn last_before(&self, last: Option<u64>) -> Option<T>
        ensures { result ≡ find (λ member. is_before last (T.serial_of member)) (reverse self.now) }
    {
        match last {
            None => self.last(),
            Some(last) => self.before(last),
        }
    }

    fn first(&self) -> Option<T>
        ensures { result ≡ find (λ _. true) self.now }
    {
        match self.members.first_key_value() {
            Some((_, member)) => Some(*member),
            None => None,
        }
    }

    fn last(&self) -> Option<T>
        ensures { result ≡ find (λ _. true) (reverse self.now) }
    {
        match self.members.last_key_value() {
            Some((_, member)) => Some(*member),
            None => None,
        }
    }

    /// The first member with a greater serial.
    fn after(&self, serial: u64) -> Option<T>
        ensures { result ≡ find (λ member. nat_lt serial (T.serial_of member)) self.now }
    {
        let later = (Bound::Excluded(serial), Bound::Unbounded);
        match self.members.range(later).next() {
            Some((_, member)) => Some(*member),
            None => None,
        }
    }

    /// The last member with a lesser serial.
    fn before(&self, serial: u64) -> Option<T>
        ensures { result ≡ find (λ member. nat_lt (T.serial_of member) serial) (reverse self.now) }
    {
        match self.members.range(..serial).next_back() {
            Some((_, member)) => Some(*member),
            None => None,
        }
    }
}
