//! Whether a call may be tried: whoever has a call as data asks before it is made.
ghost use Rattle.std.specs.Prelude.{◌≡◌, ◌<◌, ◌↔◌, IsTrue, IfSome};
ghost use Rattle.ft_trace.specs.Acts.{announces};
ghost use Rattle.ft_trace.specs.Addresses.{container_count};
ghost use Rattle.ft_bank.specs.Passes.{shape_of, view};
ghost use Rattle.ft_engine.specs.Attempts.{MayAttempt};
ghost use Rattle.ft_engine.specs.Callers.{IsIdle, IsOfKindIn, bank_of, hands_of, left_of, pass_of};
ghost use Rattle.ft_engine.specs.MayCalls.{MayAtElement, MayAtKey, MayOnList};
ghost use Rattle.ft_dict.specs.DictMaking.{key_of_dict};
ghost use Rattle.ft_set.specs.SetMaking.{key_of_set};
ghost use Rattle.ft_engine.specs.Asked.{AreOfKindIn, HasKeyIn, IsCallIn};

use crate::caller::Caller;
use crate::engine::Engine;
use ft_model::{Call, DictCall, Key, Kind, SetCall};
use ft_section::Object;

/// The key that a call on a dict names.
fn dict_key(call: &DictCall) -> Option<Key>
    ensures { result ≡ key_of_dict call.now }
{
    match *call {
        DictCall::Get { key }
        | DictCall::GetOr { key, .. }
        | DictCall::Set { key, .. }
        | DictCall::Del { key }
        | DictCall::Pop { key }
        | DictCall::PopOr { key, .. }
        | DictCall::SetDefault { key, .. }
        | DictCall::Has { key }
        | DictCall::ItemsHas { key, .. } => Some(key),
        _ => None,
    }
}

/// The element that a call on a set names.
fn set_key(call: &SetCall) -> Option<Key>
    ensures { result ≡ key_of_set call.now }
{
    match *call {
        SetCall::Add { key }
        | SetCall::Discard { key }
        | SetCall::Remove { key }
        | SetCall::Has { key } => Some(key),
        _ => None,
    }
}

impl Engine {
    /// Whether the container is there, and of that kind.
    fn is_of_kind(&self, kind: Kind, o: Object) -> bool
        ensures { IsTrue result ↔ IsOfKindIn (shape_of self.now.bank) kind o }
    {
        match self.kinds.get(o as usize) {
            Some(found) => *found == kind,
            None => false,
        }
    }

    /// The same of the one or two containers that a call names.
    #[inline(always)]
    fn are_of_kind(&self, kind: Kind, o: Object, other: Option<Object>) -> bool
        ensures { IsTrue result ↔ AreOfKindIn (shape_of self.now.bank) kind o other }
    {
        let first = self.is_of_kind(kind, o);
        match other {
            Some(other) => first && self.is_of_kind(kind, other),
            None => first,
        }
    }

    /// Whether the containers of a `begin` are there.
    fn are_there(&self, first: Object, second: Option<Object>) -> bool
        ensures { IsTrue result ↔ ((first < container_count (shape_of self.now.bank))
            × IfSome second (λ other. other < container_count (shape_of self.now.bank))) }
    {
        let count = self.kinds.len();
        match second {
            Some(other) => (first as usize) < count && (other as usize) < count,
            None => (first as usize) < count,
        }
    }

    /// Whether the key that a call names, if it names one, is an integer or a string of the bank.
    fn has_key(&self, key: Option<Key>) -> bool
        ensures { IsTrue result ↔ HasKeyIn (shape_of self.now.bank) key }
    {
        match key {
            Some(Key::Text(text)) => u64::from(text.0) < self.texts,
            Some(Key::Int(_)) | None => true,
        }
    }

    /// Whether the containers, cursors and strings that a call names are there, and the bank can make the call.
    #[inline(always)]
    pub fn has_named(&self, caller: &Caller, call: &Call) -> bool
        ensures { IsTrue result ↔ IsCallIn (shape_of (bank_of self.now)) (hands_of caller.now) call.now }
    {
        match *call {
            Call::Dict { container, call } => {
                self.are_of_kind(Kind::Dict, container, call.other())
                    && caller.has_room(call.cursor())
                    && self.has_key(dict_key(&call))
                    && call.is_landed()
            }
            Call::List { container, call } => {
                self.are_of_kind(Kind::List, container, call.other())
                    && caller.has_room(call.cursor())
                    && call.is_landed()
            }
            Call::Set { container, call } => {
                self.are_of_kind(Kind::Set, container, call.other())
                    && caller.has_room(call.cursor())
                    && self.has_key(set_key(&call))
            }
            Call::Next { cursor } => caller.has_cursor(cursor),
            Call::Begin { first, second } => self.are_there(first, second),
            Call::End | Call::Quiesce => true,
            Call::Deque { .. } | Call::Await { .. } | Call::Dump => false,
        }
    }

    /// Whether a call of a caller that is online may be tried: no other call is in flight, and where it has no answer
    /// yet, the caller has a call left, its sections allow it, and what it names is there.
    #[inline(always)]
    pub fn may_attempt(&self, caller: &Caller, call: &Call) -> bool
        requires online { 0 < announces (view (pass_of caller.now)).log }
        ensures { IsTrue result ↔ MayAttempt self.now caller.now call.now }
    {
        caller.comes_next(call)
            && (caller.is_answered()
                || caller.left() > 0 && caller.fits(call) && self.has_named(caller, call))
    }

    /// Whether a caller is in no call and has one left, and the container and the key that a call names are there.
    #[inline(always)]
    fn may_name(&self, caller: &Caller, kind: Kind, o: Object, key: Option<Key>) -> bool
        ensures { IsTrue result ↔ (IsIdle caller.now × (0 < left_of caller.now)
            × IsOfKindIn (shape_of self.now.bank) kind o × HasKeyIn (shape_of self.now.bank) key) }
    {
        caller.is_idle() && caller.left() > 0 && self.is_of_kind(kind, o) && self.has_key(key)
    }

    /// Whether a caller that is online may make the calls that name this dict and this key: no call is in flight, the
    /// caller has one left, and the dict and the key are there.
    #[inline(always)]
    pub fn may_at_key(&self, caller: &Caller, d: Object, key: Key) -> bool
        requires online { 0 < announces (view (pass_of caller.now)).log }
        ensures { IsTrue result ↔ (IsIdle caller.now × MayAtKey self.now caller.now d key) }
    {
        self.may_name(caller, Kind::Dict, d, Some(key))
    }

    /// Whether a caller that is online may make the calls that name this list alone: no call is in flight, the caller
    /// has one left, and the list is there.
    #[inline(always)]
    pub fn may_on_list(&self, caller: &Caller, l: Object) -> bool
        requires online { 0 < announces (view (pass_of caller.now)).log }
        ensures { IsTrue result ↔ (IsIdle caller.now × MayOnList self.now caller.now l) }
    {
        self.may_name(caller, Kind::List, l, None)
    }

    /// Whether a caller that is online may make the calls that name this set and this element: no call is in flight, the
    /// caller has one left, and the set and the element are there.
    #[inline(always)]
    pub fn may_at_element(&self, caller: &Caller, s: Object, key: Key) -> bool
        requires online { 0 < announces (view (pass_of caller.now)).log }
        ensures { IsTrue result ↔ (IsIdle caller.now × MayAtElement self.now caller.now s key) }
    {
        self.may_name(caller, Kind::Set, s, Some(key))
    }
}
