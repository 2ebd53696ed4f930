//! Calls on lists that are known where they are made: a method for each, as for dicts.
ghost use Rattle.ft_model.specs.declared.call.Call.TheVariants as calls;
ghost use Rattle.ft_model.specs.declared.call.ListCall.TheVariants as list;
ghost use Rattle.ft_engine.specs.Attempts.{MayAttempt};
ghost use Rattle.ft_engine.specs.Callers.{IsCallerOf, IsIdle};
ghost use Rattle.ft_engine.specs.MadeCalls.{IsCallFor, IsLookFor};

use crate::caller::Caller;
use crate::calling::Called;
use crate::engine::Engine;
use crate::list_call::{try_any_list, try_append};
use ft_list::{look_get, look_len};
use ft_model::{Call, ListCall, Value};
use ft_section::{Look, Object};
use std::alloc::Global;
use std::sync::Wait;

impl Engine {
    /// `l[i]` by a look: what `look` answers for it.
    ///
    /// # Errors
    ///
    /// `Contended` as `look`.
    #[inline(always)]
    pub fn list_get(&self, caller: &mut Caller, l: Object, index: i64) -> Look
        requires caller { IsCallerOf self.now caller.old }
        requires may { MayAttempt self.now caller.old (calls.List l (list.Get index)) }
        requires idle { IsIdle caller.old }
        ensures { IsLookFor self.now (calls.List l (list.Get index)) result caller.old caller.new }
    {
        let look = look_get(&self.bank, &mut caller.pass, l, index);
        caller.count_look(&look);
        look
    }

    /// `len(l)` by a look: what `look` answers for it.
    ///
    /// # Errors
    ///
    /// `Contended` as `look`.
    #[inline(always)]
    pub fn list_len(&self, caller: &mut Caller, l: Object) -> Look
        requires caller { IsCallerOf self.now caller.old }
        requires may { MayAttempt self.now caller.old (calls.List l list.Len) }
        requires idle { IsIdle caller.old }
        ensures { IsLookFor self.now (calls.List l list.Len) result caller.old caller.new }
    {
        let look = look_len(&self.bank, &mut caller.pass, l);
        caller.count_look(&look);
        look
    }

    /// `l.append(v)`: what `call` answers for it.
    pub fn list_append<R: Wait>(
        &self,
        rt: &R,
        alloc: Global,
        caller: &mut Caller,
        l: Object,
        value: Value,
    ) -> Called
        requires caller { IsCallerOf self.now caller.old }
        requires may { MayAttempt self.now caller.old (calls.List l (list.Append value)) }
        ensures { IsCallFor self.now (calls.List l (list.Append value)) result caller.old caller.new }
    {
        let call = Call::List {
            container: l,
            call: ListCall::Append { value },
        };
        if !caller.is_free() {
            return self.call_in_turn(rt, alloc, caller, &call);
        }
        let step = try_append(&self.bank, &mut caller.pass, l, value);
        self.end_at_once(rt, alloc, caller, &call, step)
    }

    /// `l[i] = v`, of an index and the item: what `call` answers for it.
    pub fn list_set<R: Wait>(
        &self,
        rt: &R,
        alloc: Global,
        caller: &mut Caller,
        l: Object,
        item: (i64, Value),
    ) -> Called
        requires caller { IsCallerOf self.now caller.old }
        requires may { MayAttempt self.now caller.old (calls.List l (list.Set item.0 item.1)) }
        ensures { IsCallFor self.now (calls.List l (list.Set item.0 item.1)) result caller.old caller.new }
    {
        let (index, value) = item;
        let asked = ListCall::Set { index, value };
        let call = Call::List {
            container: l,
            call: asked,
        };
        if !caller.is_free() {
            return self.call_in_turn(rt, alloc, caller, &call);
        }
        let step = try_any_list(&self.bank, &mut caller.pass, alloc, l, &asked, &call);
        self.end_at_once(rt, alloc, caller, &call, step)
    }

    /// `l.pop()` or `l.pop(i)`: what `call` answers for it.
    pub fn list_pop<R: Wait>(
        &self,
        rt: &R,
        alloc: Global,
        caller: &mut Caller,
        l: Object,
        index: Option<i64>,
    ) -> Called
        requires caller { IsCallerOf self.now caller.old }
        requires may { MayAttempt self.now caller.old (calls.List l (list.Pop index)) }
        ensures { IsCallFor self.now (calls.List l (list.Pop index)) result caller.old caller.new }
    {
        let asked = ListCall::Pop { index };
        let call = Call::List {
            container: l,
            call: asked,
        };
        if !caller.is_free() {
            return self.call_in_turn(rt, alloc, caller, &call);
        }
        let step = try_any_list(&self.bank, &mut caller.pass, alloc, l, &asked, &call);
        self.end_at_once(rt, alloc, caller, &call, step)
    }
}
