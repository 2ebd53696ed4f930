//! Calls on dicts that are known where they are made: a method for each. None of them builds the call and matches it,
//! as `look` and `call` do, and what they promise is the same, for the call that it is.
ghost use Rattle.ft_model.specs.declared.call.Call.TheVariants as calls;
ghost use Rattle.ft_model.specs.declared.call.DictCall.TheVariants as dict;
ghost use Rattle.ft_engine.specs.Attempts.{MayAttempt};
ghost use Rattle.ft_engine.specs.Callers.{IsCallerOf, IsIdle};
ghost use Rattle.ft_engine.specs.MadeCalls.{IsCallFor, IsLookFor};

use crate::caller::Caller;
use crate::calling::Called;
use crate::dict_call::{try_any_dict, try_set};
use crate::engine::Engine;
use ft_dict::{look_get, look_has, look_len};
use ft_model::{Call, DictCall, Key, Value};
use ft_section::{Look, Object};
use std::alloc::Global;
use std::sync::Wait;

impl Engine {
    /// `d[k]` by a look: what `look` answers for it.
    ///
    /// # Errors
    ///
    /// `Contended` as `look`.
    #[inline(always)]
    pub fn dict_get(&self, caller: &mut Caller, d: Object, key: Key) -> Look
        requires caller { IsCallerOf self.now caller.old }
        requires may { MayAttempt self.now caller.old (calls.Dict d (dict.Get key)) }
        requires idle { IsIdle caller.old }
        ensures { IsLookFor self.now (calls.Dict d (dict.Get key)) result caller.old caller.new }
    {
        let look = look_get(&self.bank, &mut caller.pass, d, key);
        caller.count_look(&look);
        look
    }

    /// `k in d` by a look: what `look` answers for it.
    ///
    /// # Errors
    ///
    /// `Contended` as `look`.
    #[inline(always)]
    pub fn dict_has(&self, caller: &mut Caller, d: Object, key: Key) -> Look
        requires caller { IsCallerOf self.now caller.old }
        requires may { MayAttempt self.now caller.old (calls.Dict d (dict.Has key)) }
        requires idle { IsIdle caller.old }
        ensures { IsLookFor self.now (calls.Dict d (dict.Has key)) result caller.old caller.new }
    {
        let look = look_has(&self.bank, &mut caller.pass, d, key);
        caller.count_look(&look);
        look
    }

    /// `len(d)` by a look: what `look` answers for it.
    ///
    /// # Errors
    ///
    /// `Contended` as `look`.
    #[inline(always)]
    pub fn dict_len(&self, caller: &mut Caller, d: Object) -> Look
        requires caller { IsCallerOf self.now caller.old }
        requires may { MayAttempt self.now caller.old (calls.Dict d dict.Len) }
        requires idle { IsIdle caller.old }
        ensures { IsLookFor self.now (calls.Dict d dict.Len) result caller.old caller.new }
    {
        let look = look_len(&self.bank, &mut caller.pass, d);
        caller.count_look(&look);
        look
    }

    /// `d[k] = v`, of a key and its value: what `call` answers for it.
    pub fn dict_set<R: Wait>(
        &self,
        rt: &R,
        alloc: Global,
        caller: &mut Caller,
        d: Object,
        pair: (Key, Value),
    ) -> Called
        requires caller { IsCallerOf self.now caller.old }
        requires may { MayAttempt self.now caller.old (calls.Dict d (dict.Set pair.0 pair.1)) }
        ensures { IsCallFor self.now (calls.Dict d (dict.Set pair.0 pair.1)) result caller.old caller.new }
    {
        let (key, value) = pair;
        let call = Call::Dict {
            container: d,
            call: DictCall::Set { key, value },
        };
        if !caller.is_free() {
            return self.call_in_turn(rt, alloc, caller, &call);
        }
        let step = try_set(&self.bank, &mut caller.pass, d, key, value);
        self.end_at_once(rt, alloc, caller, &call, step)
    }

    /// `del d[k]`: what `call` answers for it.
    pub fn dict_del<R: Wait>(
        &self,
        rt: &R,
        alloc: Global,
        caller: &mut Caller,
        d: Object,
        key: Key,
    ) -> Called
        requires caller { IsCallerOf self.now caller.old }
        requires may { MayAttempt self.now caller.old (calls.Dict d (dict.Del key)) }
        ensures { IsCallFor self.now (calls.Dict d (dict.Del key)) result caller.old caller.new }
    {
        let asked = DictCall::Del { key };
        let call = Call::Dict {
            container: d,
            call: asked,
        };
        if !caller.is_free() {
            return self.call_in_turn(rt, alloc, caller, &call);
        }
        let step = try_any_dict(&self.bank, &mut caller.pass, alloc, d, &asked, &call);
        self.end_at_once(rt, alloc, caller, &call, step)
    }

    /// `d.pop(k)`: what `call` answers for it.
    pub fn dict_pop<R: Wait>(
        &self,
        rt: &R,
        alloc: Global,
        caller: &mut Caller,
        d: Object,
        key: Key,
    ) -> Called
        requires caller { IsCallerOf self.now caller.old }
        requires may { MayAttempt self.now caller.old (calls.Dict d (dict.Pop key)) }
        ensures { IsCallFor self.now (calls.Dict d (dict.Pop key)) result caller.old caller.new }
    {
        let asked = DictCall::Pop { key };
        let call = Call::Dict {
            container: d,
            call: asked,
        };
        if !caller.is_free() {
            return self.call_in_turn(rt, alloc, caller, &call);
        }
        let step = try_any_dict(&self.bank, &mut caller.pass, alloc, d, &asked, &call);
        self.end_at_once(rt, alloc, caller, &call, step)
    }

    /// `d.setdefault(k, v)`, of a key and the default: what `call` answers for it.
    pub fn dict_setdefault<R: Wait>(
        &self,
        rt: &R,
        alloc: Global,
        caller: &mut Caller,
        d: Object,
        pair: (Key, Value),
    ) -> Called
        requires caller { IsCallerOf self.now caller.old }
        requires may { MayAttempt self.now caller.old (calls.Dict d (dict.SetDefault pair.0 pair.1)) }
        ensures { IsCallFor self.now (calls.Dict d (dict.SetDefault pair.0 pair.1)) result caller.old caller.new }
    {
        let (key, default) = pair;
        let asked = DictCall::SetDefault { key, default };
        let call = Call::Dict {
            container: d,
            call: asked,
        };
        if !caller.is_free() {
            return self.call_in_turn(rt, alloc, caller, &call);
        }
        let step = try_any_dict(&self.bank, &mut caller.pass, alloc, d, &asked, &call);
        self.end_at_once(rt, alloc, caller, &call, step)
    }
}
