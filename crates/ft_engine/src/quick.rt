//! One try of the writes that are made most, each in a function of its own. What comes nearly always, a write that has
//! nothing to show, is answered by its number alone; whatever else the try came to is left at a place that is given. So
//! no large answer goes from one function to the other.
ghost use Rattle.std.specs.Prelude.{◌≡◌, ◌<◌, ◌+◌, [], IfNone, IfSome, true};
ghost use Rattle.ft_model.specs.declared.call.Call.TheVariants as calls;
ghost use Rattle.ft_model.specs.declared.call.DictCall.TheVariants as dict;
ghost use Rattle.ft_model.specs.declared.call.ListCall.TheVariants as list;
ghost use Rattle.ft_model.specs.declared.call.SetCall.TheVariants as set;
ghost use Rattle.ft_model.specs.declared.reply.Reply.TheVariants as replies;
ghost use Rattle.ft_bank.specs.PassSections.{stack_of};
ghost use Rattle.ft_section.specs.declared.answers.Step.TheVariants as steps;
ghost use Rattle.ft_engine.specs.Attempts.{MayAttempt};
ghost use Rattle.ft_engine.specs.Callers.{IsCallerOf, IsIdle};
ghost use Rattle.ft_engine.specs.QuickTries.{IsQuick, IsTriedAtOnce};

use crate::caller::Caller;
use crate::dict_call::try_set;
use crate::engine::Engine;
use crate::list_call::try_append;
use crate::set_call::{try_add, try_discard};
use ft_model::{Call, DictCall, Key, ListCall, Reply, SetCall, Value};
use ft_section::{Object, Stamp, Step};

/// What the one try of a call comes to.
#[derive(Clone, Copy, Debug, PartialEq, Eq)]
pub(crate) enum Quick {
    /// The call was a write that has nothing to show, and has this number.
    Wrote(u64),
    /// It came to what is left at the place that was given.
    Came,
    /// The call isn't one of these writes, and wasn't tried.
    Other,
}

impl Caller {
    /// Counts the call where the try was a write that has nothing to show, and answers its number; else it leaves the
    /// step in `rest`.
    #[inline(always)]
    fn count_write(&mut self, step: Step, rest: &mut Step) -> Option<u64>
        requires left { self.old.made < self.old.calls }
        ensures wrote { IfSome result (λ number. (step ≡ steps.Done replies.Done (record { number = number; wrote = true }))
            × (self.new ≡ record self.old { made = self.old.made + 1 })) }
        ensures came { IfNone result ((rest.new ≡ step) × (self.new ≡ self.old)) }
    {
        match step {
            Step::Done(
                Reply::Done,
                Stamp {
                    number,
                    wrote: true,
                },
            ) => {
                self.made += 1;
                Some(number)
            }
            other => {
                *rest = other;
                None
            }
        }
    }
}

impl Engine {
    /// One try of `d[k] = v`, of a caller that is in no call and has no section open.
    #[inline(never)]
    fn quick_set(
        &self,
        caller: &mut Caller,
        d: Object,
        pair: (Key, Value),
        rest: &mut Step,
    ) -> Option<u64>
        requires caller { IsCallerOf self.now caller.old }
        requires may { MayAttempt self.now caller.old (calls.Dict d (dict.Set pair.0 pair.1)) }
        requires idle { IsIdle caller.old }
        requires none { (stack_of caller.old.pass).sections ≡ [] }
        ensures { IsTriedAtOnce self.now (calls.Dict d (dict.Set pair.0 pair.1)) result rest.new caller.old caller.new }
    {
        let (key, value) = pair;
        let step = try_set(&self.bank, &mut caller.pass, d, key, value);
        caller.count_write(step, rest)
    }

    /// One try of `l.append(v)`, the same.
    #[inline(never)]
    fn quick_append(
        &self,
        caller: &mut Caller,
        l: Object,
        value: Value,
        rest: &mut Step,
    ) -> Option<u64>
        requires caller { IsCallerOf self.now caller.old }
        requires may { MayAttempt self.now caller.old (calls.List l (list.Append value)) }
        requires idle { IsIdle caller.old }
        requires none { (stack_of caller.old.pass).sections ≡ [] }
        ensures { IsTriedAtOnce self.now (calls.List l (list.Append value)) result rest.new caller.old caller.new }
    {
        let step = try_append(&self.bank, &mut caller.pass, l, value);
        caller.count_write(step, rest)
    }

    /// One try of `s.add(k)`, the same.
    #[inline(never)]
    fn quick_add(&self, caller: &mut Caller, s: Object, key: Key, rest: &mut Step) -> Option<u64>
        requires caller { IsCallerOf self.now caller.old }
        requires may { MayAttempt self.now caller.old (calls.Set s (set.Add key)) }
        requires idle { IsIdle caller.old }
        requires none { (stack_of caller.old.pass).sections ≡ [] }
        ensures { IsTriedAtOnce self.now (calls.Set s (set.Add key)) result rest.new caller.old caller.new }
    {
        let step = try_add(&self.bank, &mut caller.pass, s, key);
        caller.count_write(step, rest)
    }

    /// One try of `s.discard(k)`, the same.
    #[inline(never)]
    fn quick_discard(
        &self,
        caller: &mut Caller,
        s: Object,
        key: Key,
        rest: &mut Step,
    ) -> Option<u64>
        requires caller { IsCallerOf self.now caller.old }
        requires may { MayAttempt self.now caller.old (calls.Set s (set.Discard key)) }
        requires idle { IsIdle caller.old }
        requires none { (stack_of caller.old.pass).sections ≡ [] }
        ensures { IsTriedAtOnce self.now (calls.Set s (set.Discard key)) result rest.new caller.old caller.new }
    {
        let step = try_discard(&self.bank, &mut caller.pass, s, key);
        caller.count_write(step, rest)
    }

    /// One try of the call, where it is one of these writes: a call that is known where it is written goes straight to
    /// its function.
    #[inline(always)]
    pub(crate) fn quick(&self, caller: &mut Caller, call: &Call, rest: &mut Step) -> Quick
        requires caller { IsCallerOf self.now caller.old }
        requires may { MayAttempt self.now caller.old call.now }
        requires idle { IsIdle caller.old }
        requires none { (stack_of caller.old.pass).sections ≡ [] }
        ensures { IsQuick self.now call.now result rest.new caller.old caller.new }
    {
        let made = match *call {
            Call::Dict {
                container,
                call: DictCall::Set { key, value },
            } => self.quick_set(caller, container, (key, value), rest),
            Call::List {
                container,
                call: ListCall::Append { value },
            } => self.quick_append(caller, container, value, rest),
            Call::Set {
                container,
                call: SetCall::Add { key },
            } => self.quick_add(caller, container, key, rest),
            Call::Set {
                container,
                call: SetCall::Discard { key },
            } => self.quick_discard(caller, container, key, rest),
            _ => return Quick::Other,
        };
        match made {
            Some(number) => Quick::Wrote(number),
            None => Quick::Came,
        }
    }
}
