//! Callers go online and offline. A caller may make calls only while it is online (PEP 703, QSBR).
ghost use Rattle.std.specs.Prelude.{◌≡◌, ◌<◌, List};
ghost use Rattle.ft_model.specs.declared.entry.Entry.{Entry as NamedEntry};
ghost use Rattle.ft_trace.specs.declared.Presence.TheVariants as presence;
ghost use Rattle.ft_trace.specs.Acts.{announces, presence_of};
ghost use Rattle.ft_trace.specs.Boxes.{HasMergedBoxes};
ghost use Rattle.ft_bank.specs.Passes.{view};
ghost use Rattle.ft_engine.specs.Callers.{IsCallerOf, IsIdle, pass_of};
ghost use Rattle.ft_engine.specs.Collections.{HasLeft};
ghost use Rattle.ft_engine.specs.Keeping.{WasAnswered};
ghost use Rattle.ft_engine.specs.Presences.{IsStillOnline};
ghost use Rattle.ft_engine.specs.Resting.{KeepsFloor};
ghost use Rattle.ft_engine.specs.Visits.{SameCallerWork};

use crate::caller::Caller;
use crate::engine::Engine;
use ft_boxes::merge_all;

impl Engine {
    /// The caller goes online. Where it was never online and has made no call, it has been online from before its first
    /// call on.
    pub fn enter(&self, caller: &mut Caller)
        requires caller { IsCallerOf self.now caller.old }
        requires idle { IsIdle caller.old }
        ensures caller { IsCallerOf self.now caller.new }
        ensures same { SameCallerWork caller.old caller.new }
        ensures online { 0 < announces (view (pass_of caller.new)).log }
        ensures presence { presence_of (view (pass_of caller.old)).log ≡ presence.Before → IsStillOnline caller.new }
        ensures floor { KeepsFloor caller.old caller.new }
        ensures kept { (mine : List NamedEntry) → WasAnswered caller.old mine → WasAnswered caller.new mine }
    {
        ft_qsbr::enter(&self.bank, &mut caller.pass);
    }

    /// The caller merges its boxes, so that all callers count their references alike from then on; it goes offline, and
    /// collects: what it retired and no caller online can still read is free again.
    pub fn leave(&self, caller: &mut Caller)
        requires caller { IsCallerOf self.now caller.old }
        requires idle { IsIdle caller.old }
        ensures caller { IsCallerOf self.now caller.new }
        ensures same { SameCallerWork caller.old caller.new }
        ensures offline { announces (view (pass_of caller.new)).log ≡ 0 }
        ensures presence { IsStillOnline caller.old → presence_of (view (pass_of caller.new)).log ≡ presence.Over }
        ensures merged { HasMergedBoxes (view (pass_of caller.new)).log }
        ensures collected { HasLeft (view (pass_of caller.old)) (view (pass_of caller.new)) }
        ensures floor { KeepsFloor caller.old caller.new }
        ensures kept { (mine : List NamedEntry) → WasAnswered caller.old mine → WasAnswered caller.new mine }
    {
        merge_all(&self.bank, &mut caller.pass);
        ft_qsbr::leave(&self.bank, &mut caller.pass);
    }
}
