//! Callers that rest, for one hand that holds all callers of an engine. Each pass has a token at first, and takes steps
//! only with one. A caller that has gathered the tokens of all others, which rest, takes the floor: it knows all words
//! of the bank from then on, and so whom its tries find with locks. With its tokens it hands the floor on.
ghost use Rattle.std.specs.Prelude.{◌≡◌, ◌≤◌, ◌+◌, ◌++◌, List, length, suc};
ghost use Rattle.ft_model.specs.declared.entry.Entry.{Entry as NamedEntry};
ghost use Rattle.ft_trace.specs.Acts.{announces, seen_writes, presence_of};
ghost use Rattle.ft_trace.specs.Boxes.{HasMergedBoxes};
ghost use Rattle.ft_bank.specs.Floors.{AreTokensOf, carried, rests};
ghost use Rattle.ft_bank.specs.Notes.{writes_seen};
ghost use Rattle.ft_bank.specs.Passes.{shape_of, view};
ghost use Rattle.ft_bank.specs.PassSections.{stack_of};
ghost use Rattle.ft_engine.specs.declared.caller.Caller.{Caller as ACaller};
ghost use Rattle.ft_engine.specs.Callers.{IsCallerOf, IsIdle, bank_of, hands_of, left_of, pass_of, thread_of, taken_of};
ghost use Rattle.ft_engine.specs.DoneCallers.{WereAnswered};
ghost use Rattle.ft_engine.specs.SoFar.{AreAnswersRight};
ghost use Rattle.ft_engine.specs.Resting.{HandsOn, HasFloor, IsAsBefore, IsRestDone, IsRestingCallerOf, IsWoken, KeepsFloor, RestsAs, rests_in, token_count};
ghost use Rattle.ft_engine.specs.Presences.{WereOnline};

use crate::caller::{Caller, Flight};
use crate::engine::Engine;
use ft_bank::{Resting, Tokens};
use ft_model::Cursor;

/// A caller that has given its tokens away: it makes no call before it is woken.
#[derive(Drop)]
pub struct RestingCaller {
    pub(crate) pass: Resting,
    pub(crate) cursors: Vec<Option<Cursor>>,
    pub(crate) calls: u32,
    pub(crate) made: u32,
    pub(crate) flight: Flight,
}

impl Engine {
    /// Gives all tokens of a caller away, which rests from then on, between two calls or in the midst of one. It keeps
    /// all else. Where it has the floor, the tokens bring the words of the bank.
    pub fn rest(&self, caller: Caller) -> (RestingCaller, Tokens)
        requires { IsCallerOf self.now caller }
        ensures resting { IsRestingCallerOf self.now result.0 }
        ensures rests { RestsAs caller result.0 }
        ensures tokens { AreTokensOf (bank_of self.now) result.1 × HandsOn caller result.1 }
        ensures all { HasFloor caller → (carried result.1).tokens ≡ (shape_of (bank_of self.now)).passes }
    {
        let Caller {
            pass,
            cursors,
            calls,
            made,
            flight,
        } = caller;
        let (pass, tokens) = self.bank.rest(pass);
        let resting = RestingCaller {
            pass,
            cursors,
            calls,
            made,
            flight,
        };
        (resting, tokens)
    }

    /// Gives the tokens of another caller to this one.
    pub fn gather(&self, caller: &mut Caller, tokens: Tokens)
        requires caller { IsCallerOf self.now caller.old }
        requires tokens { AreTokensOf (bank_of self.now) tokens }
        ensures caller { IsCallerOf self.now caller.new }
        ensures same { IsAsBefore caller.old caller.new }
        ensures floor { KeepsFloor caller.old caller.new }
        ensures tokens { token_count caller.new ≡ token_count caller.old + (carried tokens).tokens }
    {
        self.bank.gather(&mut caller.pass, tokens);
    }

    /// Takes the floor, by a caller that has the tokens of all: while it has them no other can take a step, so it knows
    /// all words of the bank.
    pub fn take_floor(&self, caller: &mut Caller)
        requires caller { IsCallerOf self.now caller.old }
        requires all { (shape_of (bank_of self.now)).passes ≤ token_count caller.old }
        ensures caller { IsCallerOf self.now caller.new }
        ensures same { IsAsBefore caller.old caller.new }
        ensures floor { HasFloor caller.new }
        ensures kept { (lists : List (List NamedEntry)) → WereAnswered caller.old lists → WereAnswered caller.new lists }
        ensures online { WereOnline caller.old → WereOnline caller.new }
    {
        self.bank.take_floor(&mut caller.pass);
    }

    /// Wakes a caller with the tokens of all: it has the floor then, and knows the words that the tokens bring.
    pub fn wake(&self, resting: RestingCaller, tokens: Tokens) -> Caller
        requires resting { IsRestingCallerOf self.now resting }
        requires tokens { AreTokensOf (bank_of self.now) tokens }
        requires all { (carried tokens).tokens ≡ (shape_of (bank_of self.now)).passes }
        ensures caller { IsCallerOf self.now result }
        ensures same { (c : ACaller) → IsCallerOf self.now c → RestsAs c resting → IsAsBefore c result }
        ensures woken { IsWoken tokens result }
    {
        let RestingCaller {
            pass,
            cursors,
            calls,
            made,
            flight,
        } = resting;
        let pass = self.bank.wake(pass, tokens);
        Caller {
            pass,
            cursors,
            calls,
            made,
            flight,
        }
    }

    /// Takes in the next caller, which rests, as `join` takes in one that doesn't.
    pub fn join_resting(&self, caller: &mut Caller, other: RestingCaller)
        requires caller { IsCallerOf self.now caller.old }
        requires idle { IsIdle caller.old }
        requires other { IsRestingCallerOf self.now other }
        requires done { IsRestDone other }
        requires last { (rests_in other).next ≡ 0 }
        ensures caller { IsCallerOf self.now caller.new }
        ensures thread { thread_of caller.new ≡ thread_of caller.old }
        ensures idle { IsIdle caller.new }
        ensures announced { announces (view (pass_of caller.new)).log ≡ announces (view (pass_of caller.old)).log }
        ensures presence { presence_of (view (pass_of caller.new)).log ≡ presence_of (view (pass_of caller.old)).log }
        ensures merged { HasMergedBoxes (view (pass_of caller.old)).log → HasMergedBoxes (view (pass_of caller.new)).log }
        ensures sections { stack_of (pass_of caller.new) ≡ stack_of (pass_of caller.old) }
        ensures cursors { hands_of caller.new ≡ hands_of caller.old }
        ensures left { left_of caller.new ≡ left_of caller.old }
        ensures entries { (view (pass_of caller.new)).entries ≡ (view (pass_of caller.old)).entries }
        ensures seen { (writes_seen (pass_of caller.old) ≤ writes_seen (pass_of caller.new)) × (seen_writes (rests_in other) ≤ writes_seen (pass_of caller.new)) }
        ensures parts { (view (pass_of caller.new)).parts ≡ (view (pass_of caller.old)).parts + (rests_in other).parts }
        ensures floor { KeepsFloor caller.old caller.new }
        ensures kept { (mine theirs : List (List NamedEntry)) (c : ACaller) → RestsAs c other → WereAnswered caller.old mine →
            WereAnswered c theirs → thread_of c ≡ thread_of caller.old + length mine → WereAnswered caller.new (mine ++ theirs) }
        ensures right { (mine theirs : List (List NamedEntry)) (c : ACaller) → RestsAs c other → WereAnswered caller.old mine →
            WereAnswered c theirs → thread_of c ≡ thread_of caller.old + length mine → AreAnswersRight caller.new (mine ++ theirs) }
        ensures online { (c : ACaller) → RestsAs c other → WereOnline caller.old → WereOnline c →
            thread_of c ≡ suc (thread_of caller.old + length (taken_of caller.old)) → WereOnline caller.new }
    {
        let RestingCaller {
            pass,
            cursors: _,
            calls: _,
            made: _,
            flight: _,
        } = other;
        self.bank.join_resting(&mut caller.pass, pass);
    }
}
